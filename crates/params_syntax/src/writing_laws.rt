//! What holds of every canonical text.
ghost use Rattle.std.specs.Prelude.{◌≤◌, List, length};
ghost use Rattle.params_syntax.specs.declared.tree.Group.{Group};
ghost use Rattle.params_syntax.specs.Trees.{IsTree};
ghost use Rattle.params_syntax.specs.Limits.{longest};
ghost use Rattle.params_syntax.specs.Reading.{Spells};
ghost use Rattle.params_syntax.specs.Canonical.{canonical_text};

/// The canonical text of a tree spells this tree, unless it is longer than a text may be.
pub fn canonical_text_reads_again()
    ensures spells { (groups : List Group) → IsTree groups → length (canonical_text groups) ≤ longest →
        Spells (canonical_text groups) groups }
{}

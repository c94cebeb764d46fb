//! Laws about accepted parameters.

ghost use Rattle.std.specs.Prelude.{◌≡◌, List, Ok, length};
ghost use Rattle.params_syntax.specs.declared.tree.Group.{Group};
ghost use Rattle.params_syntax.specs.Trees.{IsTree};
ghost use Rattle.params_syntax.specs.Canonical.{canonical_text};
ghost use Rattle.params_syntax.specs.Reading.{Spells};
ghost use Rattle.params_check.specs.Examples.{drop_text};
ghost use Rattle.params_check.specs.Parameters.{IsParameters, Parameters, total_of};
ghost use Rattle.params_check.specs.Walks.{parameters_of};

/// Accepted parameters keep all limits.
pub fn accepted_parameters()
    ensures limits { (groups : List Group) (p : Parameters) → IsTree groups → parameters_of groups ≡ Ok p → IsParameters p }
{}

/// The text that is kept with accepted parameters is the canonical text of the tree that they stood in, and it spells
/// the same tree: so it reads and checks as the same parameters.
pub fn accepted_text()
    ensures text { (groups : List Group) (p : Parameters) → IsTree groups → parameters_of groups ≡ Ok p → p.text ≡ canonical_text groups }
    ensures again { (groups : List Group) (p : Parameters) → IsTree groups → parameters_of groups ≡ Ok p → Spells p.text groups }
{}

/// A short text is the canonical text of a tree that is accepted, and in all there is 1 of its field.
pub fn a_short_text_is_accepted()
    ensures length { length drop_text ≡ 322 }
    ensures accepted { (groups : List Group) × (p : Parameters) × IsTree groups × (canonical_text groups ≡ drop_text)
        × (parameters_of groups ≡ Ok p) × (total_of p 0 ≡ 1) }
{}

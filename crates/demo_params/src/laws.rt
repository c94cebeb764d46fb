//! Laws about the texts of the demonstration.
ghost use Rattle.std.specs.Prelude.{◌≡◌, ℕ, ◌*◌, ◌^◌, ◌≤◌, List, false, Ok};
ghost use Rattle.params_syntax.specs.declared.tree.Group.{Group};
ghost use Rattle.params_syntax.specs.Reading.{Spells};
ghost use Rattle.params_check.specs.Parameters.{Parameters, trees};
ghost use Rattle.params_check.specs.Walks.{parameters_of};
ghost use Rattle.demo_params.specs.DemoTexts.{demo_text, most_seed, most_size};
ghost use Rattle.demo_params.specs.Examples.{first_text};

use params_check::accepted_text;

/// Each text spells a tree that is accepted. A wish past the finest level ends no run of it, and there may be as many
/// blocks as there are places of the finest level.
pub fn demo_texts_are_accepted()
    ensures accepted { (seed size : ℕ) → seed ≤ most_seed → 1 ≤ size → size ≤ most_size →
        (groups : List Group) × (p : Parameters) × Spells (demo_text seed size) groups × (parameters_of groups ≡ Ok p)
        × (p.strict ≡ false) × (trees p * 8 ^ p.grid.finest ≤ p.max_blocks) }
{
    accepted_text();
}

/// The text of seed 1 and size 1.
pub fn the_first_text()
    ensures text { demo_text 1 1 ≡ first_text }
{}

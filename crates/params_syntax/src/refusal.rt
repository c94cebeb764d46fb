//! Why reading doesn't go on with a token.

use cello_num::Memory;

/// Why a token isn't taken.
#[derive(Debug, Clone, Copy, PartialEq, Eq)]
pub enum Refusal {
    /// It isn't allowed after those before it.
    Unexpected,
    /// It is the 65th element of its list.
    Length,
    /// Memory was refused.
    Memory,
}

impl From<Memory> for Refusal {
    ghost use Rattle.std.specs.Prelude.{◌≡◌};
    ghost use Rattle.params_syntax.specs.declared.refusal.Refusal.TheVariants.{Memory};

    ghost from_gives = { λ _ e. e ≡ Memory };

    fn from(_: Memory) -> Refusal {
        Refusal::Memory
    }
}

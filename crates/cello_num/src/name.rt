//! Short names.
ghost use Rattle.std.specs.Prelude.{◌≡◌, ℕ, ◌<◌, ◌≤◌, ◌↔◌, length, List, IsSome, IfSome};

use std::marker::Model;

/// How many bytes a name holds at most.
const LONGEST: usize = 32;

/// A name of at most 32 bytes, which lie in the value itself. Contracts see it as the list of its bytes.
#[derive(Debug, Clone, Copy, PartialEq, Eq)]
pub struct Name {
    // The bytes of the name, and then zeros.
    bytes: [u8; 32],
    length: usize,
}

impl Model for Name {
    ghost use Rattle.std.specs.Prelude.{ℕ, List};

    ghost Value = { List ℕ };

    ghost use Rattle.cello_num.specs.Name.{name_bytes, IsPadded, padded, padded-name_bytes};

    ghost view = { name_bytes };

    ghost invariant = { IsPadded };

    ghost inverse = { padded };

    ghost inverse_ok = { padded-name_bytes };
}

impl Name {
    /// The name of these bytes, where they are at most 32.
    pub fn of(bytes: &[u8]) -> Option<Name>
        ensures fits { IsSome result ↔ (length bytes.now ≤ 32) }
        ensures bytes { IfSome result (λ name. name ≡ bytes.now) }
    {
        if bytes.len() > LONGEST {
            return None;
        }
        let mut padded = [0u8; 32];
        padded[..bytes.len()].copy_from_slice(bytes);
        Some(Name {
            bytes: padded,
            length: bytes.len(),
        })
    }

    /// The bytes of the name, without any padding.
    pub fn bytes(&self) -> &[u8]
        ensures bytes { result.now ≡ self.now }
        ensures fits { length self.now ≤ 32 }
    {
        &self.bytes[..self.length]
    }
}

//! The names of the fields.
ghost use Rattle.std.specs.Prelude.{◌≡◌, ◌≤◌, length};

use cello_num::Name;
use std::marker::Model;

/// The names of the fields in the order of the text, at most 4.
#[derive(Drop)]
pub struct Names {
    names: Vec<Name>,
}

impl Model for Names {
    ghost use Rattle.std.specs.Prelude.{List, ℕ, ◌≤◌, length};

    ghost Value = { List (List ℕ) };

    ghost view = { λ n. n.names.items };

    ghost invariant = { λ n. length n.names.items ≤ 4 };
}

impl Names {
    /// These names.
    pub fn of(names: Vec<Name>) -> Names
        requires few { length names.items ≤ 4 }
        ensures items { result ≡ names.items }
    {
        Names { names }
    }

    /// The names in order.
    pub fn items(&self) -> &[Name]
        ensures items { result.now ≡ self.now }
        ensures few { length self.now ≤ 4 }
    {
        &self.names
    }
}

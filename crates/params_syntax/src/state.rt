//! What was read of a tree so far.

use crate::tree::growing::Groups;
use crate::tree::{Atoms, Items, Settings, Value};
use cello_num::Name;

/// What is open around the next token: a group, or a sub in it. Each has the groups before it.
#[derive(Drop)]
pub enum Frame {
    InGroup {
        groups: Groups,
        group: Name,
        items: Items,
    },
    InSub {
        groups: Groups,
        group: Name,
        items: Items,
        sub: Name,
        sets: Settings,
    },
}

/// Where in the grammar the next token stands, and what was read before it.
#[derive(Drop)]
pub enum State {
    /// Between groups.
    Top {
        groups: Groups,
    },
    /// After the name of a group.
    GroupNamed {
        groups: Groups,
        group: Name,
    },
    /// Between items of a group, or settings of a sub.
    Inside {
        frame: Frame,
    },
    /// After the name of an item.
    Named {
        frame: Frame,
        name: Name,
    },
    /// After the `=` of a setting.
    Assigned {
        frame: Frame,
        name: Name,
    },
    /// After the `[` of a list.
    Listed {
        frame: Frame,
        name: Name,
    },
    /// After an element of a list.
    Element {
        frame: Frame,
        name: Name,
        atoms: Atoms,
    },
    /// After a comma of a list.
    Separated {
        frame: Frame,
        name: Name,
        atoms: Atoms,
    },
    /// After the value of a setting.
    Valued {
        frame: Frame,
        name: Name,
        value: Value,
    },
}

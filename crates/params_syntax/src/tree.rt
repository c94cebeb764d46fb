//! The tree of a parameter text: groups of settings and subs.
ghost use Rattle.std.specs.Prelude.{◌≡◌, ◌≤◌, length};
ghost use Rattle.params_syntax.specs.Limits.{most_elements};
ghost use Rattle.params_syntax.specs.Trees.{IsTree};

pub mod growing;

use cello_num::Name;
use std::marker::Model;

/// A number or a word.
#[derive(Debug, Clone, Copy, PartialEq, Eq)]
pub enum Atom {
    /// From -9223372036854775807 to 9223372036854775807.
    Number(i64),
    /// At most 32 bytes from 0x20 to 0x7e, none of which is `"` or `\`.
    Word(Name),
}

/// The most elements of a list.
pub const MOST_ELEMENTS: usize = 64;

/// The elements of a list: numbers and words in the order of the text, at most 64.
#[derive(Drop)]
pub struct Atoms {
    atoms: Vec<Atom>,
}

impl Model for Atoms {
    ghost use Rattle.std.specs.Prelude.{List, ◌≤◌, length};
    ghost use Rattle.params_syntax.specs.declared.tree.Atom.{Atom};
    ghost use Rattle.params_syntax.specs.Limits.{most_elements};

    ghost Value = { List Atom };

    ghost view = { λ a. a.atoms.items };

    ghost invariant = { λ a. length a.atoms.items ≤ most_elements };
}

impl Atoms {
    /// A list of these elements.
    pub fn of(atoms: Vec<Atom>) -> Atoms
        requires few { length atoms.items ≤ most_elements }
        ensures items { result ≡ atoms.items }
    {
        Atoms { atoms }
    }

    /// The elements in order.
    pub fn items(&self) -> &[Atom]
        ensures items { result.now ≡ self.now }
        ensures few { length self.now ≤ most_elements }
    {
        &self.atoms
    }
}

/// What stands right of the `=` of a setting.
#[derive(Drop)]
pub enum Value {
    Atom(Atom),
    List(Atoms),
}

/// A key and its value.
#[derive(Drop)]
pub struct Setting {
    pub name: Name,
    pub value: Value,
}

/// Settings in the order of the text.
#[derive(Drop)]
pub struct Settings {
    settings: Vec<Setting>,
}

impl Model for Settings {
    ghost use Rattle.std.specs.Prelude.{List};
    ghost use Rattle.params_syntax.specs.declared.tree.Setting.{Setting};

    ghost Value = { List Setting };

    ghost view = { λ s. s.settings.items };
}

impl Settings {
    /// These settings.
    pub fn of(settings: Vec<Setting>) -> Settings
        ensures items { result ≡ settings.items }
    {
        Settings { settings }
    }

    /// The settings in order.
    pub fn items(&self) -> &[Setting]
        ensures items { result.now ≡ self.now }
    {
        &self.settings
    }
}

/// What stands in a group: a setting, or a sub with settings of its own.
#[derive(Drop)]
pub enum Item {
    Set(Setting),
    Sub { name: Name, sets: Settings },
}

/// Settings and subs in the order of the text.
#[derive(Drop)]
pub struct Items {
    items: Vec<Item>,
}

impl Model for Items {
    ghost use Rattle.std.specs.Prelude.{List};
    ghost use Rattle.params_syntax.specs.declared.tree.Item.{Item};

    ghost Value = { List Item };

    ghost view = { λ i. i.items.items };
}

impl Items {
    /// These settings and subs.
    pub fn of(items: Vec<Item>) -> Items
        ensures items { result ≡ items.items }
    {
        Items { items }
    }

    /// The settings and subs in order.
    pub fn items(&self) -> &[Item]
        ensures items { result.now ≡ self.now }
    {
        &self.items
    }
}

/// A name and what stands between its braces.
#[derive(Drop)]
pub struct Group {
    pub name: Name,
    pub items: Items,
}

/// The groups of a text in their order. All names have the form of a name in a text, all words and numbers that of
/// theirs.
#[derive(Drop)]
pub struct Tree {
    groups: Vec<Group>,
}

impl Model for Tree {
    ghost use Rattle.std.specs.Prelude.{List};
    ghost use Rattle.params_syntax.specs.declared.tree.Group.{Group};
    ghost use Rattle.params_syntax.specs.Trees.{IsTree};

    ghost Value = { List Group };

    ghost view = { λ t. t.groups.items };

    ghost invariant = { λ t. IsTree t.groups.items };
}

impl Tree {
    /// The tree of these groups.
    pub fn of(groups: Vec<Group>) -> Tree
        requires limits { IsTree groups.items }
        ensures items { result ≡ groups.items }
    {
        Tree { groups }
    }

    /// The groups in order.
    pub fn items(&self) -> &[Group]
        ensures items { result.now ≡ self.now }
        ensures limits { IsTree self.now }
    {
        &self.groups
    }
}

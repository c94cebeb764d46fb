//! Groups and values by their names.
ghost use Rattle.std.specs.Prelude.{◌≡◌, ◌≤◌, None, length, option_copied};
ghost use Rattle.std.specs.Option.{option_or};
ghost use Rattle.params_check.specs.Lemmas.Slots.{settings_in};
ghost use Rattle.params_check.specs.TreeValues.{position_of};
ghost use Rattle.params_check.specs.Values.{same, items_of, settings_among, value_of, word_in};

use crate::atoms::word_of;
use cello_num::Name;
use params_syntax::{Group, Item, Setting, Value};

/// Whether a name has these bytes.
pub(crate) fn same(name: &Name, bytes: &[u8]) -> bool
    ensures same { result ≡ same name.now bytes.now }
{
    name.bytes() == bytes
}

/// Whether bytes are those of a name.
pub(crate) fn spells(bytes: &[u8], name: &Name) -> bool
    ensures same { result ≡ same bytes.now name.now }
{
    bytes == name.bytes()
}

/// The items of the first group of a name, or none.
pub(crate) fn items_of<'a>(groups: &'a [Group], name: &[u8]) -> &'a [Item]
    ensures items { result.now ≡ items_of name.now groups.now }
{
    for group in groups {
        if same(&group.name, name) {
            return group.items.items();
        }
    }
    &[]
}

/// What stands in a group or in a sub.
#[derive(Clone, Copy)]
pub(crate) enum Lines<'a> {
    Items(&'a [Item]),
    Settings(&'a [Setting]),
}

impl<'a> Lines<'a> {
    /// The value of the first setting of a key.
    pub(crate) fn value_of(&self, key: &[u8]) -> Option<&'a Value>
        ensures value { option_copied result ≡ value_of key.now (settings_in self.now) }
    {
        match self {
            Lines::Items(items) => value_among(items, key),
            Lines::Settings(sets) => value_of(sets, key),
        }
    }

    /// The word of the first setting of a key; without one none.
    pub(crate) fn word_of(&self, key: &[u8]) -> &'a [u8]
        ensures word { result.now ≡ word_in (option_or (value_of key.now (settings_in self.now)) None) }
    {
        match self.value_of(key) {
            Some(Value::Atom(atom)) => word_of(atom),
            _ => &[],
        }
    }
}

/// The position of a name among others, or their number where it isn't among them.
pub(crate) fn position_of(names: &[Name], word: &[u8]) -> u8
    requires few { length names.now ≤ 4 }
    ensures position { result ≡ position_of word.now names.now }
{
    for (i, name) in names.iter().enumerate() {
        if same(name, word) {
            return i as u8;
        }
    }
    names.len() as u8
}

/// The value of the first setting of a key among items.
fn value_among<'a>(items: &'a [Item], key: &[u8]) -> Option<&'a Value>
    ensures value { option_copied result ≡ value_of key.now (settings_among items.now) }
{
    for item in items {
        if let Item::Set(setting) = item {
            if same(&setting.name, key) {
                return Some(&setting.value);
            }
        }
    }
    None
}

/// The value of the first setting of a key.
fn value_of<'a>(sets: &'a [Setting], key: &[u8]) -> Option<&'a Value>
    ensures value { option_copied result ≡ value_of key.now sets.now }
{
    for setting in sets {
        if same(&setting.name, key) {
            return Some(&setting.value);
        }
    }
    None
}

//! Lists of a tree that grow by one element.
ghost use Rattle.std.specs.Prelude.{◌≡◌, ◌<◌, [], ◌∷◌, ◌++◌, length, IfOk};
ghost use Rattle.params_syntax.specs.Limits.{most_elements};

use crate::tree::{Atom, Atoms, Group, Item, Items, Setting, Settings};
use cello_num::Memory;
use std::alloc::Global;
use std::marker::Model;

/// The groups that were read so far.
#[derive(Drop)]
pub struct Groups {
    groups: Vec<Group>,
}

impl Model for Groups {
    ghost use Rattle.std.specs.Prelude.{List};
    ghost use Rattle.params_syntax.specs.declared.tree.Group.{Group};

    ghost Value = { List Group };

    ghost view = { λ g. g.groups.items };
}

impl Groups {
    /// No group yet.
    pub fn new(alloc: Global) -> Groups
        ensures empty { result ≡ [] }
    {
        Groups {
            groups: Vec::new(alloc),
        }
    }

    /// One group more.
    pub fn with(mut self, group: Group) -> Result<Groups, Memory>
        ensures more { IfOk result (λ groups. groups ≡ self ++ group ∷ []) }
    {
        self.groups.push(group)?;
        Ok(self)
    }

    /// The list itself.
    pub fn into_vec(self) -> Vec<Group>
        ensures items { result.items ≡ self }
    {
        self.groups
    }
}

impl Items {
    /// No item yet.
    pub fn new(alloc: Global) -> Items
        ensures empty { result ≡ [] }
    {
        Items {
            items: Vec::new(alloc),
        }
    }

    /// One item more.
    pub fn with(mut self, item: Item) -> Result<Items, Memory>
        ensures more { IfOk result (λ items. items ≡ self ++ item ∷ []) }
    {
        self.items.push(item)?;
        Ok(self)
    }
}

impl Settings {
    /// No setting yet.
    pub fn new(alloc: Global) -> Settings
        ensures empty { result ≡ [] }
    {
        Settings {
            settings: Vec::new(alloc),
        }
    }

    /// One setting more.
    pub fn with(mut self, setting: Setting) -> Result<Settings, Memory>
        ensures more { IfOk result (λ settings. settings ≡ self ++ setting ∷ []) }
    {
        self.settings.push(setting)?;
        Ok(self)
    }
}

impl Atoms {
    /// No element yet.
    pub fn new(alloc: Global) -> Atoms
        ensures empty { result ≡ [] }
    {
        Atoms {
            atoms: Vec::new(alloc),
        }
    }

    /// One element more, where there is room.
    pub fn with(mut self, atom: Atom) -> Result<Atoms, Memory>
        requires room { length self < most_elements }
        ensures more { IfOk result (λ atoms. atoms ≡ self ++ atom ∷ []) }
    {
        self.atoms.push(atom)?;
        Ok(self)
    }
}

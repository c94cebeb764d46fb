//! The groups of a text, and which keys they have.
ghost use Rattle.std.specs.Prelude.{◌≡◌, IfSome, MatchOption, false, map, true};
ghost use Rattle.params_check.specs.Lemmas.Groups.{group_name, keys_of};
ghost use Rattle.params_check.specs.Keys.{is_among};
ghost use Rattle.params_check.specs.Lemmas.Tables.{entry};
ghost use Rattle.params_check.specs.Walks.{group_names, has_key};

use crate::entries::Key;
use crate::keys::{criterion_keys, field_keys, mesh_keys, method_keys, output_keys, shape_keys};
use crate::lookup::spells;
use cello_num::Name;

/// The groups that a text may have.
#[derive(Debug, Clone, Copy, PartialEq, Eq)]
pub(crate) enum GroupKind {
    Mesh,
    Field,
    Initial,
    Adapt,
    Method,
    Output,
}

/// The group of a name.
#[tactic(auto, unfolding(crate::specs::Walks::group_names))]
pub(crate) fn group_kind(name: &Name) -> Option<GroupKind>
    ensures known { MatchOption result (is_among group_names name.now ≡ false) (λ kind. is_among group_names name.now ≡ true) }
    ensures kind { IfSome result (λ kind. name.now ≡ group_name kind) }
{
    if spells(b"Mesh", name) {
        Some(GroupKind::Mesh)
    } else if spells(b"Field", name) {
        Some(GroupKind::Field)
    } else if spells(b"Initial", name) {
        Some(GroupKind::Initial)
    } else if spells(b"Adapt", name) {
        Some(GroupKind::Adapt)
    } else if spells(b"Method", name) {
        Some(GroupKind::Method)
    } else if spells(b"Output", name) {
        Some(GroupKind::Output)
    } else {
        None
    }
}

/// The keys of a group, or of its subs.
fn keys_of(kind: GroupKind) -> &'static [Key]
    ensures keys { map entry result.now ≡ keys_of kind }
{
    match kind {
        GroupKind::Mesh => mesh_keys(),
        GroupKind::Field => field_keys(),
        GroupKind::Initial => shape_keys(),
        GroupKind::Adapt => criterion_keys(),
        GroupKind::Method => method_keys(),
        GroupKind::Output => output_keys(),
    }
}

/// Whether a group, or a sub of it, has a key of this name.
pub(crate) fn has_key(kind: GroupKind, name: &Name) -> bool
    ensures key { result ≡ has_key (keys_of kind) name.now }
{
    stands_among(keys_of(kind), name)
}

/// Whether a key of this name stands among some.
fn stands_among(keys: &[Key], name: &Name) -> bool
    ensures key { result ≡ has_key (map entry keys.now) name.now }
{
    for key in keys {
        if spells(key.name, name) {
            return true;
        }
    }
    false
}

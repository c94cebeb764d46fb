//! The first walk: each group, sub and key has a name that is known, once.
ghost use Rattle.std.specs.Prelude.{◌≡◌, []};
ghost use Rattle.std.specs.List.{list_any};
ghost use Rattle.std.specs.Result.{result_err};
ghost use Rattle.params_check.specs.Lemmas.Firsts.{first_fault};
ghost use Rattle.params_check.specs.Lemmas.Groups.{keys_of, kind_faults};
ghost use Rattle.params_check.specs.Values.{same};
ghost use Rattle.params_check.specs.Walks.{fault, group_faults, group_of_subs_faults, item_name, plain_faults, plain_item_faults, sub_faults, sub_setting_faults, in_turn};

use crate::bounds::MOST_SUBS;
use crate::fault::{ParamFault, ParamKind};
use crate::group_kind::{GroupKind, group_kind, has_key};
use crate::lookup::same;
use crate::place::{Place, name};
use cello_num::Name;
use params_syntax::{Group, Item, Setting};

/// The first walk over all groups.
pub(crate) fn walk_names(groups: &[Group]) -> Result<(), ParamFault>
    ensures fault { first_fault (in_turn group_faults [] groups.now) ≡ result_err result }
{
    for (i, group) in groups.iter().enumerate() {
        walk_group(&groups[..i], group)?;
    }
    Ok(())
}

/// The first walk over a group, where others stand before it.
#[tactic(auto, using(crate::proofs::KindFaults::items_faults_kind))]
fn walk_group(before: &[Group], group: &Group) -> Result<(), ParamFault>
    ensures fault { first_fault (group_faults before.now group.now) ≡ result_err result }
{
    let Some(kind) = group_kind(&group.name) else {
        return Err(group_fault(&group.name, ParamKind::Unknown));
    };
    if group_stands(before, &group.name) {
        return Err(group_fault(&group.name, ParamKind::Repeated));
    }
    walk_items(&group.name, kind, group.items.items())
}

/// Whether a group of this name stands among these.
fn group_stands(groups: &[Group], name: &Name) -> bool
    ensures any { result ≡ list_any (λ other. same other.name name.now) groups.now }
{
    groups.iter().any(|other| same(&other.name, name.bytes()))
}

/// A fault of a group.
fn group_fault(group: &Name, kind: ParamKind) -> ParamFault
    ensures fault { result ≡ fault group.now [] [] kind }
{
    ParamFault {
        group: *group,
        sub: name(b""),
        key: name(b""),
        kind,
    }
}

/// The first walk over the items of a group.
fn walk_items(group: &Name, kind: GroupKind, items: &[Item]) -> Result<(), ParamFault>
    ensures fault { first_fault (kind_faults group.now kind items.now) ≡ result_err result }
{
    match kind {
        GroupKind::Initial | GroupKind::Adapt => walk_subs(group, kind, items),
        _ => walk_plain_items(group, kind, items),
    }
}

/// The first walk over a group of settings.
fn walk_plain_items(group: &Name, kind: GroupKind, items: &[Item]) -> Result<(), ParamFault>
    ensures fault { first_fault (plain_faults group.now (keys_of kind) items.now) ≡ result_err result }
{
    for (i, item) in items.iter().enumerate() {
        walk_plain_item(group, kind, &items[..i], item)?;
    }
    Ok(())
}

/// The first walk over an item of a group of settings.
fn walk_plain_item(
    group: &Name,
    kind: GroupKind,
    before: &[Item],
    item: &Item,
) -> Result<(), ParamFault>
    ensures fault { first_fault (plain_item_faults group.now (keys_of kind) before.now item.now) ≡ result_err result }
{
    let Item::Set(setting) = item else {
        return Err(key_fault(group, item_name(item), ParamKind::WrongForm));
    };
    if !has_key(kind, &setting.name) {
        return Err(key_fault(group, &setting.name, ParamKind::Unknown));
    }
    if item_stands(before, &setting.name) {
        return Err(key_fault(group, &setting.name, ParamKind::Repeated));
    }
    Ok(())
}

/// A fault of a key of a group.
fn key_fault(group: &Name, key: &Name, kind: ParamKind) -> ParamFault
    ensures fault { result ≡ fault group.now [] key.now kind }
{
    ParamFault {
        group: *group,
        sub: name(b""),
        key: *key,
        kind,
    }
}

/// The name of an item.
fn item_name(item: &Item) -> &Name
    ensures name { result.now ≡ item_name item.now }
{
    match item {
        Item::Set(setting) => &setting.name,
        Item::Sub { name, .. } => name,
    }
}

/// Whether an item of this name stands among these.
fn item_stands(items: &[Item], name: &Name) -> bool
    ensures any { result ≡ list_any (λ item. same (item_name item) name.now) items.now }
{
    items.iter().any(|item| same(item_name(item), name.bytes()))
}

/// The first walk over a group of subs.
fn walk_subs(group: &Name, kind: GroupKind, items: &[Item]) -> Result<(), ParamFault>
    ensures fault { first_fault (group_of_subs_faults group.now (keys_of kind) items.now) ≡ result_err result }
{
    for (i, item) in items.iter().enumerate() {
        walk_sub(group, kind, &items[..i], item)?;
    }
    Ok(())
}

/// The first walk over an item of a group of subs.
fn walk_sub(group: &Name, kind: GroupKind, before: &[Item], item: &Item) -> Result<(), ParamFault>
    ensures fault { first_fault (sub_faults group.now (keys_of kind) before.now item.now) ≡ result_err result }
{
    let Item::Sub { name, sets } = item else {
        return Err(key_fault(group, item_name(item), ParamKind::WrongForm));
    };
    if item_stands(before, name) {
        return Err(sub_fault(group, name, ParamKind::Repeated));
    }
    if before.len() >= MOST_SUBS {
        return Err(sub_fault(group, name, ParamKind::OutOfRange));
    }
    walk_settings(group, name, kind, sets.items())
}

/// A fault of a sub.
fn sub_fault(group: &Name, sub: &Name, kind: ParamKind) -> ParamFault
    ensures fault { result ≡ fault group.now sub.now [] kind }
{
    ParamFault {
        group: *group,
        sub: *sub,
        key: name(b""),
        kind,
    }
}

/// The first walk over the settings of a sub.
fn walk_settings(
    group: &Name,
    sub: &Name,
    kind: GroupKind,
    sets: &[Setting],
) -> Result<(), ParamFault>
    ensures fault { first_fault (in_turn (sub_setting_faults group.now sub.now (keys_of kind)) [] sets.now) ≡ result_err result }
{
    for (i, setting) in sets.iter().enumerate() {
        walk_setting(group, sub, kind, &sets[..i], setting)?;
    }
    Ok(())
}

/// The first walk over a setting of a sub.
fn walk_setting(
    group: &Name,
    sub: &Name,
    kind: GroupKind,
    before: &[Setting],
    setting: &Setting,
) -> Result<(), ParamFault>
    ensures fault { first_fault (sub_setting_faults group.now sub.now (keys_of kind) before.now setting.now) ≡ result_err result }
{
    if !has_key(kind, &setting.name) {
        return Err(setting_fault(group, sub, setting, ParamKind::Unknown));
    }
    if setting_stands(before, &setting.name) {
        return Err(setting_fault(group, sub, setting, ParamKind::Repeated));
    }
    Ok(())
}

/// Whether a setting of this name stands among these.
fn setting_stands(sets: &[Setting], name: &Name) -> bool
    ensures any { result ≡ list_any (λ other. same other.name name.now) sets.now }
{
    sets.iter().any(|other| same(&other.name, name.bytes()))
}

/// A fault of a setting of a sub.
fn setting_fault(group: &Name, sub: &Name, setting: &Setting, kind: ParamKind) -> ParamFault
    ensures fault { result ≡ fault group.now sub.now setting.now.name kind }
{
    ParamFault {
        group: *group,
        sub: *sub,
        key: setting.name,
        kind,
    }
}

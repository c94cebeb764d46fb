//! The second walk over the keys of a group or a sub.
ghost use Rattle.std.specs.Prelude.{◌≡◌, ◌≤◌, All, IfOk, is_none, length, map, option_copied};
ghost use Rattle.std.specs.Result.{result_err};
ghost use Rattle.params_check.specs.Forms.{is_had};
ghost use Rattle.params_check.specs.Lemmas.Firsts.{Finds, first_fault};
ghost use Rattle.params_check.specs.Lemmas.Slots.{given, settings_in};
ghost use Rattle.params_check.specs.Lemmas.Tables.{default_of, entry};
ghost use Rattle.params_check.specs.TreeValues.{value_at};
ghost use Rattle.params_check.specs.Walks.{key_faults, keys_faults};

use crate::atoms::is_among;
use crate::entries::{Fallback, Key};
use crate::fault::{CheckError, ParamFault, ParamKind};
use crate::forms::{has_form, is_in_range};
use crate::lookup::Lines;
use crate::place::{Place, name};
use crate::slots::Slot;
use cello_num::Name;
use params_syntax::Value;
use std::alloc::Global;

/// Whether subs of a kind have a key.
fn is_had(key: &Key, kind: &[u8]) -> bool
    ensures had { result ≡ is_had (entry key.now) kind.now }
{
    key.kinds.is_empty() || is_among(key.kinds, kind)
}

/// Whether a key may not be left out.
fn is_required(key: &Key) -> bool
    ensures required { result ≡ is_none (default_of key.now.fallback) }
{
    matches!(key.fallback, Fallback::Required)
}

/// The second walk over a key, whose value is there or not.
fn walk_key(
    place: &Place,
    key: &Key,
    value: Option<&Value>,
    kind: &[u8],
    names: &[Name],
) -> Result<(), ParamFault>
    requires short { length key.now.name.now ≤ 32 }
    ensures fault { first_fault (key_faults place.now.group place.now.sub names.now kind.now (entry key.now) (option_copied value.entry)) ≡ result_err result }
{
    let had = is_had(key, kind);
    let Some(value) = value else {
        if is_required(key) && had {
            return Err(place.fault(name(key.name), ParamKind::Missing));
        }
        return Ok(());
    };
    if !had {
        return Err(place.fault(name(key.name), ParamKind::Unknown));
    }
    if !has_form(key.wanted, value) {
        return Err(place.fault(name(key.name), ParamKind::WrongForm));
    }
    if !is_in_range(key.wanted, value, kind, names) {
        return Err(place.fault(name(key.name), ParamKind::OutOfRange));
    }
    Ok(())
}

/// The slots of these keys, or the first fault that the second walk meets among them.
pub(crate) fn walk_keys<'a>(
    alloc: Global,
    place: &Place,
    keys: &[Key],
    lines: &Lines<'a>,
    kind: &[u8],
    names: &[Name],
) -> Result<Vec<Slot<'a>>, CheckError>
    requires short { All (λ key. length key.name.now ≤ 32) keys.now }
    ensures fault { Finds (keys_faults place.now.group place.now.sub names.now kind.now (settings_in lines.now) (map entry keys.now)) result }
    ensures length { IfOk result (λ slots. length slots.items ≡ length keys.now) }
    ensures slots { IfOk result (λ slots. map given slots.items ≡ map (λ k. value_at k (settings_in lines.now)) (map entry keys.now)) }
{
    let mut slots = Vec::new(alloc);
    for key in keys {
        let value = lines.value_of(key.name);
        walk_key(place, key, value, kind, names)?;
        slots.push(Slot {
            value,
            fallback: key.fallback,
        })?;
    }
    Ok(slots)
}

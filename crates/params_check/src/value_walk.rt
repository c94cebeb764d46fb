//! The second walk: the values of all keys, in the order of the table.
ghost use Rattle.std.specs.Prelude.{◌≡◌, ◌≤◌, [], All, IfOk, codes, length, map};
ghost use Rattle.params_syntax.specs.Canonical.{canonical_text};
ghost use Rattle.params_check.specs.Keys.{field_keys};
ghost use Rattle.params_check.specs.Lemmas.Firsts.{Finds};
ghost use Rattle.params_check.specs.Lemmas.Slots.{AreSlots};
ghost use Rattle.params_check.specs.Lemmas.Tables.{entry};
ghost use Rattle.params_check.specs.Parameters.{values_of};
ghost use Rattle.params_check.specs.TreeValues.{fields_of, settings_of};
ghost use Rattle.params_check.specs.Walks.{first_walk, keys_faults, second_walk};

use crate::criterion_walk::walk_criteria;
use crate::entries::Key;
use crate::fault::CheckError;
use crate::field_names::Names;
use crate::key_walk::walk_keys;
use crate::keys::{field_keys, mesh_keys, method_keys, output_keys};
use crate::lookup::{Lines, items_of};
use crate::params::{Values, read_values};
use crate::place::Place;
use crate::shape_walk::walk_shapes;
use crate::slots::{Slot, names_in};
use params_syntax::Group;
use std::alloc::Global;

/// The slots of a group of settings, or its first fault in the second walk.
fn walk_group<'a>(
    alloc: Global,
    groups: &'a [Group],
    group: &[u8],
    keys: &[Key],
) -> Result<Vec<Slot<'a>>, CheckError>
    requires name { length group.now ≤ 32 }
    requires short { All (λ key. length key.name.now ≤ 32) keys.now }
    ensures fault { Finds (keys_faults group.now [] [] [] (settings_of group.now groups.now) (map entry keys.now)) result }
    ensures length { IfOk result (λ slots. length slots.items ≡ length keys.now) }
    ensures slots { IfOk result (λ slots. AreSlots (map entry keys.now) (settings_of group.now groups.now) slots.items) }
{
    let lines = Lines::Items(items_of(groups, group));
    let place = Place::of_group(group);
    walk_keys(alloc, &place, keys, &lines, &[], &[])
}

/// The names of the fields, or the first fault of the group `Field` in the second walk.
fn walk_fields(alloc: Global, groups: &[Group]) -> Result<Names, CheckError>
    ensures fault { Finds (keys_faults (codes "Field") [] [] [] (settings_of (codes "Field") groups.now) field_keys) result }
    ensures names { IfOk result (λ names. names ≡ fields_of groups.now) }
{
    walk_group(alloc, groups, b"Field", field_keys())?;
    let lines = Lines::Items(items_of(groups, b"Field"));
    let names = names_in(alloc, lines.value_of(b"names"))?;
    Ok(Names::of(names))
}

/// The values of groups in which the first walk found nothing, with their text, or the first fault of the second walk.
pub(crate) fn walk_values(
    alloc: Global,
    groups: &[Group],
    text: Vec<u8>,
) -> Result<Values, CheckError>
    requires named { first_walk groups.now ≡ [] }
    requires text { text.items ≡ canonical_text groups.now }
    ensures fault { Finds (second_walk groups.now) result }
    ensures values { IfOk result (λ values. values ≡ values_of groups.now) }
{
    let mesh = walk_group(alloc, groups, b"Mesh", mesh_keys())?;
    let fields = walk_fields(alloc, groups)?;
    let shapes = walk_shapes(alloc, items_of(groups, b"Initial"), fields.items())?;
    let criteria = walk_criteria(alloc, items_of(groups, b"Adapt"), fields.items())?;
    let method = walk_group(alloc, groups, b"Method", method_keys())?;
    let output = walk_group(alloc, groups, b"Output", output_keys())?;
    Ok(read_values(&mesh, &method, &output, fields, shapes, criteria, text))
}

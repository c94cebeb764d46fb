//! The second walk over the group `Initial`, whose subs are shapes.
ghost use Rattle.std.specs.Prelude.{◌≡◌, ◌≤◌, IfOk, codes, length, map};
ghost use Rattle.params_check.specs.Keys.{shape_kind, shape_keys};
ghost use Rattle.params_check.specs.Lemmas.Firsts.{Finds};
ghost use Rattle.params_check.specs.Lemmas.Slots.{given};
ghost use Rattle.params_check.specs.Limits.{KeepsForm};
ghost use Rattle.params_check.specs.TreeValues.{form_of, shape_of, word_at};
ghost use Rattle.params_check.specs.Values.{subs_among};
ghost use Rattle.params_check.specs.Walks.{keys_faults, subs_faults};

use crate::fault::CheckError;
use crate::key_walk::walk_keys;
use crate::keys::shape_keys;
use crate::lookup::{Lines, position_of};
use crate::place::{Place, name};
use crate::shape::{Form, Shape, Shapes};
use crate::slots::Slot;
use cello_num::Name;
use params_syntax::{Item, Setting};
use std::alloc::Global;

/// The form of a kind of shape.
fn form(kind: &[u8], low: &Slot, high: &Slot, center: &Slot, radius: &Slot) -> Form
    requires keeps { KeepsForm (form_of kind.now (given low.now) (given high.now) (given center.now) (given radius.now)) }
    ensures form { result ≡ form_of kind.now (given low.now) (given high.now) (given center.now) (given radius.now) }
{
    if kind == b"ball".as_slice() {
        Form::Ball {
            center: center.three_sizes(),
            radius: radius.number() as u16,
        }
    } else {
        Form::Cuboid {
            low: low.three_sizes(),
            high: high.three_sizes(),
        }
    }
}

/// The shape of a sub, or its first fault in the second walk.
fn walk_shape(
    alloc: Global,
    sub: &Name,
    sets: &[Setting],
    names: &[Name],
) -> Result<Shape, CheckError>
    requires few { length names.now ≤ 4 }
    ensures fault { Finds (keys_faults (codes "Initial") sub.now names.now (word_at shape_kind sets.now) sets.now shape_keys) result }
    ensures value { IfOk result (λ shape. shape ≡ shape_of names.now (record { name = sub.now; sets = sets.now })) }
{
    let place = Place {
        group: name(b"Initial"),
        sub: *sub,
    };
    let lines = Lines::Settings(sets);
    let kind = lines.word_of(b"shape");
    let slots = walk_keys(alloc, &place, shape_keys(), &lines, kind, names)?;
    let [_, field, low, high, center, radius, amount] = slots.as_slice() else {
        unreachable!()
    };
    Ok(Shape {
        field: position_of(names, field.word()),
        amount: amount.number(),
        form: form(kind, low, high, center, radius),
    })
}

/// The shapes of the subs of `Initial` in order, or the first fault of their keys.
fn shapes(alloc: Global, items: &[Item], names: &[Name]) -> Result<Vec<Shape>, CheckError>
    requires few { length names.now ≤ 4 }
    ensures fault { Finds (subs_faults (codes "Initial") names.now shape_kind shape_keys (subs_among items.now)) result }
    ensures value { IfOk result (λ shapes. shapes.items ≡ map (shape_of names.now) (subs_among items.now)) }
{
    let mut shapes = Vec::new(alloc);
    for item in items {
        match item {
            Item::Set(_) => {}
            Item::Sub { name, sets } => {
                shapes.push(walk_shape(alloc, name, sets.items(), names)?)?;
            }
        }
    }
    Ok(shapes)
}

/// The shapes of the group `Initial`, or its first fault in the second walk.
pub(crate) fn walk_shapes(
    alloc: Global,
    items: &[Item],
    names: &[Name],
) -> Result<Shapes, CheckError>
    requires few { length items.now ≤ 16 }
    requires few_names { length names.now ≤ 4 }
    ensures fault { Finds (subs_faults (codes "Initial") names.now shape_kind shape_keys (subs_among items.now)) result }
    ensures shapes { IfOk result (λ shapes. shapes ≡ map (shape_of names.now) (subs_among items.now)) }
{
    let found = shapes(alloc, items, names)?;
    Ok(Shapes::of(found))
}

//! The second walk over the group `Adapt`, whose subs are criteria.
ghost use Rattle.std.specs.Prelude.{◌≡◌, ℕ, ◌≤◌, IfOk, codes, length, map};
ghost use Rattle.params_check.specs.Keys.{criterion_kind, criterion_keys};
ghost use Rattle.params_check.specs.Lemmas.Firsts.{Finds};
ghost use Rattle.params_check.specs.Lemmas.Slots.{given};
ghost use Rattle.params_check.specs.Limits.{KeepsTest};
ghost use Rattle.params_check.specs.TreeValues.{criterion_of, sampling_test, test_of, word_at};
ghost use Rattle.params_check.specs.Values.{subs_among};
ghost use Rattle.params_check.specs.Walks.{keys_faults, subs_faults};

use crate::criterion::{Criteria, Criterion, Test};
use crate::fault::CheckError;
use crate::key_walk::walk_keys;
use crate::keys::criterion_keys;
use crate::lookup::{Lines, position_of};
use crate::place::{Place, name};
use crate::slots::Slot;
use cello_num::Name;
use params_syntax::{Item, Setting};
use std::alloc::Global;

/// A test of a kind that looks at a field.
fn sampling_test(kind: &[u8], field: u8, refine: u64, coarsen: u64) -> Test
    ensures test { result ≡ sampling_test kind.now field refine coarsen }
{
    if kind == b"mass".as_slice() {
        Test::Mass {
            field,
            refine,
            coarsen,
        }
    } else if kind == b"slope".as_slice() {
        Test::Slope {
            field,
            refine,
            coarsen,
        }
    } else {
        Test::Contrast {
            field,
            refine,
            coarsen,
        }
    }
}

/// The test of a kind of criterion.
fn test(
    names: &[Name],
    kind: &[u8],
    field: &Slot,
    low: &Slot,
    high: &Slot,
    level: &Slot,
    refine: &Slot,
    coarsen: &Slot,
) -> Test
    requires few { length names.now ≤ 4 }
    requires keeps { (fields : ℕ) × KeepsTest fields (test_of names.now kind.now (given field.now) (given low.now) (given high.now) (given level.now) (given refine.now) (given coarsen.now)) }
    ensures test { result ≡ test_of names.now kind.now (given field.now) (given low.now) (given high.now) (given level.now) (given refine.now) (given coarsen.now) }
{
    if kind == b"box".as_slice() {
        return Test::Region {
            low: low.three_sizes(),
            high: high.three_sizes(),
            level: level.number() as u8,
        };
    }
    let field = position_of(names, field.word());
    sampling_test(kind, field, refine.number(), coarsen.number())
}

/// The criterion of a sub, or its first fault in the second walk.
fn walk_criterion(
    alloc: Global,
    sub: &Name,
    sets: &[Setting],
    names: &[Name],
) -> Result<Criterion, CheckError>
    requires few { length names.now ≤ 4 }
    ensures fault { Finds (keys_faults (codes "Adapt") sub.now names.now (word_at criterion_kind sets.now) sets.now criterion_keys) result }
    ensures value { IfOk result (λ criterion. criterion ≡ criterion_of names.now (record { name = sub.now; sets = sets.now })) }
{
    let place = Place {
        group: name(b"Adapt"),
        sub: *sub,
    };
    let lines = Lines::Settings(sets);
    let kind = lines.word_of(b"type");
    let slots = walk_keys(alloc, &place, criterion_keys(), &lines, kind, names)?;
    let [_, until, field, low, high, level, refine, coarsen] = slots.as_slice() else {
        unreachable!()
    };
    Ok(Criterion {
        until: until.number() as u32,
        test: test(names, kind, field, low, high, level, refine, coarsen),
    })
}

/// The criteria of the subs of `Adapt` in order, or the first fault of their keys.
fn criteria(alloc: Global, items: &[Item], names: &[Name]) -> Result<Vec<Criterion>, CheckError>
    requires few { length names.now ≤ 4 }
    ensures fault { Finds (subs_faults (codes "Adapt") names.now criterion_kind criterion_keys (subs_among items.now)) result }
    ensures value { IfOk result (λ criteria. criteria.items ≡ map (criterion_of names.now) (subs_among items.now)) }
{
    let mut criteria = Vec::new(alloc);
    for item in items {
        match item {
            Item::Set(_) => {}
            Item::Sub { name, sets } => {
                criteria.push(walk_criterion(alloc, name, sets.items(), names)?)?;
            }
        }
    }
    Ok(criteria)
}

/// The criteria of the group `Adapt`, or its first fault in the second walk.
pub(crate) fn walk_criteria(
    alloc: Global,
    items: &[Item],
    names: &[Name],
) -> Result<Criteria, CheckError>
    requires few { length items.now ≤ 16 }
    requires few_names { length names.now ≤ 4 }
    ensures fault { Finds (subs_faults (codes "Adapt") names.now criterion_kind criterion_keys (subs_among items.now)) result }
    ensures criteria { IfOk result (λ criteria. criteria ≡ map (criterion_of names.now) (subs_among items.now)) }
{
    let found = criteria(alloc, items, names)?;
    Ok(Criteria::of(found))
}

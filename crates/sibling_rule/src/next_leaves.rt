//! The leaves that decided levels lead to: how many, and the next mesh.

ghost use Rattle.std.specs.Prelude.{◌≡◌, ◌++◌, ◌<◌, ◌≤◌, [], ◌∷◌, ◌==◌, if◌then◌else◌, IfOk, OnOk, length};
ghost use Rattle.block_index.specs.Places.{deepest, child_number, parent_of};
ghost use Rattle.leaf_set.specs.NextMesh.{children_of, leaves_after, next_mesh};
ghost use Rattle.sibling_rule.specs.Decided.{IsDecided};

use block_index::Place;
use cello_num::Memory;
use leaf_set::LeafSet;
use std::alloc::Global;
use std::cmp::Ordering;

/// How many leaves the next mesh has.
pub fn count_after(set: &LeafSet, levels: &[u8]) -> u32
    requires decided { IsDecided set.now.grid set.now.places levels.now }
    ensures count { result ≡ length (next_mesh set.now.places levels.now) }
{
    let mut count = 0;
    for i in 0..set.len() {
        count += leaf_count_after(set.place(i), levels[i]);
    }
    count
}

/// The leaf set of the next mesh: the eight children of each leaf whose level rises, each leaf whose level stays, and
/// the parent of each family whose level falls.
pub fn decide(alloc: Global, set: &LeafSet, levels: &[u8]) -> Result<LeafSet, Memory>
    requires decided { IsDecided set.now.grid set.now.places levels.now }
    ensures grid { IfOk result (λ next. next.grid ≡ set.now.grid) }
    ensures places { IfOk result (λ next. next.places ≡ next_mesh set.now.places levels.now) }
{
    let mut places = Vec::with_capacity(alloc, count_after(set, levels) as usize)?;
    for i in 0..set.len() {
        push_leaves_after(&mut places, set.place(i), levels[i])?;
    }
    LeafSet::of(alloc, *set.domain(), places)
}

/// How many leaves one leaf leaves at its new level. A family that joins is counted at its first child.
fn leaf_count_after(leaf: Place, level: u8) -> u32
    ensures value { result ≡ length (leaves_after leaf level) }
    ensures few { result ≤ 8 }
{
    match level.cmp(&leaf.level()) {
        Ordering::Greater => 8,
        Ordering::Equal => 1,
        Ordering::Less if leaf.child_number() == 0 => 1,
        Ordering::Less => 0,
    }
}

/// Appends what one leaf leaves at its new level.
fn push_leaves_after(places: &mut Vec<Place>, leaf: Place, level: u8) -> Result<(), Memory>
    requires { leaf.level < level → leaf.level < deepest }
    ensures { OnOk result (places.new.items ≡ places.old.items ++ leaves_after leaf level) }
{
    match level.cmp(&leaf.level()) {
        Ordering::Greater => push_children(places, leaf)?,
        Ordering::Equal => places.push(leaf)?,
        Ordering::Less => push_parent(places, leaf)?,
    }
    Ok(())
}

/// Appends the eight children of a leaf in order.
fn push_children(places: &mut Vec<Place>, leaf: Place) -> Result<(), Memory>
    requires { leaf.level < deepest }
    ensures { OnOk result (places.new.items ≡ places.old.items ++ children_of leaf) }
{
    for k in 0..8 {
        places.push(leaf.child(k))?;
    }
    Ok(())
}

/// Appends the parent of a first child, and nothing for another child.
fn push_parent(places: &mut Vec<Place>, leaf: Place) -> Result<(), Memory>
    requires { 1 ≤ leaf.level }
    ensures { OnOk result (places.new.items ≡ places.old.items ++ (if child_number leaf == 0 then parent_of leaf ∷ [] else [])) }
{
    if leaf.child_number() == 0 {
        if let Some(parent) = leaf.parent() {
            places.push(parent)?;
        }
    }
    Ok(())
}

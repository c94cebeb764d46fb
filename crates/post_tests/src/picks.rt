//! Deliveries in an order that a small generator picks.
use crate::meshes::{ONE_TREE, mesh, wishes};
use adapt_core::Adapt;
use block_index::Wish;
use leaf_set::LeafSet;
use phase_core::deliver;
use std::alloc::Global;

/// The levels of fifteen leaves that all touch, of which the first wishes to refine, as the rules lead to them.
const LEVELS: &[u8] = &[2, 2, 2, 2, 2, 2, 2, 2, 1, 1, 1, 1, 1, 1, 1];

/// The state of the generator after this one (a linear congruence).
fn next_state(state: u32) -> u32 {
    state.wrapping_mul(1664525).wrapping_add(1013904223)
}

/// A list of picks, as many as an adapt phase of fifteen leaves handles messages at most.
fn picks(alloc: Global, state: &mut u32) -> Option<Vec<u32>> {
    let mut picks = Vec::new(alloc);
    for _ in 0..645 {
        *state = next_state(*state);
        picks.push(*state >> 8).ok()?;
    }
    Some(picks)
}

/// The levels after deliveries by these picks, where nothing is in flight then.
fn delivered_levels(alloc: Global, set: &LeafSet, first: Wish, picks: &[u32]) -> Option<Vec<u8>> {
    let wishes = wishes(alloc, first, set.len()).ok()?;
    let (phase, cells) = Adapt::begin(alloc, set, &wishes).ok()?;
    let delivered = deliver(alloc, phase, cells, picks).ok()?;
    if !delivered.flight.is_empty() {
        return None;
    }
    let mut levels = Vec::new(alloc);
    for cell in delivered.cells.iter() {
        levels.push(cell.level()).ok()?;
    }
    Some(levels)
}

/// Whether so many lists of picks all lead to the same levels.
fn orders_agree(alloc: Global, lists: u32) -> Option<bool> {
    let set = mesh(alloc, 1, true, 2, ONE_TREE)?;
    let mut state = 1;
    for _ in 0..lists {
        let picks = picks(alloc, &mut state)?;
        let levels = delivered_levels(alloc, &set, Wish::Refine, &picks)?;
        if levels.as_slice() != LEVELS {
            return Some(false);
        }
    }
    Some(true)
}

#[test]
fn two_hundred_orders_lead_to_the_same_levels(rt: HostRuntime) {
    assert!(rt; orders_agree(rt.alloc(), 200) == Some(true));
}

/// Whether one pick brings a lone leaf to rest, at level 0.
fn one_pick_is_enough(alloc: Global) -> Option<bool> {
    let set = mesh(alloc, 1, false, 0, b"0000")?;
    let levels = delivered_levels(alloc, &set, Wish::Stay, &[7])?;
    Some(levels.as_slice() == [0].as_slice())
}

#[test]
fn a_pick_is_counted_round(rt: HostRuntime) {
    assert!(rt; one_pick_is_enough(rt.alloc()) == Some(true));
}

//! Workers in threads of their own come to the levels of one thread.
ghost use Rattle.std.specs.Prelude.{◌≤◌};

use crate::meshes::{EIGHT_TREES, mesh, wishes};
use adapt_core::{Adapt, levels};
use block_index::Wish;
use cello_io::OpenGate;
use cello_num::Memory;
use leaf_set::LeafSet;
use phase_core::drive;
use shard_map::assign;
use shared_phase::serve;
use std::alloc::Global;
use std::sync::Wait;
use std::thread::Threads;

/// The levels that one thread comes to.
fn driven_levels(alloc: Global, set: &LeafSet) -> Result<Vec<u8>, Memory> {
    let wishes = wishes(alloc, Wish::Refine, set.len())?;
    let (phase, cells) = Adapt::begin(alloc, set, &wishes)?;
    let quiet = drive(alloc, phase, cells)?;
    levels(alloc, &quiet)
}

/// Whether so many workers come to these levels, by at least a message for each leaf.
fn come_to<R: Threads + Wait + Sync>(
    rt: &R,
    alloc: Global,
    set: &LeafSet,
    workers: u32,
    wanted: &[u8],
) -> Result<bool, Memory>
    requires counts { (1 ≤ workers) × (workers ≤ 16) }
{
    let wishes = wishes(alloc, Wish::Refine, set.len())?;
    let (phase, cells) = Adapt::begin(alloc, set, &wishes)?;
    let owners = assign(alloc, set, 8)?;
    let quiet = serve(rt, alloc, phase, cells, &owners, 8, workers, &OpenGate)?;
    let levels = levels(alloc, &quiet)?;
    Ok(levels.as_slice() == wanted && quiet.handled() >= 15 && quiet.handled() <= 645)
}

/// Whether so many workers come to the levels of one thread, each time.
fn workers_agree<R: Threads + Wait + Sync>(rt: &R, alloc: Global, workers: u32) -> Option<bool>
    requires counts { (1 ≤ workers) × (workers ≤ 16) }
{
    let set = mesh(alloc, 2, true, 2, EIGHT_TREES)?;
    let wanted = driven_levels(alloc, &set).ok()?;
    for _ in 0..200 {
        if !come_to(rt, alloc, &set, workers, &wanted).ok()? {
            return Some(false);
        }
    }
    Some(true)
}

#[test]
fn two_workers_agree_with_one_thread(rt: HostRuntime) {
    assert!(rt; workers_agree(&rt, rt.alloc(), 2) == Some(true));
}

#[test]
fn four_workers_agree_with_one_thread(rt: HostRuntime) {
    assert!(rt; workers_agree(&rt, rt.alloc(), 4) == Some(true));
}

#[test]
fn eight_workers_agree_with_one_thread(rt: HostRuntime) {
    assert!(rt; workers_agree(&rt, rt.alloc(), 8) == Some(true));
}

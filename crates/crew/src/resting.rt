//! Bringing a phase to its rest by workers.
ghost use Rattle.std.specs.Prelude.{◌≡◌, ◌≤◌, IfOk, length};
ghost use Rattle.adapt_core.specs.Problem.{AdaptBegins, problem_of};
ghost use Rattle.crew.specs.Counts.{CountsWithin};

use crate::owners::owners_of;
use adapt_core::{Adapt, AdaptCell, every_run_agrees};
use cello_io::Gate;
use cello_num::Memory;
use phase_core::{Phase, Quiet};
use shared_phase::serve;
use std::alloc::Global;
use std::sync::Wait;
use std::thread::Threads;

/// Brings a phase to its rest over a post, which has four shards for each worker, and no more than there are cells. Each
/// worker passes the gate before each visit of a shard. It may wait.
pub fn bring_to_rest<R: Threads + Wait + Sync, P: Phase + Sync, G: Gate + Sync>(
    rt: &R,
    alloc: Global,
    phase: P,
    cells: Vec<P::Cell>,
    workers: u32,
    gate: &G,
) -> Result<Quiet<P>, Memory>
where
    P::Cell: Send,
    P::Msg: Send,
    requires workers { (1 ≤ workers) × (workers ≤ 16) }
    requires begins { P.begins (P.problem phase cells.items) cells.items }
    ensures problem { IfOk result (λ quiet. quiet.problem ≡ P.problem phase cells.items) }
    ensures handles_each { IfOk result (λ quiet. length cells.items ≤ quiet.handled) }
    ensures bounded { IfOk result (λ quiet. quiet.handled ≤ P.start_weight (P.problem phase cells.items)) }
{
    let leaves = cells.len() as u32;
    let shards = leaves.min(4 * workers).max(1);
    let owners = owners_of(alloc, leaves, shards)?;
    serve(
        rt,
        alloc,
        phase,
        cells,
        owners.as_slice(),
        shards,
        workers,
        gate,
    )
}

/// Brings an adapt phase to its rest as `bring_to_rest` does, and tells how many messages were handled.
pub fn adapt_to_rest<R: Threads + Wait + Sync, G: Gate + Sync>(
    rt: &R,
    alloc: Global,
    phase: Adapt,
    cells: Vec<AdaptCell>,
    workers: u32,
    gate: &G,
) -> Result<Quiet<Adapt>, Memory>
    requires workers { (1 ≤ workers) × (workers ≤ 16) }
    requires begins { AdaptBegins (problem_of phase cells.items) cells.items }
    ensures problem { IfOk result (λ quiet. quiet.problem ≡ problem_of phase cells.items) }
    ensures counts { IfOk result (λ quiet. CountsWithin (problem_of phase cells.items) quiet.handled) }
{
    every_run_agrees();
    let quiet = bring_to_rest(rt, alloc, phase, cells, workers, gate)?;
    Ok(quiet)
}

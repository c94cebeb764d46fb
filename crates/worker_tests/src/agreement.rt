//! Workers answer as one thread does, whatever their number.
use crate::calls::{Called, by_one, by_workers, empty_shelf, shelf_with};
use cello_io::OpenGate;
use std::alloc::Global;
use std::sync::Wait;
use std::thread::Threads;

/// A slab in one of eight trees, which is refined. In four cycles the slab moves on by a cell, and two more trees are
/// refined.
const SLAB: &[u8] = b"Mesh { array = [2, 2, 2]; block = 4; max_level = 1; initial_rounds = 1; }
Field { names = [\"gas\"]; }
Initial { slab { shape = \"box\"; field = \"gas\"; low = [1, 1, 1]; high = [4, 4, 4]; amount = 1000; } }
Adapt { dense { type = \"mass\"; field = \"gas\"; refine = 400; coarsen = 20; } }
Method { velocity = [3, 2, 1]; den = 12; cycles = 4; }
Output { mesh = 4; fields = 4; checkpoint = 2; }
";

/// The files of cycle 0 and of cycle 4, a mesh, fields and a checkpoint each, and the checkpoint of cycle 2.
const FILES: usize = 7;

/// The checkpoint of cycle 2.
const HALF_WAY: &[u8] = b"state-0002.cello";

/// The files of cycle 4.
const LAST_FILES: usize = 3;

/// What `solo` comes to.
fn alone(alloc: Global) -> Option<Called> {
    by_one(alloc, "solo", SLAB, empty_shelf(alloc)?)
}

/// Whether this line, which asks for workers, comes to what `solo` comes to.
fn runs_alike<R: Threads + Wait + Sync>(rt: &R, alloc: Global, line: &str) -> Option<bool> {
    let workers = by_workers(rt, alloc, line, SLAB, empty_shelf(alloc)?, &OpenGate)?;
    let one = alone(alloc)?;
    Some(workers.agrees(&one, FILES))
}

/// Whether three workers go on from the middle as one thread does.
fn goes_on_alike<R: Threads + Wait + Sync>(rt: &R, alloc: Global) -> Option<bool> {
    let state = alone(alloc)?.file(alloc, HALF_WAY)?;
    let line = "restart state-0002.cello --workers 3 --until 4";
    let shelf = shelf_with(alloc, HALF_WAY, state.as_slice().to_vec(alloc).ok()?)?;
    let workers = by_workers(rt, alloc, line, b"", shelf, &OpenGate)?;
    let shelf = shelf_with(alloc, HALF_WAY, state)?;
    let one = by_one(alloc, "resume state-0002.cello --until 4", b"", shelf)?;
    Some(workers.agrees(&one, LAST_FILES))
}

#[test]
fn one_worker_runs_as_one_thread(rt: HostRuntime) {
    assert!(rt; runs_alike(&rt, rt.alloc(), "run --workers 1") == Some(true));
}

#[test]
fn three_workers_run_as_one_thread(rt: HostRuntime) {
    assert!(rt; runs_alike(&rt, rt.alloc(), "run --workers 3") == Some(true));
}

#[test]
fn sixteen_workers_run_as_one_thread(rt: HostRuntime) {
    assert!(rt; runs_alike(&rt, rt.alloc(), "run --workers 16") == Some(true));
}

#[test]
fn three_workers_go_on_as_one_thread(rt: HostRuntime) {
    assert!(rt; goes_on_alike(&rt, rt.alloc()) == Some(true));
}

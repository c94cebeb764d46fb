//! The messages of an adapt phase.

use crate::fault::Fault;
use crate::inputs::parameters;
use crate::stopwatch::{Best, RUNS};
use adapt_core::{Adapt, levels};
use block_index::Wish;
use leaf_set::LeafSet;
use phase_core::drive;
use std::time::Instant;

/// Measures the adapt phase of a cube of trees, of which every eighth wishes to refine.
pub fn bench_adapt(rt: &HostRuntime, trees: u64, block: u64) -> Result<(), Fault> {
    let alloc = rt.alloc();
    let params = parameters(alloc, trees, block, 0, 8192)?;
    let set = LeafSet::roots(alloc, *params.domain())?;
    let mut wishes = vec![in alloc; Wish::Coarsen; set.len()]?;
    for wish in wishes.iter_mut().step_by(8) {
        *wish = Wish::Refine;
    }
    let mut best = Best::new();
    let mut handled = 0;
    for _ in 0..RUNS {
        let start = Instant::now(rt)?;
        let (problem, cells) = Adapt::begin(alloc, &set, &wishes)?;
        let quiet = drive(alloc, problem, cells)?;
        let decided = levels(alloc, &quiet)?;
        best.note(start.elapsed(rt)?);
        handled = quiet.handled();
        drop(decided);
    }
    best.tell(rt, "adapt", handled, "messages")
}

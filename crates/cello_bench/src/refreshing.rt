//! The refresh phase, beside making, filling and filing all pieces without a phase.
ghost use Rattle.prolong_restrict.specs.Families.{FieldsFit};
ghost use Rattle.split_join.specs.Applying.{AreBlocksOfSet};

use crate::fault::Fault;
use crate::ghost_times::times_of;
use crate::inputs::{Grid, grid_of, parameters};
use crate::stopwatch::{Best, RUNS};
use cello_num::Memory;
use params_check::Params;
use phase_core::{Quiet, drive};
use refresh_phase::Refresh;
use std::alloc::Global;
use std::time::{Duration, Instant};

/// The phase over a grid, at rest.
fn refreshed(alloc: Global, grid: Grid) -> Result<Quiet<Refresh>, Memory>
    requires blocks { AreBlocksOfSet grid.set grid.blocks.items }
    requires few { FieldsFit grid.blocks.items }
{
    let Grid { set, blocks } = grid;
    let (phase, cells) = Refresh::begin(alloc, &set, blocks)?;
    drive(alloc, phase, cells)
}

/// How long a phase took, and how many messages were handled.
#[derive(Clone, Copy, Drop)]
struct Handled {
    took: Duration,
    messages: u64,
}

/// One refresh of a grid.
fn time_refresh(rt: &HostRuntime, params: &Params, refined: bool) -> Result<Handled, Fault> {
    let grid = grid_of(rt.alloc(), params, refined)?;
    let start = Instant::now(rt)?;
    let quiet = refreshed(rt.alloc(), grid)?;
    Ok(Handled {
        took: start.elapsed(rt)?,
        messages: quiet.handled(),
    })
}

/// One making, filling and filing of the pieces of a grid.
fn note_pieces(
    rt: &HostRuntime,
    params: &Params,
    refined: bool,
    best: &mut Best,
) -> Result<(), Fault> {
    let grid = grid_of(rt.alloc(), params, refined)?;
    let times = times_of(rt, grid)?;
    best.note_three(times.made, times.filled, times.filed);
    Ok(())
}

/// Measures the refresh phase of a cube of trees, or of the mesh after every eighth of them was refined.
pub fn bench_refresh(
    rt: &HostRuntime,
    refined: bool,
    trees: u64,
    block: u64,
    fields: u64,
) -> Result<(), Fault> {
    let most = trees.saturating_mul(trees).saturating_mul(trees);
    let params = parameters(rt.alloc(), trees, block, fields, most.saturating_mul(2))?;
    let mut phase = Best::new();
    let mut pieces = Best::new();
    let mut messages = 0;
    for _ in 0..RUNS {
        note_pieces(rt, &params, refined, &mut pieces)?;
        let handled = time_refresh(rt, &params, refined)?;
        phase.note(handled.took);
        messages = handled.messages;
    }
    phase.tell(rt, "refresh", messages, "messages")?;
    pieces.tell(rt, "pieces without a phase", messages, "messages")?;
    phase.compare(rt, "refresh to pieces without a phase", pieces)
}

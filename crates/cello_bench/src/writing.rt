//! Writing the file of fields to a sink that only counts, beside a plain copy of its amounts.
ghost use Rattle.std.specs.Prelude.{◌≡◌, ℕ, ◌<◌, ◌≤◌, None, length, take, IfOk, OnErr};
ghost use Rattle.std.specs.Io.KnownBytes.{append_known};
ghost use Rattle.cello_io.specs.Counts.{HasCause};
ghost use Rattle.split_join.specs.Applying.{AreBlocksOfSet};

use crate::fault::Fault;
use crate::inputs::{Grid, parameters, roots};
use crate::stopwatch::{Best, RUNS};
use block_fields::Block;
use cello_io::{Failed, Sink};
use mesh_output::write_fields;
use std::time::{Duration, Instant};

/// A sink that takes every piece, keeps none, counts their bytes, and looks at each word of them, so that what is
/// written must be made.
#[derive(Drop)]
struct CountingSink {
    bytes: u64,
    mixed: u8,
}

impl Sink for CountingSink {
    ghost Rest = { Unit {0} };

    ghost written = { λ sink. None };

    ghost rest = { λ sink. tt };

    ghost write_faults = { λ sink. 0 };

    fn write_piece(&mut self, piece: &[u8]) -> Result<usize, Failed> {
        self.bytes = self.bytes.wrapping_add(piece.len() as u64);
        for byte in piece {
            self.mixed ^= *byte;
        }
        Ok(piece.len())
    }
}

/// Copies the amounts of blocks into one list.
fn copy_amounts(blocks: &[Block], target: &mut [u64]) {
    let mut target = target;
    for block in blocks {
        for field in 0..block.fields() {
            let amounts = block.field(field);
            if amounts.len() <= target.len() {
                let (front, rest) = target.split_at_mut(amounts.len());
                front.copy_from_slice(amounts);
                target = rest;
            }
        }
    }
}

/// Writes the fields of a grid once, and tells how many bytes these are, and all of them mixed.
fn write_once(grid: &Grid) -> Result<(u64, u8), Failed>
    requires blocks { AreBlocksOfSet grid.now.set grid.now.blocks.items }
{
    let mut sink = CountingSink { bytes: 0, mixed: 0 };
    write_fields(0, &grid.set, &grid.blocks, &mut sink)?;
    Ok((sink.bytes, sink.mixed))
}

/// How long writing and a copy took, and how many bytes these were, and all of them mixed.
#[derive(Clone, Copy, Drop)]
struct Times {
    written: Duration,
    copied: Duration,
    bytes: u64,
    mixed: u8,
}

/// Writes the fields of a grid, and copies them.
fn times_of(rt: &HostRuntime, grid: &Grid) -> Result<Times, Fault>
    requires blocks { AreBlocksOfSet grid.now.set grid.now.blocks.items }
{
    let start = Instant::now(rt)?;
    let (bytes, mixed) = write_once(grid)?;
    let written = start.elapsed(rt)?;
    let mut target = vec![in rt.alloc(); 1u64; (bytes / 8) as usize]?;
    let start = Instant::now(rt)?;
    copy_amounts(&grid.blocks, &mut target);
    let copied = start.elapsed(rt)?;
    Ok(Times {
        written,
        copied,
        bytes,
        mixed,
    })
}

/// Measures `write_fields` for the roots of a cube of trees.
pub fn bench_write_fields(
    rt: &HostRuntime,
    trees: u64,
    block: u64,
    fields: u64,
) -> Result<(), Fault> {
    let most = trees.saturating_mul(trees).saturating_mul(trees);
    let params = parameters(rt.alloc(), trees, block, fields, most)?;
    let mut written = Best::new();
    let mut copied = Best::new();
    let mut bytes = 0;
    let mut mixed = 0;
    for _ in 0..RUNS {
        let grid = roots(rt.alloc(), &params)?;
        let times = times_of(rt, &grid)?;
        written.note(times.written);
        copied.note(times.copied);
        bytes = times.bytes;
        mixed ^= times.mixed;
    }
    println!(rt; "all bytes mixed: {mixed}")?;
    written.tell(rt, "write_fields", bytes, "bytes")?;
    copied.tell(rt, "a copy of as much", bytes, "bytes")?;
    written.compare(rt, "write_fields to a copy", copied)
}

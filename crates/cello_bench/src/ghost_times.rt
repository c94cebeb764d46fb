//! How long the ghost pieces of a mesh take, beside a plain copy of their amounts.
ghost use Rattle.std.specs.Prelude.{◌≡◌, ℕ, Some, IfOk, length, slice_get};
ghost use Rattle.prolong_restrict.specs.Families.{FieldsFit};
ghost use Rattle.split_join.specs.Applying.{AreBlocksOfSet};
ghost use Rattle.ghost_pieces.specs.Pieces.{PieceState, FitsSize};
ghost use Rattle.cello_bench.specs.Inputs.{AllFit};

use crate::fault::Fault;
use crate::ghosts::{Size, file_all, fill_all, made, shells_of, size_of};
use crate::inputs::{Grid, grid_of, parameters};
use crate::stopwatch::{Best, RUNS};
use block_fields::Block;
use ghost_pieces::Piece;
use std::time::{Duration, Instant};

/// How many amounts pieces carry.
fn amounts_in(pieces: &[Piece]) -> u64 {
    let mut count = 0u64;
    for piece in pieces {
        for field in 0..piece.fields() {
            count = count.wrapping_add(piece.amounts(field).len() as u64);
        }
    }
    count
}

/// Copies the amounts of pieces into one list, as far as it goes.
fn copy_pieces(pieces: &[Piece], target: &mut [u64]) {
    let mut target = target;
    for piece in pieces {
        for field in 0..piece.fields() {
            let amounts = piece.amounts(field);
            if amounts.len() <= target.len() {
                let (front, rest) = target.split_at_mut(amounts.len());
                front.copy_from_slice(amounts);
                target = rest;
            }
        }
    }
}

/// How long a copy of the amounts of pieces takes.
fn time_copying(rt: &HostRuntime, pieces: &[Piece]) -> Result<Duration, Fault> {
    let mut target = vec![in rt.alloc(); 1u64; amounts_in(pieces) as usize]?;
    let start = Instant::now(rt)?;
    copy_pieces(pieces, &mut target);
    Ok(start.elapsed(rt)?)
}

/// How long filling takes.
fn time_filling(
    rt: &HostRuntime,
    grid: &Grid,
    size: Size,
    pieces: &mut Vec<Piece>,
) -> Result<Duration, Fault>
    requires few { FieldsFit grid.now.blocks.items }
    requires fit { AllFit grid.now.set size.edge size.depth size.fields pieces.old.items }
    ensures fit { AllFit grid.now.set size.edge size.depth size.fields pieces.new.items }
{
    let start = Instant::now(rt)?;
    fill_all(grid, size, pieces);
    Ok(start.elapsed(rt)?)
}

/// How long filing takes.
fn time_filing(
    rt: &HostRuntime,
    blocks: Vec<Block>,
    size: Size,
    pieces: &[Piece],
) -> Result<Duration, Fault>
    requires fit { (k : ℕ) (p : PieceState) → slice_get pieces.now k ≡ Some p → FitsSize size.edge size.depth size.fields p }
{
    let mut shells = shells_of(rt.alloc(), blocks)?;
    let start = Instant::now(rt)?;
    file_all(&mut shells, size, pieces);
    Ok(start.elapsed(rt)?)
}

/// How long making, filling and filing all pieces of a grid and copying their amounts took, and how many these are.
#[derive(Clone, Copy, Drop)]
pub struct Times {
    pub made: Duration,
    pub filled: Duration,
    pub filed: Duration,
    pub copied: Duration,
    pub amounts: u64,
}

/// Makes, fills and files all pieces of a grid, and copies their amounts.
pub fn times_of(rt: &HostRuntime, grid: Grid) -> Result<Times, Fault>
    requires few { FieldsFit grid.blocks.items }
{
    let size = size_of(&grid);
    let start = Instant::now(rt)?;
    let mut pieces = made(rt.alloc(), &grid, size)?;
    let made = start.elapsed(rt)?;
    let filled = time_filling(rt, &grid, size, &mut pieces)?;
    let copied = time_copying(rt, &pieces)?;
    let Grid { set: _, blocks } = grid;
    let filed = time_filing(rt, blocks, size, &pieces)?;
    Ok(Times {
        made,
        filled,
        filed,
        copied,
        amounts: amounts_in(&pieces),
    })
}

/// The best times of several runs.
#[derive(Clone, Copy, Drop)]
struct BestTimes {
    made: Best,
    filled: Best,
    filed: Best,
    all: Best,
    copied: Best,
}

impl BestTimes {
    fn new() -> BestTimes {
        BestTimes {
            made: Best::new(),
            filled: Best::new(),
            filed: Best::new(),
            all: Best::new(),
            copied: Best::new(),
        }
    }

    fn note(&mut self, times: Times) {
        self.made.note(times.made);
        self.filled.note(times.filled);
        self.filed.note(times.filed);
        self.all.note_three(times.made, times.filled, times.filed);
        self.copied.note(times.copied);
    }

    fn tell(self, rt: &HostRuntime, amounts: u64) -> Result<(), Fault> {
        self.made.tell(rt, "making", amounts, "amounts")?;
        self.filled.tell(rt, "filling", amounts, "amounts")?;
        self.filed.tell(rt, "filing", amounts, "amounts")?;
        self.copied.tell(rt, "a copy of them", amounts, "amounts")
    }
}

/// Measures all pieces of a cube of trees, or of the mesh after every eighth of them was refined.
pub fn bench_ghosts(
    rt: &HostRuntime,
    refined: bool,
    trees: u64,
    block: u64,
    fields: u64,
) -> Result<(), Fault> {
    let most = trees.saturating_mul(trees).saturating_mul(trees);
    let params = parameters(rt.alloc(), trees, block, fields, most.saturating_mul(2))?;
    let mut best = BestTimes::new();
    let mut amounts = 0;
    for _ in 0..RUNS {
        let grid = grid_of(rt.alloc(), &params, refined)?;
        let times = times_of(rt, grid)?;
        best.note(times);
        amounts = times.amounts;
    }
    best.tell(rt, amounts)?;
    best.all.compare(rt, "all of it to a copy", best.copied)
}

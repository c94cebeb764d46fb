//! Making, filling and filing the ghost pieces of a mesh.
ghost use Rattle.std.specs.Prelude.{◌≡◌, ℕ, ◌^◌, ◌<◌, ◌≤◌, true, Some, IfOk, length, slice_get, sum};
ghost use Rattle.leaf_set.specs.Tiling.{IsTiling};
ghost use Rattle.block_fields.specs.Blocks.{IsBlock, amounts_of};
ghost use Rattle.prolong_restrict.specs.Families.{FieldsFit};
ghost use Rattle.ghost_pieces.specs.Pieces.{PieceState, FitsSize};
ghost use Rattle.cello_bench.specs.Inputs.{AllFit, Fits};

use crate::inputs::Grid;
use block_fields::Block;
use block_index::Place;
use cello_num::Memory;
use ghost_pieces::{FiledSet, Piece, empty_pieces, file, fill_piece};
use leaf_set::LeafSet;
use std::alloc::Global;

/// What all blocks have in common.
#[derive(Debug, Clone, Copy)]
pub struct Size {
    pub edge: u16,
    pub depth: u8,
    pub fields: u8,
}

/// Whether a block has a place and a size.
fn is_at(block: &Block, place: Place, size: Size) -> bool
    ensures place { result ≡ true → block.now.place ≡ place }
    ensures edge { result ≡ true → block.now.edge ≡ size.edge }
    ensures depth { result ≡ true → block.now.depth ≡ size.depth }
    ensures fields { result ≡ true → length block.now.amounts ≡ size.fields }
    ensures limits { IsBlock block.now }
{
    let same = block.edge() == size.edge
        && block.depth() == size.depth
        && block.fields() == size.fields;
    same && block.place() == place
}

/// Adds the pieces that the leaf at `at` owes.
fn add_owed(
    alloc: Global,
    block: &Block,
    at: u32,
    set: &LeafSet,
    found: &mut Vec<Piece>,
) -> Result<(), Memory>
    requires leaf { slice_get set.now.places at ≡ Some block.now.place }
    requires tiles { IsTiling set.now }
    requires limits { IsBlock block.now }
    requires fit { AllFit set.now block.now.edge block.now.depth (length block.now.amounts) found.old.items }
    ensures fit { IfOk result (λ unit. AllFit set.now block.now.edge block.now.depth (length block.now.amounts) found.new.items) }
{
    let owed = empty_pieces(alloc, block, at, set)?;
    for piece in owed {
        found.push(piece)?;
    }
    Ok(())
}

/// Adds the pieces that the block at `at` owes, where it is one of the size.
fn add_owed_at(
    alloc: Global,
    blocks: &[Block],
    at: u32,
    set: &LeafSet,
    size: Size,
    found: &mut Vec<Piece>,
) -> Result<(), Memory>
    requires leaf { at < length set.now.places }
    requires tiles { IsTiling set.now }
    requires fit { AllFit set.now size.edge size.depth size.fields found.old.items }
    ensures fit { IfOk result (λ unit. AllFit set.now size.edge size.depth size.fields found.new.items) }
{
    if at as usize >= blocks.len() {
        return Ok(());
    }
    let block = &blocks[at as usize];
    if is_at(block, set.place(at as usize), size) {
        add_owed(alloc, block, at, set, found)?;
    }
    Ok(())
}

/// The pieces that all leaves owe.
pub fn made(alloc: Global, grid: &Grid, size: Size) -> Result<Vec<Piece>, Memory>
    ensures fit { IfOk result (λ pieces. AllFit grid.now.set size.edge size.depth size.fields pieces.items) }
{
    let mut found = Vec::new(alloc);
    for at in 0..grid.set.len() {
        add_owed_at(alloc, &grid.blocks, at as u32, &grid.set, size, &mut found)?;
    }
    Ok(found)
}

/// Fills a piece from the blocks of a grid.
fn fill_one(grid: &Grid, size: Size, piece: &mut Piece)
    requires few { FieldsFit grid.now.blocks.items }
    requires fits { Fits grid.now.set size.edge size.depth size.fields piece.old }
    ensures fits { Fits grid.now.set size.edge size.depth size.fields piece.new }
{
    let from = piece.from() as usize;
    if from < grid.blocks.len() {
        fill_from(&grid.blocks[from], &grid.set, size, piece);
    }
}

/// Fills a piece from a block, where that is its sender's.
fn fill_from(block: &Block, set: &LeafSet, size: Size, piece: &mut Piece)
    requires few { (f : ℕ) → sum (amounts_of block.now f) ≤ 2 ^ 42 }
    requires fits { Fits set.now size.edge size.depth size.fields piece.old }
    ensures fits { Fits set.now size.edge size.depth size.fields piece.new }
{
    if is_at(block, piece.sender(), size) {
        fill_piece(block, set.domain(), piece);
    }
}

/// Fills all pieces.
pub fn fill_all(grid: &Grid, size: Size, pieces: &mut Vec<Piece>)
    requires few { FieldsFit grid.now.blocks.items }
    requires fit { AllFit grid.now.set size.edge size.depth size.fields pieces.old.items }
    ensures fit { AllFit grid.now.set size.edge size.depth size.fields pieces.new.items }
{
    for k in 0..pieces.len() {
        fill_one(grid, size, &mut pieces[k]);
    }
}

/// A block, and the regions of its shell that are filed.
#[derive(Drop)]
pub struct Shell {
    pub block: Block,
    pub filed: FiledSet,
}

/// Files a piece in a shell, where that is its receiver's.
fn file_in(shell: &mut Shell, size: Size, piece: &Piece)
    requires fits { FitsSize size.edge size.depth size.fields piece.now }
{
    if is_at(&shell.block, piece.receiver(), size) && shell.filed.len() < 56 {
        file(&mut shell.block, piece, &mut shell.filed);
    }
}

/// Files a piece.
fn file_one(shells: &mut Vec<Shell>, size: Size, piece: &Piece)
    requires fits { FitsSize size.edge size.depth size.fields piece.now }
{
    let to = piece.to() as usize;
    if to < shells.len() {
        file_in(&mut shells[to], size, piece);
    }
}

/// Files all pieces.
pub fn file_all(shells: &mut Vec<Shell>, size: Size, pieces: &[Piece])
    requires fit { (k : ℕ) (p : PieceState) → slice_get pieces.now k ≡ Some p → FitsSize size.edge size.depth size.fields p }
{
    for k in 0..pieces.len() {
        file_one(shells, size, &pieces[k]);
    }
}

/// Blocks of which nothing is filed yet.
pub fn shells_of(alloc: Global, blocks: Vec<Block>) -> Result<Vec<Shell>, Memory> {
    let mut shells = Vec::with_capacity(alloc, blocks.len())?;
    for block in blocks {
        shells.push(Shell {
            block,
            filed: FiledSet::new(),
        })?;
    }
    Ok(shells)
}

/// The size of the blocks of a grid.
pub fn size_of(grid: &Grid) -> Size {
    match grid.blocks.first() {
        Some(block) => Size {
            edge: block.edge(),
            depth: block.depth(),
            fields: block.fields(),
        },
        None => Size {
            edge: 4,
            depth: 1,
            fields: 0,
        },
    }
}

//! All pieces of a mesh, made, filled and filed.
ghost use Rattle.std.specs.Prelude.{◌≡◌, ℕ, ◌^◌, ◌<◌, ◌≤◌, true, Some, IfOk, length, slice_get, sum};
ghost use Rattle.leaf_set.specs.Tiling.{IsTiling};
ghost use Rattle.block_fields.specs.Blocks.{IsBlock, amounts_of};
ghost use Rattle.ghost_pieces.specs.Pieces.{PieceState, FitsSize};
ghost use Rattle.ghost_tests.specs.Delivering.{AllFit, Fits};

use block_fields::Block;
use block_index::{Domain, Place};
use cello_num::Memory;
use ghost_pieces::{Filed, FiledSet, Piece, empty_pieces, file, fill_piece};
use leaf_set::LeafSet;
use std::alloc::Global;

/// The edge and the depth of all blocks.
#[derive(Debug, Clone, Copy)]
pub struct Size {
    pub edge: u16,
    pub depth: u8,
}

/// Whether a block of two fields has a place and a size.
fn is_at(block: &Block, place: Place, size: Size) -> bool
    ensures place { result ≡ true → block.now.place ≡ place }
    ensures edge { result ≡ true → block.now.edge ≡ size.edge }
    ensures depth { result ≡ true → block.now.depth ≡ size.depth }
    ensures fields { result ≡ true → length block.now.amounts ≡ 2 }
    ensures limits { IsBlock block.now }
{
    let same = block.edge() == size.edge && block.depth() == size.depth && block.fields() == 2;
    same && block.place() == place
}

/// Whether amounts add up to few enough.
fn add_up_to_few(amounts: &[u64]) -> bool
    ensures few { result ≡ true → sum amounts.now ≤ 2 ^ 42 }
{
    let limit = 1u64 << 42;
    let mut total = 0u64;
    for k in 0..amounts.len() {
        let q = amounts[k];
        if q > limit || total + q > limit {
            return false;
        }
        total += q;
    }
    true
}

/// Whether both fields of a block add up to few enough.
fn is_small(block: &Block) -> bool
    requires two { length block.now.amounts ≡ 2 }
    ensures few { result ≡ true → (f : ℕ) → sum (amounts_of block.now f) ≤ 2 ^ 42 }
{
    if !add_up_to_few(block.field(0)) {
        return false;
    }
    add_up_to_few(block.field(1))
}

/// The pieces that the block at `at` owes, where it is one of the size.
fn owed_by(
    alloc: Global,
    set: &LeafSet,
    size: Size,
    block: &Block,
    at: u32,
) -> Result<Vec<Piece>, Memory>
    requires leaf { at < length set.now.places }
    requires tiles { IsTiling set.now }
    ensures fit { IfOk result (λ pieces. AllFit set.now.grid size.edge size.depth pieces.items) }
{
    if !is_at(block, set.place(at as usize), size) {
        return Err(Memory);
    }
    let pieces = empty_pieces(alloc, block, at, set)?;
    Ok(pieces)
}

/// Fills a piece by a block, where that is its sender's.
fn fill_by(domain: &Domain, size: Size, block: &Block, piece: &mut Piece) -> bool
    requires fits { Fits domain.now size.edge size.depth piece.old }
    ensures fits { FitsSize size.edge size.depth 2 piece.new }
{
    if !is_at(block, piece.sender(), size) {
        return false;
    }
    if !is_small(block) {
        return false;
    }
    fill_piece(block, domain, piece);
    true
}

/// Files a piece in a block's shell, where that is its receiver's.
fn file_by(size: Size, block: &mut Block, filed: &mut FiledSet, piece: &Piece) -> Option<Filed>
    requires fits { FitsSize size.edge size.depth 2 piece.now }
{
    if is_at(block, piece.receiver(), size) && filed.len() < 56 {
        Some(file(block, piece, filed))
    } else {
        None
    }
}

/// Files a piece in its receiver's shell.
fn file_one(
    size: Size,
    blocks: &mut Vec<Block>,
    filed: &mut Vec<FiledSet>,
    piece: &Piece,
) -> Option<Filed>
    requires fits { FitsSize size.edge size.depth 2 piece.now }
{
    let to = piece.to() as usize;
    if to >= blocks.len() || to >= filed.len() {
        return None;
    }
    file_by(size, &mut blocks[to], &mut filed[to], piece)
}

/// Fills a piece and files it, which must be new.
fn deliver(
    domain: &Domain,
    size: Size,
    blocks: &mut Vec<Block>,
    filed: &mut Vec<FiledSet>,
    mut piece: Piece,
) -> bool
    requires fits { Fits domain.now size.edge size.depth piece }
{
    let from = piece.from() as usize;
    if from >= blocks.len() {
        return false;
    }
    if !fill_by(domain, size, &blocks[from], &mut piece) {
        return false;
    }
    file_one(size, blocks, filed, &piece) == Some(Filed::New)
}

/// Delivers pieces.
fn deliver_all(
    domain: &Domain,
    size: Size,
    blocks: &mut Vec<Block>,
    filed: &mut Vec<FiledSet>,
    pieces: Vec<Piece>,
) -> bool
    requires fit { AllFit domain.now size.edge size.depth pieces.items }
{
    for piece in pieces {
        if !deliver(domain, size, blocks, filed, piece) {
            return false;
        }
    }
    true
}

/// Files pieces that carry only 0, of regions that are filed already: each must be a repeat.
fn repeat_all(
    size: Size,
    blocks: &mut Vec<Block>,
    filed: &mut Vec<FiledSet>,
    pieces: &[Piece],
) -> bool
    requires fit { (k : ℕ) (p : PieceState) → slice_get pieces.now k ≡ Some p → FitsSize size.edge size.depth 2 p }
{
    for k in 0..pieces.len() {
        if file_one(size, blocks, filed, &pieces[k]) != Some(Filed::Repeat) {
            return false;
        }
    }
    true
}

/// Whether a filing is the first of its region, or one more.
#[derive(Debug, Clone, Copy)]
enum Turn {
    First,
    Again,
}

/// What the leaf at `at` owes, filled and filed, or as repeats that carry only 0.
fn serve(
    alloc: Global,
    set: &LeafSet,
    size: Size,
    blocks: &mut Vec<Block>,
    filed: &mut Vec<FiledSet>,
    at: usize,
    turn: Turn,
) -> Result<bool, Memory>
    requires leaf { at < length set.now.places }
    requires few { at < 2 ^ 32 }
    requires tiles { IsTiling set.now }
{
    if at >= blocks.len() {
        return Ok(false);
    }
    let pieces = owed_by(alloc, set, size, &blocks[at], at as u32)?;
    Ok(match turn {
        Turn::First => deliver_all(set.domain(), size, blocks, filed, pieces),
        Turn::Again => repeat_all(size, blocks, filed, &pieces),
    })
}

/// What all leaves owe.
fn serve_all(
    alloc: Global,
    set: &LeafSet,
    size: Size,
    blocks: &mut Vec<Block>,
    filed: &mut Vec<FiledSet>,
    turn: Turn,
) -> Result<bool, Memory> {
    for at in 0..set.len() {
        if !serve(alloc, set, size, blocks, filed, at, turn)? {
            return Ok(false);
        }
    }
    Ok(true)
}

/// So many empty sets.
fn nothing_filed(alloc: Global, count: usize) -> Result<Vec<FiledSet>, Memory> {
    let mut filed = Vec::new(alloc);
    for _ in 0..count {
        filed.push(FiledSet::new())?;
    }
    Ok(filed)
}

/// Fills all shells by pieces, and tries to file a piece of zeros for each region then. Answers whether each was new the
/// first time, and none the second.
pub fn refresh(
    alloc: Global,
    set: &LeafSet,
    size: Size,
    blocks: &mut Vec<Block>,
) -> Result<bool, Memory> {
    let mut filed = nothing_filed(alloc, set.len())?;
    let first = serve_all(alloc, set, size, blocks, &mut filed, Turn::First)?;
    let again = serve_all(alloc, set, size, blocks, &mut filed, Turn::Again)?;
    Ok(first & again)
}

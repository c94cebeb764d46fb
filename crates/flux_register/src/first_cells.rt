//! The cells with which a phase over the blocks of a mesh begins.

ghost use Rattle.std.specs.Prelude.{◌≡◌, ℕ, ◌%◌, ◌<◌, ◌≤◌, Contains, IfOk, length, map};
ghost use Rattle.block_fields.specs.BlockStates.{AreBlocksOf};
ghost use Rattle.advect.specs.FaceFluxes.{IsSide};
ghost use Rattle.advect.specs.FluxPieces.{flux_piece, no_sums};
ghost use Rattle.flux_register.specs.Faces.{FluxFace};
ghost use Rattle.flux_register.specs.Lemmas.FirstCells.{AreFirstCells, IsFirstCell, bare};

use crate::cell::FluxCell;
use crate::coarse_face::CoarseFace;
use crate::coarse_faces::coarse_faces;
use advect::{FaceFluxes, FluxPiece};
use block_fields::Block;
use cello_num::Memory;
use leaf_set::LeafSet;
use std::alloc::Global;

/// The cells of the blocks of a leaf set before anything is handled, in order. They have the room of all pieces.
pub(crate) fn first_cells(
    alloc: Global,
    set: &LeafSet,
    blocks: Vec<Block>,
    faces: Vec<FaceFluxes>,
) -> Result<Vec<FluxCell>, Memory>
    requires blocks { (n : ℕ) × (fields : ℕ) × (depth : ℕ) × AreBlocksOf set.now.places n fields depth blocks.items }
    requires one_each { length faces.items ≡ length blocks.items }
    ensures { IfOk result (λ cells. AreFirstCells set.now.grid set.now.places blocks.items faces.items cells.items) }
{
    let mut cells = Vec::with_capacity(alloc, set.len())?;
    let mut faces = faces.into_iter();
    for block in blocks {
        let own = faces.next().unwrap();
        let at = cells.len() as u32;
        cells.push(first_cell(alloc, set, at, block, own)?)?;
    }
    Ok(cells)
}

/// The cell of the leaf at position `at`.
fn first_cell(
    alloc: Global,
    set: &LeafSet,
    at: u32,
    block: Block,
    faces: FaceFluxes,
) -> Result<FluxCell, Memory>
    requires leaf { at < length set.now.places }
    ensures first { IfOk result (λ cell. IsFirstCell set.now.grid set.now.places at cell) }
    ensures block { IfOk result (λ cell. cell.block ≡ block) }
    ensures faces { IfOk result (λ cell. cell.faces ≡ faces) }
{
    let mut cell = FluxCell::bare(alloc, block, faces);
    take_faces(alloc, set, at, &mut cell)?;
    Ok(cell)
}

/// Gives a bare cell, which is that of the leaf at `at`, its faces with a coarser leaf across, and the pieces that it
/// owes for these, with their room.
pub(crate) fn take_faces(
    alloc: Global,
    set: &LeafSet,
    at: u32,
    cell: &mut FluxCell,
) -> Result<(), Memory>
    requires bare { cell.old ≡ bare cell.old.block cell.old.faces }
    requires leaf { at < length set.now.places }
    ensures first { IfOk result (λ _. IsFirstCell set.now.grid set.now.places at cell.new) }
    ensures block { IfOk result (λ _. cell.new.block ≡ cell.old.block) }
    ensures faces { IfOk result (λ _. cell.new.faces ≡ cell.old.faces) }
{
    let block = cell.block();
    let owes = coarse_faces(alloc, set, at)?;
    let owed = blanks(alloc, &owes, block.edge(), block.fields())?;
    cell.owe(owes, owed);
    Ok(())
}

/// A piece for each face, whose sums are all 0.
fn blanks(alloc: Global, owes: &[CoarseFace], n: u16, fields: u8) -> Result<Vec<FluxPiece>, Memory>
    requires sides { (face : FluxFace) → Contains owes.now face → IsSide face.side }
    requires even { n % 2 ≡ 0 }
    requires least { 4 ≤ n }
    requires most { n ≤ 16 }
    requires few { fields ≤ 4 }
    ensures { IfOk result (λ pieces. pieces.items ≡ map (λ face. flux_piece face.to face.from face.place face.side n (no_sums n fields)) owes.now) }
{
    let mut pieces = Vec::with_capacity(alloc, owes.len())?;
    for face in owes {
        pieces.push(FluxPiece::new(alloc, face.to, face.from, face.place, face.side, n, fields)?)?;
    }
    Ok(pieces)
}

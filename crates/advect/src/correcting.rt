//! Provisional fluxes of a coarse block, replaced by the sums of the fine ones.
ghost use Rattle.std.specs.Prelude.{◌≡◌, ℕ, ◌+◌, ◌*◌, ◌/◌, ◌%◌, ◌^◌, ◌≤◌, ◌<◌, true, cond, length, slice_index};
ghost use Rattle.block_fields.specs.Blocks.{IsBlock, amount_at};
ghost use Rattle.advect.specs.Coordinates.{across_first, across_second};
ghost use Rattle.advect.specs.FaceFluxes.{IsFaceFluxes, IsSide, axis_of, flows_out};
ghost use Rattle.advect.specs.FluxPieces.{IsCorrected, IsFluxPiece, StaysWithin, corrected, is_behind};
ghost use Rattle.advect.specs.Flows.{goes_up_by};
ghost use Rattle.advect.specs.Lemmas.Corrections.{CorrectsBetween, rank};
ghost use Rattle.advect.specs.Lemmas.Lines.{axis_named};

use crate::face_fluxes::FaceFluxes;
use crate::flux_piece::FluxPiece;
use crate::line::Line;
use crate::sides::{Spot, is_end, line_of};
use block_fields::Block;
use cello_neighbours::Direction;

/// Replaces the provisional fluxes of a block through the faces that a piece is for by the piece's sums.
pub fn correct(block: &mut Block, faces: &FaceFluxes, piece: &FluxPiece)
    requires edge { faces.now.edge ≡ block.old.edge }
    requires same_edge { piece.now.edge ≡ block.old.edge }
    requires fields { faces.now.fields ≡ length block.old.amounts }
    requires same_fields { length piece.now.sums ≡ length block.old.amounts }
    requires stays { (f x y z : ℕ) → f < length block.old.amounts → x < block.old.edge → y < block.old.edge → z < block.old.edge →
        is_behind piece.now x y z ≡ true → StaysWithin faces.now piece.now f x y z (amount_at block.old f x y z) }
    ensures corrected { IsCorrected faces.now piece.now block.old block.new }
    ensures limits { IsBlock block.new }
{
    for field in 0..piece.fields() {
        correct_field(block, faces, piece, field);
    }
    let _edge = block.edge();
}

/// The same for one field.
fn correct_field(block: &mut Block, faces: &FaceFluxes, piece: &FluxPiece, field: u8)
    requires edge { faces.now.edge ≡ block.old.edge }
    requires same_edge { piece.now.edge ≡ block.old.edge }
    requires fields { faces.now.fields ≡ length block.old.amounts }
    requires same_fields { length piece.now.sums ≡ length block.old.amounts }
    requires field { field < length block.old.amounts }
    requires stays { (f x y z : ℕ) → f < length block.old.amounts → x < block.old.edge → y < block.old.edge → z < block.old.edge →
        is_behind piece.now x y z ≡ true → field * (piece.now.edge / 2) * (piece.now.edge / 2) ≤ rank piece.now f x y z → StaysWithin faces.now piece.now f x y z (amount_at block.old f x y z) }
    ensures corrects { CorrectsBetween faces.now piece.now (field * (piece.now.edge / 2) * (piece.now.edge / 2)) ((field + 1) * (piece.now.edge / 2) * (piece.now.edge / 2)) block.old block.new }
{
    let half = piece.edge() / 2;
    for j in 0..half {
        correct_row(block, faces, piece, field, j);
    }
}

/// The same for a row of faces.
fn correct_row(block: &mut Block, faces: &FaceFluxes, piece: &FluxPiece, field: u8, j: u16)
    requires edge { faces.now.edge ≡ block.old.edge }
    requires same_edge { piece.now.edge ≡ block.old.edge }
    requires fields { faces.now.fields ≡ length block.old.amounts }
    requires same_fields { length piece.now.sums ≡ length block.old.amounts }
    requires field { field < length block.old.amounts }
    requires row { j < piece.now.edge / 2 }
    requires stays { (f x y z : ℕ) → f < length block.old.amounts → x < block.old.edge → y < block.old.edge → z < block.old.edge →
        is_behind piece.now x y z ≡ true → (field * (piece.now.edge / 2) + j) * (piece.now.edge / 2) ≤ rank piece.now f x y z → StaysWithin faces.now piece.now f x y z (amount_at block.old f x y z) }
    ensures corrects { CorrectsBetween faces.now piece.now ((field * (piece.now.edge / 2) + j) * (piece.now.edge / 2)) ((field * (piece.now.edge / 2) + j + 1) * (piece.now.edge / 2)) block.old block.new }
{
    let half = piece.edge() / 2;
    for i in 0..half {
        correct_cell(block, faces, piece, field, i, j);
    }
}

/// The same for the cell behind one face.
fn correct_cell(block: &mut Block, faces: &FaceFluxes, piece: &FluxPiece, field: u8, i: u16, j: u16)
    requires edge { faces.now.edge ≡ block.old.edge }
    requires same_edge { piece.now.edge ≡ block.old.edge }
    requires fields { faces.now.fields ≡ length block.old.amounts }
    requires same_fields { length piece.now.sums ≡ length block.old.amounts }
    requires field { field < length block.old.amounts }
    requires column { i < piece.now.edge / 2 }
    requires row { j < piece.now.edge / 2 }
    requires stays { (x y z : ℕ) → x < block.old.edge → y < block.old.edge → z < block.old.edge →
        is_behind piece.now x y z ≡ true → rank piece.now field x y z ≡ (field * (piece.now.edge / 2) + j) * (piece.now.edge / 2) + i → StaysWithin faces.now piece.now field x y z (amount_at block.old field x y z) }
    ensures corrects { CorrectsBetween faces.now piece.now ((field * (piece.now.edge / 2) + j) * (piece.now.edge / 2) + i) ((field * (piece.now.edge / 2) + j) * (piece.now.edge / 2) + i + 1) block.old block.new }
{
    let spot = spot_behind(piece, i, j);
    let q = block.amount(field, spot.x, spot.y, spot.z);
    let amount = corrected_amount(faces, piece, field, i, j, spot, q);
    block.set_amount(field, spot.x, spot.y, spot.z, amount);
}

/// The cell behind a face of a piece.
fn spot_behind(piece: &FluxPiece, i: u16, j: u16) -> Spot
    requires column { i < piece.now.edge / 2 }
    requires row { j < piece.now.edge / 2 }
    ensures x { result.x < piece.now.edge }
    ensures y { result.y < piece.now.edge }
    ensures z { result.z < piece.now.edge }
    ensures behind { is_behind piece.now result.x result.y result.z ≡ true }
    ensures first { across_first (axis_of piece.now.side) result.x result.y result.z % (piece.now.edge / 2) ≡ i }
    ensures second { across_second (axis_of piece.now.side) result.x result.y result.z % (piece.now.edge / 2) ≡ j }
{
    let line = line_of(piece.side());
    let half = piece.edge() / 2;
    let place = piece.place();
    let sender = Spot {
        x: place.x(),
        y: place.y(),
        z: place.z(),
    };
    let u = if is_end(piece.side()) {
        piece.edge() - 1
    } else {
        0
    };
    Spot::at(
        line,
        u,
        sender.first(line) % 2 * half + i,
        sender.second(line) % 2 * half + j,
    )
}

/// An amount behind a face, with the flux replaced by the sum.
fn corrected_amount(
    faces: &FaceFluxes,
    piece: &FluxPiece,
    field: u8,
    i: u16,
    j: u16,
    spot: Spot,
    q: u64,
) -> u64
    requires edge { piece.now.edge ≡ faces.now.edge }
    requires fields { length piece.now.sums ≡ faces.now.fields }
    requires field { field < faces.now.fields }
    requires x { spot.x < faces.now.edge }
    requires y { spot.y < faces.now.edge }
    requires z { spot.z < faces.now.edge }
    requires first { across_first (axis_of piece.now.side) spot.x spot.y spot.z % (piece.now.edge / 2) ≡ i }
    requires second { across_second (axis_of piece.now.side) spot.x spot.y spot.z % (piece.now.edge / 2) ≡ j }
    requires stays { StaysWithin faces.now piece.now field spot.x spot.y spot.z q }
    ensures corrected { result ≡ corrected faces.now piece.now field spot.x spot.y spot.z q }
{
    let line = line_of(piece.side());
    let n = faces.edge() as usize;
    let half = n / 2;
    let flux = faces.on_side(field, piece.side())[spot.second(line) as usize * n
        + spot.first(line) as usize];
    let sum = piece.sums(field)[j as usize * half + i as usize];
    if flows_out(faces, piece.side()) {
        q + flux - sum
    } else {
        q - flux + sum
    }
}

/// Whether the flow goes out of the block through a side.
fn flows_out(faces: &FaceFluxes, side: Direction) -> bool
    requires side { IsSide side }
    ensures out { result ≡ flows_out faces.now side }
{
    let up = goes_up(faces, line_of(side));
    if is_end(side) { up } else { !up }
}

/// Whether the flow by which the fluxes were made goes up along an axis.
fn goes_up(faces: &FaceFluxes, line: Line) -> bool
    ensures up { result ≡ goes_up_by faces.now.velocity (axis_named line) }
{
    let [x, y, z] = faces.velocity();
    match line {
        Line::X => x >= 0,
        Line::Y => y >= 0,
        Line::Z => z >= 0,
    }
}

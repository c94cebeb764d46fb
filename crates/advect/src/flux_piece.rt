//! Flux pieces: sums of fine fluxes on their way to a coarse block.
ghost use Rattle.std.specs.Prelude.{◌≡◌, ℕ, ◌+◌, ◌*◌, ◌/◌, ◌%◌, ◌≤◌, ◌<◌, IfOk, length, map, replicate, slice_index};
ghost use Rattle.advect.specs.FaceFluxes.{IsSide};
ghost use Rattle.advect.specs.FluxPieces.{IsFluxPiece, flux_piece, greatest_sum, no_sums, sums_in};

use crate::face_fluxes::zero_lists;
use block_index::Place;
use cello_neighbours::Direction;
use cello_num::Memory;
use std::alloc::Global;
use std::marker::Model;

/// The sums of the fluxes of a fine block, one for each face of the coarse block on its side (Berger and Colella 1989).
/// Contracts see it as a `FluxPieceState`.
#[derive(Drop)]
pub struct FluxPiece {
    to: u32,
    from: u32,
    place: Place,
    side: Direction,
    pub(crate) edge: u16,
    pub(crate) sums: Vec<Vec<u64>>,
}

impl Model for FluxPiece {
    ghost use Rattle.std.specs.Prelude.{map};
    ghost use Rattle.advect.specs.FluxPieces.{FluxPieceState, IsFluxPiece, flux_piece};

    ghost Value = { FluxPieceState };

    ghost view = { λ p. flux_piece p.to p.from p.place p.side p.edge (map (λ v. v.items) p.sums.items) };

    ghost invariant = { λ p. IsFluxPiece (flux_piece p.to p.from p.place p.side p.edge (map (λ v. v.items) p.sums.items)) };
}

impl FluxPiece {
    /// A piece to the leaf at position `to` from the leaf at position `from`, which lies at a place, on a side of the
    /// receiver. All sums are 0.
    pub fn new(
        alloc: Global,
        to: u32,
        from: u32,
        place: Place,
        side: Direction,
        n: u16,
        fields: u8,
    ) -> Result<FluxPiece, Memory>
        requires side { IsSide side }
        requires even { n % 2 ≡ 0 }
        requires least { 4 ≤ n }
        requires most { n ≤ 16 }
        requires few { fields ≤ 4 }
        ensures zeros { IfOk result (λ piece. piece ≡ flux_piece to from place side n (no_sums n fields)) }
        ensures limits { IfOk result (λ piece. IsFluxPiece piece) }
    {
        let half = n as usize / 2;
        Ok(FluxPiece {
            to,
            from,
            place,
            side,
            edge: n,
            sums: zero_lists(alloc, fields as usize, half * half)?,
        })
    }

    /// The receiver's position among the leaves.
    pub fn to(&self) -> u32
        ensures to { result ≡ self.now.to }
    {
        self.to
    }

    /// The sender's position among the leaves.
    pub fn from(&self) -> u32
        ensures from { result ≡ self.now.from }
    {
        self.from
    }

    /// The sender's place.
    pub fn place(&self) -> Place
        ensures place { result ≡ self.now.place }
    {
        self.place
    }

    /// The side of the receiver on which the sender lies.
    pub fn side(&self) -> Direction
        ensures side { result ≡ self.now.side }
        ensures limits { IsFluxPiece self.now }
    {
        self.side
    }

    /// How many cells stand along an edge of both blocks.
    pub fn edge(&self) -> u16
        ensures edge { result ≡ self.now.edge }
        ensures limits { IsFluxPiece self.now }
    {
        self.edge
    }

    /// How many fields there are.
    pub fn fields(&self) -> u8
        ensures fields { result ≡ length self.now.sums }
        ensures limits { IsFluxPiece self.now }
    {
        self.sums.len() as u8
    }

    /// A field's sums, one for each face of the receiver, by the coordinates across: the earlier of x, y and z fastest.
    pub fn sums(&self, field: u8) -> &[u64]
        requires field { field < length self.now.sums }
        ensures sums { result.now ≡ sums_in self.now field }
        ensures faces { length result.now ≡ self.now.edge / 2 * (self.now.edge / 2) }
        ensures small { (k : ℕ) → slice_index result.now k ≤ greatest_sum }
        ensures limits { IsFluxPiece self.now }
    {
        self.sums[field as usize].as_slice()
    }
}

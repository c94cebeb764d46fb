//! The fluxes through the outermost faces of a block.
ghost use Rattle.std.specs.Prelude.{◌≡◌, ℕ, ◌+◌, ◌*◌, ◌%◌, ◌≤◌, ◌<◌, IfOk, length, map, replicate};
ghost use Rattle.advect.specs.FaceFluxes.{AreFluxes, IsFaceFluxes, IsSide, fluxes_on, no_fluxes};

use crate::sides::{axis_of, is_end};
use cello_neighbours::Direction;
use cello_num::Memory;
use std::alloc::Global;
use std::marker::Model;

/// The flux of each outermost face of a block, with the velocity and the denominator by which they were made. Contracts
/// see them as a `FaceFluxState`.
#[derive(Drop)]
pub struct FaceFluxes {
    pub(crate) edge: u16,
    pub(crate) fields: u8,
    pub(crate) velocity: [i32; 3],
    pub(crate) den: u32,
    // for each field three lists, axis by axis
    pub(crate) low: Vec<Vec<u64>>,
    pub(crate) high: Vec<Vec<u64>>,
}

impl Model for FaceFluxes {
    ghost use Rattle.std.specs.Prelude.{map};
    ghost use Rattle.advect.specs.FaceFluxes.{FaceFluxState, IsFaceFluxes, face_fluxes};

    ghost Value = { FaceFluxState };

    ghost view = { λ f. face_fluxes f.edge f.fields f.velocity f.den (map (λ v. v.items) f.low.items) (map (λ v. v.items) f.high.items) };

    ghost invariant = { λ f. IsFaceFluxes (face_fluxes f.edge f.fields f.velocity f.den (map (λ v. v.items) f.low.items) (map (λ v. v.items) f.high.items)) };
}

impl FaceFluxes {
    /// Room for the fluxes of a block of edge `n` with so many fields. All are 0, made by no velocity and the
    /// denominator 1.
    pub fn new(alloc: Global, n: u16, fields: u8) -> Result<FaceFluxes, Memory>
        requires even { n % 2 ≡ 0 }
        requires least { 4 ≤ n }
        requires most { n ≤ 16 }
        requires few { fields ≤ 4 }
        ensures zeros { IfOk result (λ faces. faces ≡ no_fluxes n fields) }
        ensures limits { IfOk result (λ faces. IsFaceFluxes faces) }
    {
        let size = n as usize * n as usize;
        let count = 3 * fields as usize;
        Ok(FaceFluxes {
            edge: n,
            fields,
            velocity: [0; 3],
            den: 1,
            low: zero_lists(alloc, count, size)?,
            high: zero_lists(alloc, count, size)?,
        })
    }

    /// How many cells stand along an edge of the block.
    pub fn edge(&self) -> u16
        ensures edge { result ≡ self.now.edge }
        ensures limits { IsFaceFluxes self.now }
    {
        self.edge
    }

    /// How many fields there are.
    pub fn fields(&self) -> u8
        ensures fields { result ≡ self.now.fields }
        ensures limits { IsFaceFluxes self.now }
    {
        self.fields
    }

    /// The velocity by which the fluxes were made.
    pub fn velocity(&self) -> [i32; 3]
        ensures velocity { result ≡ self.now.velocity }
    {
        self.velocity
    }

    /// The denominator by which the fluxes were made.
    pub fn den(&self) -> u32
        ensures den { result ≡ self.now.den }
    {
        self.den
    }

    /// A field's fluxes on a side of the block, one for each face, by the coordinates across: the earlier of x, y and z
    /// fastest.
    pub fn on_side(&self, field: u8, side: Direction) -> &[u64]
        requires field { field < self.now.fields }
        requires side { IsSide side }
        ensures fluxes { result.now ≡ fluxes_on self.now field side }
        ensures faces { AreFluxes self.now.edge result.now }
        ensures limits { IsFaceFluxes self.now }
    {
        let at = 3 * field as usize + axis_of(side);
        if is_end(side) {
            self.high[at].as_slice()
        } else {
            self.low[at].as_slice()
        }
    }
}

/// As many lists of as many zeros.
pub(crate) fn zero_lists(
    alloc: Global,
    count: usize,
    length: usize,
) -> Result<Vec<Vec<u64>>, Memory>
    requires few { count ≤ 12 }
    requires short { length ≤ 256 }
    ensures lists { IfOk result (λ lists. map (λ v. v.items) lists.items ≡ replicate count (replicate length 0)) }
{
    let mut lists = Vec::with_capacity(alloc, count)?;
    for _ in 0..count {
        lists.push(zeros(alloc, length)?)?;
    }
    Ok(lists)
}

/// A list of zeros.
fn zeros(alloc: Global, length: usize) -> Result<Vec<u64>, Memory>
    ensures zeros { IfOk result (λ list. list.items ≡ replicate length 0) }
{
    Ok(vec![in alloc; 0u64; length]?)
}

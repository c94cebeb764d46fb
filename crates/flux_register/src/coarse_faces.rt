//! The faces of a leaf that have a coarser leaf across.

ghost use Rattle.std.specs.Prelude.{◌≡◌, ◌<◌, true, IfOk, IfSome, Some, length};
ghost use Rattle.leaf_set.specs.Tiling.{IsTiling};
ghost use Rattle.advect.specs.FaceFluxes.{IsSide};
ghost use Rattle.flux_register.specs.Faces.{AreOwedFaces, FluxFace, IsFluxFace, side_number};

use crate::coarse_face::CoarseFace;
use crate::sides::opposite;
use cello_neighbours::{Cover, Direction, in_direction};
use cello_num::Memory;
use leaf_set::LeafSet;
use std::alloc::Global;

/// How many sides a block has.
const SIDES: u8 = 6;

/// All faces of the leaf at position `at` that have a coarser leaf across.
pub(crate) fn coarse_faces(alloc: Global, set: &LeafSet, at: u32) -> Result<Vec<CoarseFace>, Memory>
    requires leaf { at < length set.now.places }
    ensures faces { IfOk result (λ faces. AreOwedFaces set.now.grid set.now.places at faces.items) }
{
    // The leaves of a leaf set are a balanced mesh.
    let leaves = set.len();
    prove!((at as usize) < leaves);
    if has_none_coarser(set, at) {
        return Ok(Vec::new(alloc));
    }
    let mut faces = Vec::with_capacity(alloc, SIDES as usize)?;
    for number in 0..SIDES {
        if let Some(face) = coarse_face(set, at, number) {
            faces.push(face)?;
        }
    }
    Ok(faces)
}

/// Whether the set keeps the list of the leaves that touch the leaf at position `at`, and none of them is coarser. Then
/// the leaf has no coarser leaf across any face.
fn has_none_coarser(set: &LeafSet, at: u32) -> bool
    requires tiles { IsTiling set.now }
    requires leaf { at < length set.now.places }
    ensures none { result ≡ true → (face : FluxFace) → IsFluxFace set.now.grid set.now.places face → face.from ≡ at → ⊥ }
{
    let Some(touching) = set.kept_touching(at as usize) else {
        return false;
    };
    let level = set.place(at as usize).level();
    for leaf in touching {
        if set.place(*leaf as usize).level() < level {
            return false;
        }
    }
    true
}

/// The face on side `number` of the coarser leaf across, if there is one. The sides go by `side_number`.
fn coarse_face(set: &LeafSet, at: u32, number: u8) -> Option<CoarseFace>
    requires tiles { IsTiling set.now }
    requires leaf { at < length set.now.places }
    requires number { number < 6 }
    ensures found { IfSome result (λ face. IsFluxFace set.now.grid set.now.places face) }
    ensures own { IfSome result (λ face. face.from ≡ at) }
    ensures side { IfSome result (λ face. side_number face.side ≡ number) }
    ensures every { (face : FluxFace) → IsFluxFace set.now.grid set.now.places face → face.from ≡ at → side_number face.side ≡ number →
        result ≡ Some face }
{
    let side = side_numbered(number);
    let Cover::Coarser(to) = in_direction(set, at as usize, opposite(side)) else {
        return None;
    };
    Some(CoarseFace {
        to,
        from: at,
        place: set.place(at as usize),
        side,
    })
}

/// The side with a number.
fn side_numbered(number: u8) -> Direction
    requires number { number < 6 }
    ensures side { IsSide result }
    ensures number { side_number result ≡ number }
{
    let step = if number % 2 == 0 { -1 } else { 1 };
    let direction = match number / 2 {
        0 => Direction::new(step, 0, 0),
        1 => Direction::new(0, step, 0),
        _ => Direction::new(0, 0, step),
    };
    direction.unwrap()
}

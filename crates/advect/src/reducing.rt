//! Fine fluxes summed up for the coarse faces that they make up.
ghost use Rattle.std.specs.Prelude.{◌≡◌, ℕ, ◌+◌, ◌*◌, ◌/◌, ◌%◌, ◌^◌, ◌≤◌, ◌<◌, List, Some, length, map, slice_get, slice_index};
ghost use Rattle.std.specs.List.{range_with_len};
ghost use Rattle.advect.specs.Coordinates.{face_number};
ghost use Rattle.advect.specs.FaceFluxes.{AreFluxes, IsFaceFluxes, IsSide, fluxes_on};
ghost use Rattle.advect.specs.FluxPieces.{IsFluxPiece, IsOpposite, reduced, sum_of_four, sums_of_four};

use crate::face_fluxes::FaceFluxes;
use crate::flux_piece::FluxPiece;
use cello_neighbours::Direction;

/// Fills a piece with the sums of the fluxes on side `d` of a block, four to each face of a block twice as coarse.
pub fn reduce(faces: &FaceFluxes, d: Direction, out: &mut FluxPiece)
    requires side { IsSide d }
    requires opposite { IsOpposite d out.old.side }
    requires edge { out.old.edge ≡ faces.now.edge }
    requires fields { length out.old.sums ≡ faces.now.fields }
    ensures reduced { out.new ≡ reduced faces.now d out.old }
    ensures limits { IsFluxPiece out.new }
{
    sum_up(faces, d, &mut out.sums);
}

/// Fills lists, one a field, with the sums.
fn sum_up(faces: &FaceFluxes, d: Direction, sums: &mut Vec<Vec<u64>>)
    requires side { IsSide d }
    requires fields { length sums.old.items ≡ faces.now.fields }
    requires sums { (f : ℕ) (q : List ℕ) → slice_get (map (λ v. v.items) sums.old.items) f ≡ Some q → length q ≡ faces.now.edge / 2 * (faces.now.edge / 2) }
    ensures sums { map (λ v. v.items) sums.new.items ≡ map (λ f. sums_of_four faces.now.edge (fluxes_on faces.now f d)) (range_with_len 0 faces.now.fields) }
    ensures limits { IsFaceFluxes faces.now }
{
    let n = faces.edge() as usize;
    for field in 0..faces.fields() {
        let fluxes = faces.on_side(field, d);
        reduce_field(fluxes, n, sums[field as usize].as_mut_slice());
    }
}

/// The same for one field.
fn reduce_field(fluxes: &[u64], n: usize, sums: &mut [u64])
    requires even { n % 2 ≡ 0 }
    requires least { 4 ≤ n }
    requires most { n ≤ 16 }
    requires fluxes { AreFluxes n fluxes.now }
    requires sums { length sums.old ≡ n / 2 * (n / 2) }
    ensures sums { sums.new ≡ sums_of_four n fluxes.now }
{
    let half = n / 2;
    for j in 0..half {
        reduce_row(fluxes, n, j, sums);
    }
}

/// The same for a row of faces.
fn reduce_row(fluxes: &[u64], n: usize, j: usize, sums: &mut [u64])
    requires even { n % 2 ≡ 0 }
    requires least { 4 ≤ n }
    requires most { n ≤ 16 }
    requires row { j < n / 2 }
    requires fluxes { AreFluxes n fluxes.now }
    requires sums { length sums.old ≡ n / 2 * (n / 2) }
    ensures row { (i : ℕ) → i < n / 2 → slice_index sums.new (j * (n / 2) + i) ≡ sum_of_four n fluxes.now (j * (n / 2) + i) }
    ensures earlier { (k : ℕ) → k < j * (n / 2) → slice_index sums.new k ≡ slice_index sums.old k }
{
    let half = n / 2;
    for i in 0..half {
        sums[j * half + i] = four_faces(fluxes, n, i, j);
    }
}

/// The sum over the four faces that make up one.
#[inline(always)]
fn four_faces(fluxes: &[u64], n: usize, i: usize, j: usize) -> u64
    requires even { n % 2 ≡ 0 }
    requires most { n ≤ 16 }
    requires i { i < n / 2 }
    requires j { j < n / 2 }
    requires fluxes { AreFluxes n fluxes.now }
    ensures sum { result ≡ sum_of_four n fluxes.now (j * (n / 2) + i) }
{
    let at = 2 * j * n + 2 * i;
    let first = fluxes[at] + fluxes[at + 1];
    first + fluxes[at + n] + fluxes[at + n + 1]
}

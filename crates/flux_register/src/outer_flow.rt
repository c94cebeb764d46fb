//! What flows out of the domain.

ghost use Rattle.std.specs.Prelude.{◌≡◌, ℕ, ◌^◌, ◌<◌, ◌≤◌, slice_index, sum};
ghost use Rattle.block_fields.specs.States.{total};
ghost use Rattle.grid_fluxes.specs.BoundaryFlows.{out};
ghost use Rattle.grid_fluxes.specs.Fluxes.{Fluxes};
ghost use Rattle.advect.specs.FaceFluxes.{IsSide, fluxes_on};
ghost use Rattle.flux_register.specs.Cells.{state_in};
ghost use Rattle.flux_register.specs.Made.{IsMadeBy};
ghost use Rattle.flux_register.specs.Lemmas.Outward.{Adds, HasRoom, axis_named, out_along, out_of_leaf};

use crate::cell::FluxCell;
use crate::flux_fix::FluxFix;
use crate::outer_sides::{Line, goes_up, is_outer_side, side_along};
use advect::FaceFluxes;
use block_index::{Domain, Place};
use cello_neighbours::Direction;
use phase_core::Quiet;

/// How many fields there are at most.
const FIELDS: usize = 4;

/// What flows out of the phase's domain through its open faces in this advance, for each field, in amounts; 0 for a
/// field that isn't there. It takes no memory.
pub fn outer(quiet: &Quiet<FluxFix>, domain: &Domain) -> [u64; FIELDS]
    requires domain { domain.now ≡ quiet.now.problem.setting.grid }
    requires few { (f : ℕ) → f < quiet.now.problem.setting.fields → total (state_in quiet.now.problem) f ≤ 2 ^ 40 }
    ensures out { (fluxes : Fluxes) (f : ℕ) → IsMadeBy quiet.now.problem fluxes → f < quiet.now.problem.setting.fields →
        slice_index result f ≡ out (state_in quiet.now.problem) fluxes f }
    ensures none { (f : ℕ) → quiet.now.problem.setting.fields ≤ f → slice_index result f ≡ 0 }
{
    let mut sums = [0; FIELDS];
    for cell in quiet.cells() {
        add_leaf(domain, cell, &mut sums);
    }
    sums
}

/// Adds what flows out of a leaf.
fn add_leaf(domain: &Domain, cell: &FluxCell, sums: &mut [u64; FIELDS])
    requires room { HasRoom cell.now.faces.fields (out_of_leaf domain.now cell.now.block.place cell.now.faces) sums.old }
    ensures adds { Adds cell.now.faces.fields (out_of_leaf domain.now cell.now.block.place cell.now.faces) sums.old sums.new }
{
    let place = cell.block().place();
    let faces = cell.faces();
    add_along(domain, place, faces, Line::X, sums);
    add_along(domain, place, faces, Line::Y, sums);
    add_along(domain, place, faces, Line::Z, sums);
}

/// Adds what flows out of a leaf along an axis.
fn add_along(
    domain: &Domain,
    place: Place,
    faces: &FaceFluxes,
    line: Line,
    sums: &mut [u64; FIELDS],
)
    requires room { HasRoom faces.now.fields (λ f. out_along domain.now place faces.now f (axis_named line)) sums.old }
    ensures adds { Adds faces.now.fields (λ f. out_along domain.now place faces.now f (axis_named line)) sums.old sums.new }
{
    let end = goes_up(faces, line);
    if is_outer_side(domain, place, line, end) {
        add_side(faces, side_along(line, end), sums);
    }
}

/// Adds up the fluxes on a side of a leaf.
fn add_side(faces: &FaceFluxes, side: Direction, sums: &mut [u64; FIELDS])
    requires side { IsSide side }
    requires room { HasRoom faces.now.fields (λ f. sum (fluxes_on faces.now f side)) sums.old }
    ensures adds { Adds faces.now.fields (λ f. sum (fluxes_on faces.now f side)) sums.old sums.new }
{
    for field in 0..faces.fields() {
        sums[field as usize] += sum_of(faces.on_side(field, side));
    }
}

/// The sum of some fluxes.
fn sum_of(fluxes: &[u64]) -> u64
    requires fits { sum fluxes.now ≤ 2 ^ 40 }
    ensures sum { result ≡ sum fluxes.now }
{
    fluxes.iter().sum()
}

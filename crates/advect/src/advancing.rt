//! The advance of a block by its own fluxes.
ghost use Rattle.std.specs.Prelude.{◌≡◌, ◌^◌, length};
ghost use Rattle.block_index.specs.Places.{IsInside};
ghost use Rattle.block_fields.specs.Blocks.{IsBlock};
ghost use Rattle.advect.specs.FaceFluxes.{HoldsFluxes};
ghost use Rattle.advect.specs.Flows.{flow_of};
ghost use Rattle.advect.specs.OwnFluxes.{HoldsAtMost, IsProvisional, own_flux};

use crate::face_fluxes::FaceFluxes;
use crate::field_advance::advance_fields;
use crate::flow::stream_along;
use crate::line::Line;
use crate::stream::Streams;
use block_fields::Block;
use params_check::Params;

/// Advances a block by its own fluxes: its amounts become the provisional ones, and the second copy holds what they
/// were. `faces` gets the flux of each outermost face. Nothing is copied but where nothing flows.
pub fn advance(block: &mut Block, params: &Params, faces: &mut FaceFluxes)
    requires place { IsInside params.now.grid block.old.place }
    requires edge { faces.old.edge ≡ block.old.edge }
    requires fields { faces.old.fields ≡ length block.old.amounts }
    requires small { HoldsAtMost (2 ^ 42) block.old }
    ensures provisional { IsProvisional (own_flux (flow_of params.now) params.now.grid block.old) (flow_of params.now).goes_up block.old block.new }
    ensures faces { HoldsFluxes (own_flux (flow_of params.now) params.now.grid block.old) faces.new }
    ensures edge { faces.new.edge ≡ faces.old.edge }
    ensures fields { faces.new.fields ≡ faces.old.fields }
    ensures velocity { faces.new.velocity ≡ params.now.velocity }
    ensures den { faces.new.den ≡ params.now.den }
    ensures limits { IsBlock block.new }
{
    let place = block.place();
    let streams = Streams {
        x: stream_along(place, params, Line::X),
        y: stream_along(place, params, Line::Y),
        z: stream_along(place, params, Line::Z),
    };
    advance_fields(block, streams, &mut faces.low, &mut faces.high);
    faces.velocity = params.velocity();
    faces.den = params.den();
    let _edge = block.edge();
}

//! Places of an array of octrees: a level and three coordinates, their order, which of them touch, and the place one
//! step from another. Also the arithmetic along an axis that these stand on.
//!
//! Every call is total within its conditions and takes no memory. Contracts see a place as a `Cube` and a domain
//! as a `Grid`; these and the definitions of axes, the order and touching stand in `specs/`. Laws about them, such as
//! that the order is total, are the public functions of `laws` and `axis_laws`, whose contracts are the laws.
#![tactic(auto)]

mod axis;
mod axis_laws;
mod containment;
mod domain;
mod laws;
mod next_place;
mod packing;
mod place;
mod standing;
mod touching;
mod wish;

pub use axis::{Stretch, moved_inside, step_along, stretches_meet};
pub use axis_laws::{coordinates_moved_inside, meeting_stretches, steps_along_an_axis};
pub use containment::{covers, inside};
pub use domain::Domain;
pub use laws::{
    ancestors_stand_first, contained_places_stand_together, order_goes_in_steps, order_is_total,
    packing_is_one_to_one, ranks_tell_wishes, touching_is_symmetric,
};
pub use next_place::place_beyond;
pub use place::{CHILDREN, DEEPEST, MOST_TREES, Place};
pub use standing::order;
pub use touching::touch;
pub use wish::{Wish, greater_wish, is_coarser_wish};

//! The leaves around a leaf: which leaves of a mesh touch it, and what covers the place beside it in a direction.
//!
//! They are found by look-ups of places, direction by direction, and not by going through the leaf set. No call takes
//! memory. The definitions of touching and of the place one step away stand in `block_index`, that of the list of
//! touching leaves in `leaf_set`, and those of directions and of covers in `specs/`. Laws about covers are the public
//! functions of `laws`, whose contracts are the laws.
#![tactic(auto)]

mod by_direction;
mod covers;
mod directions;
mod laws;
mod neighbours;
mod touching_list;

pub use by_direction::in_direction;
pub use covers::{Cover, FinerList};
pub use directions::Direction;
pub use laws::{covers_touch, one_cover, one_place_beyond};
pub use neighbours::touching;
pub use touching_list::Touching;

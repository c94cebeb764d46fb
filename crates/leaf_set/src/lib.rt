//! The mesh: a domain and the leaves that tile it, balanced and in order.
//!
//! A `LeafSet` is always such a mesh: contracts see it as a `Tiling`, of which `IsTiling` holds. `LeafSet::from_places`
//! makes one of any list of places that is such a mesh, and else answers the list's first fault, a `LeafFault`. Only
//! making one takes memory. The definitions of meshes, faults, level rules and the next mesh stand in `specs/`.
#![tactic(auto)]

mod bare_places;
mod faults;
mod jump;
mod laws;
mod leaf_fault;
mod level_laws;
mod set;

pub use laws::{faults_of_places, leaves_of_a_mesh, next_mesh_is_a_mesh, root_mesh_is_a_mesh};
pub use leaf_fault::LeafFault;
pub use level_laws::{
    least_solution, next_mesh_is_balanced, places_beside_a_leaf, solutions_of_the_level_rules,
    touching_places,
};
pub use set::LeafSet;

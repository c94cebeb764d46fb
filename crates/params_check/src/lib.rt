//! The parameters of a run, out of the tree of their text.
//!
//! `check` answers the parameters of a tree, or the first fault that three walks meet. A key has one entry in
//! `keys.rt` and one in `specs/Keys.antt`, from which both walks and the values come. What the parameters are, and all
//! limits that `Params` keeps, is `specs/Parameters.antt`; the walks are `specs/Walks.antt`.
#![tactic(auto)]

mod atoms;
mod axis_kind;
mod bounds;
mod cell_counts;
mod checking;
mod criterion;
mod criterion_walk;
mod entries;
mod fault;
mod field_names;
mod forms;
mod group_kind;
mod key_walk;
mod keys;
mod lookup;
mod name_walk;
mod parameter_laws;
mod params;
mod place;
mod shape;
mod shape_walk;
mod slots;
mod together;
mod totals;
mod value_walk;

pub use axis_kind::AxisKind;
pub use checking::check;
pub use criterion::{Criteria, Criterion, Test};
pub use fault::{CheckError, ParamFault, ParamKind};
pub use field_names::Names;
pub use parameter_laws::{a_short_text_is_accepted, accepted_parameters, accepted_text};
pub use params::Params;
pub use shape::{Form, Shape, Shapes};

//! The owners of leaves: which shard of a phase each leaf of a mesh belongs to.
//!
//! `assign` answers a shard for each leaf, in the order of the leaves. Each shard has a run of leaves that follow one
//! another, and every shard has one where there are as many leaves. The definition stands in `specs/Owners.antt`.
#![tactic(auto)]

mod laws;
mod owners;

pub use laws::owners_ascend;
pub use owners::assign;

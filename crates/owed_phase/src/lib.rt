//! Phases whose cells owe messages: on its start a cell sends what it owes, made of its own data, and a receiver puts
//! each message in place once. The laws of a phase are proved here once for all of them.
//! A phase of this form gives a `Plan` and proves the facts of `IsPlan` (specs/Plans.antt). It takes its invariant and
//! its weight from specs/Holds.antt and cites its ten laws from specs/Lemmas/OwingLaws.antt. What stands when nothing
//! is in flight is told by specs/Rest.antt; each phase says by it what its cells are then. The code here are laws alone.
#![tactic(auto)]

mod laws;

pub use laws::{Owes, each_cell_is_done_at_rest, each_message_is_in_one_state};

//! What each field held, holds and has lost over the ends of the domain.
//!
//! A `Ledger` keeps for each of four fields the initial total, the present one, what left in the last cycle, and what
//! has left in all cycles. Its type keeps that the present total and what is gone are the initial total. None of its
//! calls takes memory. The definitions stand in `specs/`.
#![tactic(auto)]

mod ledger;

pub use ledger::Ledger;

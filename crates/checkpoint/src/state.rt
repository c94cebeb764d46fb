//! A state of a run, as a file keeps it.

use amount_ledger::Ledger;
use block_fields::Block;
use leaf_set::LeafSet;
use params_check::Params;

/// The five parts of a run's state: the parameters, the cycle that ended last, the leaves, their blocks in order, and the
/// ledger, in which nothing left in the last cycle.
#[derive(Drop)]
pub struct State {
    pub params: Params,
    pub cycle: u32,
    pub set: LeafSet,
    pub blocks: Vec<Block>,
    pub ledger: Ledger,
}

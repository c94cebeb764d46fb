//! A state of a run, lent.

use amount_ledger::Ledger;
use block_fields::Block;
use leaf_set::LeafSet;
use params_check::Params;

/// The five parts of a run's state, lent: the parameters, the cycle that ended last, the leaves, their blocks in order,
/// and the ledger.
#[derive(Drop)]
pub struct StateView<'a> {
    pub params: &'a Params,
    pub cycle: u32,
    pub set: &'a LeafSet,
    pub blocks: &'a [Block],
    pub ledger: &'a Ledger,
}

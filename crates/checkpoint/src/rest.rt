//! Reading a file from its amounts on.
ghost use Rattle.std.specs.Prelude.{◌≡◌, ℕ, ◌*◌, ◌<◌, ◌≤◌, [], IfErr, IfOk, length, map, slice_index, take};
ghost use Rattle.block_fields.specs.BlockStates.{AreBlocksOf};
ghost use Rattle.block_fields.specs.States.{total};
ghost use Rattle.checkpoint.specs.Lemmas.Stages.{EndsRead, StandsBefore, StandsInFront, told};
ghost use Rattle.checkpoint.specs.Reading.{kept_depth, state_in};
ghost use Rattle.checkpoint.specs.SavedStates.{AreZeroFrom};
ghost use Rattle.checkpoint.specs.declared.part.Part.TheVariants as parts;

use crate::blocks::read_blocks;
use crate::fault::CheckFault;
use crate::reading::truncated;
use crate::state::State;
use crate::sums::{FIELDS, gone, totals};
use amount_ledger::Ledger;
use block_fields::Block;
use leaf_set::LeafSet;
use params_check::Params;
use std::alloc::Global;

/// How many bytes the amounts of so many blocks take.
fn amounts_size(count: usize, fields: u8, n: u16) -> usize
    requires few { count ≤ 8192 }
    requires few_fields { fields ≤ 4 }
    requires most { n ≤ 16 }
    ensures size { result ≡ count * (fields * (8 * (n * n * n))) }
{
    count * (fields as usize * (8 * (n as usize * n as usize * n as usize)))
}

/// Reads a file from its amounts on.
pub fn from_amounts(
    alloc: Global,
    file: &[u8],
    left: &[u8],
    params: Params,
    cycle: u32,
    set: LeafSet,
) -> Result<State, CheckFault>
    requires stands { StandsBefore parts.Amounts file.now (told params cycle set.places [] [] []) left.now }
    requires grid { set.grid ≡ params.grid }
    ensures state { IfOk result (λ s. StandsInFront file.now s []) }
    ensures fault { IfErr result (EndsRead file.now) }
{
    let fields = params.fields().items().len() as u8;
    let size = amounts_size(set.len(), fields, params.block());
    if left.len() < size {
        return Err(truncated(file));
    }
    let (here, after) = left.split_at(size);
    let mut sums = [0; FIELDS];
    let blocks = read_blocks(alloc, set.places(), params.block(), fields, here, &mut sums)?;
    let state = State {
        params,
        cycle,
        set,
        blocks,
        ledger: Ledger::new([0; FIELDS]),
    };
    from_totals(file, after, state, &sums)
}

/// Reads a file from its totals on, where the ledger is still to come.
fn from_totals(file: &[u8], left: &[u8], state: State, sums: &[u128]) -> Result<State, CheckFault>
    requires stands { StandsBefore parts.Totals file.now (told state.params state.cycle state.set.places (map (λ b. b.amounts) state.blocks.items) [] []) left.now }
    requires grid { state.set.grid ≡ state.params.grid }
    requires blocks { AreBlocksOf state.set.places state.params.block (length state.params.fields) kept_depth state.blocks.items }
    requires one_each { length state.params.fields ≤ length sums.now }
    requires sums { (f : ℕ) → f < length state.params.fields → slice_index sums.now f
        ≡ total (state_in (told state.params state.cycle state.set.places (map (λ b. b.amounts) state.blocks.items) [] [])) f }
    ensures state { IfOk result (λ s. StandsInFront file.now s []) }
    ensures fault { IfErr result (EndsRead file.now) }
{
    let fields = state.params.fields().items().len() as u8;
    let size = 8 * fields as usize;
    if left.len() < size {
        return Err(truncated(file));
    }
    let (here, after) = left.split_at(size);
    let total = totals(here, fields, sums)?;
    from_gone(file, after, state, total)
}

/// Reads a file from what has left on, where the ledger is still to come.
fn from_gone(
    file: &[u8],
    left: &[u8],
    state: State,
    total: [u64; FIELDS],
) -> Result<State, CheckFault>
    requires stands { StandsBefore parts.Gone file.now (told state.params state.cycle state.set.places (map (λ b. b.amounts) state.blocks.items) (take (length state.params.fields) total) []) left.now }
    requires grid { state.set.grid ≡ state.params.grid }
    requires blocks { AreBlocksOf state.set.places state.params.block (length state.params.fields) kept_depth state.blocks.items }
    requires no_total { AreZeroFrom (length state.params.fields) total }
    ensures state { IfOk result (λ s. StandsInFront file.now s []) }
    ensures fault { IfErr result (EndsRead file.now) }
{
    let fields = state.params.fields().items().len() as u8;
    let size = 8 * fields as usize;
    if left.len() < size {
        return Err(truncated(file));
    }
    let (here, after) = left.split_at(size);
    let gone = gone(here, fields, &total, &state.params)?;
    let ledger = Ledger::restored(total, gone);
    at_the_end(file, after, State { ledger, ..state })
}

/// Answers the state, where nothing stands after it.
fn at_the_end(file: &[u8], left: &[u8], state: State) -> Result<State, CheckFault>
    requires stands { StandsInFront file.now state left.now }
    ensures state { IfOk result (λ s. StandsInFront file.now s []) }
    ensures fault { IfErr result (EndsRead file.now) }
{
    if left.is_empty() {
        Ok(state)
    } else {
        Err(CheckFault::Trailing {
            at: (file.len() - left.len()) as u64,
        })
    }
}

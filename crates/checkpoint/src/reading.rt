//! Reading a file up to its leaves: a function for what stands after each part.
ghost use Rattle.std.specs.Prelude.{◌≡◌, ◌⊎◌, [], Ok, IfErr, IfOk, length, replicate};
ghost use Rattle.amount_ledger.specs.Ledgers.{restored_ledger};
ghost use Rattle.block_fields.specs.BlockStates.{AreBlocksOf};
ghost use Rattle.leaf_set.specs.declared.leaf_fault.LeafFault.TheVariants as leaf_faults;
ghost use Rattle.checkpoint.specs.Lemmas.Stages.{EndsRead, StandsBefore, StandsInFront, only_text, some_place, told};
ghost use Rattle.checkpoint.specs.Reading.{HasFault, ReadsAs, kept_depth};
ghost use Rattle.checkpoint.specs.SavedStates.{AreZeroFrom, saved};
ghost use Rattle.checkpoint.specs.declared.fault.CheckFault.TheVariants as faults;
ghost use Rattle.checkpoint.specs.declared.part.Part.TheVariants as parts;

use crate::fault::CheckFault;
use crate::front;
use crate::rest::from_amounts;
use crate::state::State;
use crate::text::parameters;
use crate::words::leaves;
use params_check::Params;
use std::alloc::Global;

/// The state of which the bytes are the checkpoint, or the first fault of the bytes.
pub fn read(alloc: Global, bytes: &[u8]) -> Result<State, CheckFault>
    ensures read { IfOk result (λ s. ReadsAs bytes.now (Ok (saved s.params s.cycle s.set.places s.blocks.items s.ledger))) }
    ensures grid { IfOk result (λ s. s.set.grid ≡ s.params.grid) }
    ensures blocks { IfOk result (λ s. AreBlocksOf s.set.places s.params.block (length s.params.fields) kept_depth s.blocks.items) }
    ensures ledger { IfOk result (λ s. s.ledger ≡ restored_ledger s.ledger.total s.ledger.gone) }
    ensures zero { IfOk result (λ s. AreZeroFrom (length s.params.fields) s.ledger.total × AreZeroFrom (length s.params.fields) s.ledger.gone) }
    ensures fault { IfErr result (λ fault. (fault ≡ faults.Memory) ⊎
        ((fault ≡ faults.Leaves leaf_faults.Memory → ⊥) × HasFault bytes.now fault)) }
{
    from_magic(alloc, bytes)
}

/// Reads a file from its beginning on.
fn from_magic(alloc: Global, bytes: &[u8]) -> Result<State, CheckFault>
    ensures state { IfOk result (λ s. StandsInFront bytes.now s []) }
    ensures fault { IfErr result (EndsRead bytes.now) }
{
    if bytes.len() < 8 {
        return Err(truncated(bytes));
    }
    let (here, left) = bytes.split_at(8);
    front::magic(here)?;
    from_version(alloc, bytes, left)
}

/// The fault of a file of which a part isn't there whole.
pub fn truncated(file: &[u8]) -> CheckFault
    ensures fault { result ≡ faults.Truncated (length file.now) }
{
    CheckFault::Truncated {
        at: file.len() as u64,
    }
}

/// Reads a file from its version on.
fn from_version(alloc: Global, file: &[u8], left: &[u8]) -> Result<State, CheckFault>
    requires stands { StandsBefore parts.Version file.now (told (only_text []) 0 [] [] [] []) left.now }
    ensures state { IfOk result (λ s. StandsInFront file.now s []) }
    ensures fault { IfErr result (EndsRead file.now) }
{
    if left.len() < 2 {
        return Err(truncated(file));
    }
    let (here, after) = left.split_at(2);
    front::version(here)?;
    from_text_length(alloc, file, after)
}

/// Reads a file from the length of its text on.
fn from_text_length(alloc: Global, file: &[u8], left: &[u8]) -> Result<State, CheckFault>
    requires stands { StandsBefore parts.TextLength file.now (told (only_text []) 0 [] [] [] []) left.now }
    ensures state { IfOk result (λ s. StandsInFront file.now s []) }
    ensures fault { IfErr result (EndsRead file.now) }
{
    if left.len() < 4 {
        return Err(truncated(file));
    }
    let (here, after) = left.split_at(4);
    let size = front::text_length(here)?;
    from_text(alloc, file, after, size)
}

/// Reads a file from its text on, of which the length is known.
fn from_text(alloc: Global, file: &[u8], left: &[u8], size: u32) -> Result<State, CheckFault>
    requires stands { StandsBefore parts.Text file.now (told (only_text (replicate size 0)) 0 [] [] [] []) left.now }
    ensures state { IfOk result (λ s. StandsInFront file.now s []) }
    ensures fault { IfErr result (EndsRead file.now) }
{
    if left.len() < size as usize {
        return Err(truncated(file));
    }
    let (here, after) = left.split_at(size as usize);
    let params = parameters(alloc, here)?;
    from_cycle(alloc, file, after, params)
}

/// Reads a file from its cycle on.
fn from_cycle(alloc: Global, file: &[u8], left: &[u8], params: Params) -> Result<State, CheckFault>
    requires stands { StandsBefore parts.Cycle file.now (told params 0 [] [] [] []) left.now }
    ensures state { IfOk result (λ s. StandsInFront file.now s []) }
    ensures fault { IfErr result (EndsRead file.now) }
{
    if left.len() < 4 {
        return Err(truncated(file));
    }
    let (here, after) = left.split_at(4);
    let cycle = front::cycle(here)?;
    from_leaf_count(alloc, file, after, params, cycle)
}

/// Reads a file from the number of its leaves on.
fn from_leaf_count(
    alloc: Global,
    file: &[u8],
    left: &[u8],
    params: Params,
    cycle: u32,
) -> Result<State, CheckFault>
    requires stands { StandsBefore parts.LeafCount file.now (told params cycle [] [] [] []) left.now }
    ensures state { IfOk result (λ s. StandsInFront file.now s []) }
    ensures fault { IfErr result (EndsRead file.now) }
{
    if left.len() < 4 {
        return Err(truncated(file));
    }
    let (here, after) = left.split_at(4);
    let count = front::leaf_count(here, params.max_blocks())?;
    from_places(alloc, file, after, params, cycle, count)
}

/// Reads a file from its places on, of which the number is known.
fn from_places(
    alloc: Global,
    file: &[u8],
    left: &[u8],
    params: Params,
    cycle: u32,
    count: u32,
) -> Result<State, CheckFault>
    requires stands { StandsBefore parts.Places file.now (told params cycle (replicate count some_place) [] [] []) left.now }
    ensures state { IfOk result (λ s. StandsInFront file.now s []) }
    ensures fault { IfErr result (EndsRead file.now) }
{
    let size = 8 * count as usize;
    if left.len() < size {
        return Err(truncated(file));
    }
    let (here, after) = left.split_at(size);
    let set = leaves(alloc, here, count as usize, *params.domain())?;
    from_amounts(alloc, file, after, params, cycle, set)
}

//! Laws about what the bytes of a file stand for.
ghost use Rattle.std.specs.Prelude.{◌≡◌, ℕ, ◌<◌, All, List, Ok};
ghost use Rattle.std.specs.declared.result.Result.{Result};
ghost use Rattle.checkpoint.specs.Reading.{IsCheckpoint, ReadsAs};
ghost use Rattle.checkpoint.specs.SavedStates.{SavedState};
ghost use Rattle.checkpoint.specs.Spelling.{bytes_of};
ghost use Rattle.checkpoint.specs.declared.fault.CheckFault.{CheckFault};

use block_index::packing_is_one_to_one;

/// What is written of a state that a file may keep reads as that state, and bytes that read are the one spelling of
/// what they read as.
pub fn written_states_read()
    ensures written_reads { (s : SavedState) → IsCheckpoint s → ReadsAs (bytes_of s) (Ok s) }
    ensures one_spelling { (bytes : List ℕ) (s : SavedState) → ReadsAs bytes (Ok s) → bytes ≡ bytes_of s }
    ensures kept { (bytes : List ℕ) (s : SavedState) → ReadsAs bytes (Ok s) → IsCheckpoint s }
{}

/// The bytes of a file are the spelling of one state at most.
pub fn one_state()
    ensures one_state { (bytes : List ℕ) (s t : SavedState) → ReadsAs bytes (Ok s) → ReadsAs bytes (Ok t) → s ≡ t }
{
    packing_is_one_to_one();
}

/// What the bytes of a file stand for is one: one state, or one fault.
pub fn one_reading()
    ensures one { (bytes : List ℕ) (r q : Result SavedState CheckFault) → ReadsAs bytes r → ReadsAs bytes q → r ≡ q }
{
    packing_is_one_to_one();
}

/// All bytes stand for something.
pub fn each_file_reads()
    ensures exists { (bytes : List ℕ) → All (λ b. b < 256) bytes → (r : Result SavedState CheckFault) × ReadsAs bytes r }
{}

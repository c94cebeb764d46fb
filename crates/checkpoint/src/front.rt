//! The parts of a file before its places, out of their bytes.
ghost use Rattle.std.specs.Prelude.{◌≡◌, ◌≤◌, IfOk, IfErr, codes, length};
ghost use Rattle.params_check.specs.Bounds.{most_cycles};
ghost use Rattle.params_syntax.specs.Limits.{longest};
ghost use Rattle.checkpoint.specs.Reading.{AreNumber, IsPartFault};
ghost use Rattle.checkpoint.specs.SavedStates.{SavedState};
ghost use Rattle.checkpoint.specs.declared.part.Part.TheVariants as parts;

use crate::fault::CheckFault;

/// The most bytes of a parameter text.
const LONGEST: u32 = 65_536;

/// The last cycle that there may be.
const MOST_CYCLES: u32 = 4096;

/// The number of four bytes.
fn word_of(bytes: &[u8]) -> u32
    requires four { length bytes.now ≡ 4 }
    ensures number { AreNumber 4 result bytes.now }
{
    u32::from_be_bytes([bytes[0], bytes[1], bytes[2], bytes[3]])
}

/// The number of two bytes.
fn half_word_of(bytes: &[u8]) -> u16
    requires two { length bytes.now ≡ 2 }
    ensures number { AreNumber 2 result bytes.now }
{
    u16::from_be_bytes([bytes[0], bytes[1]])
}

/// What every checkpoint begins with.
pub fn magic(bytes: &[u8]) -> Result<(), CheckFault>
    ensures sound { IfOk result (λ _. bytes.now ≡ codes "CELLOAMR") }
    ensures fault { IfErr result (λ f. (s : SavedState) → IsPartFault s parts.Magic bytes.now f) }
{
    if bytes == b"CELLOAMR".as_slice() {
        Ok(())
    } else {
        Err(CheckFault::Magic)
    }
}

/// The version, which is 1.
pub fn version(bytes: &[u8]) -> Result<(), CheckFault>
    requires two { length bytes.now ≡ 2 }
    ensures sound { IfOk result (λ _. AreNumber 2 1 bytes.now) }
    ensures fault { IfErr result (λ f. (s : SavedState) → IsPartFault s parts.Version bytes.now f) }
{
    let found = half_word_of(bytes);
    if found == 1 {
        Ok(())
    } else {
        Err(CheckFault::Version { found })
    }
}

/// How many bytes the parameter text has.
pub fn text_length(bytes: &[u8]) -> Result<u32, CheckFault>
    requires four { length bytes.now ≡ 4 }
    ensures number { IfOk result (λ n. AreNumber 4 n bytes.now) }
    ensures sound { IfOk result (λ n. n ≤ longest) }
    ensures fault { IfErr result (λ f. (s : SavedState) → IsPartFault s parts.TextLength bytes.now f) }
{
    let found = word_of(bytes);
    if found <= LONGEST {
        Ok(found)
    } else {
        Err(CheckFault::Params)
    }
}

/// The cycle.
pub fn cycle(bytes: &[u8]) -> Result<u32, CheckFault>
    requires four { length bytes.now ≡ 4 }
    ensures number { IfOk result (λ n. AreNumber 4 n bytes.now) }
    ensures sound { IfOk result (λ n. n ≤ most_cycles) }
    ensures fault { IfErr result (λ f. (s : SavedState) → IsPartFault s parts.Cycle bytes.now f) }
{
    let found = word_of(bytes);
    if found <= MOST_CYCLES {
        Ok(found)
    } else {
        Err(CheckFault::Cycle { found })
    }
}

/// How many leaves there are.
pub fn leaf_count(bytes: &[u8], limit: u32) -> Result<u32, CheckFault>
    requires four { length bytes.now ≡ 4 }
    ensures number { IfOk result (λ n. AreNumber 4 n bytes.now) }
    ensures sound { IfOk result (λ n. n ≤ limit) }
    ensures fault { IfErr result (λ f. (s : SavedState) → s.params.max_blocks ≡ limit → IsPartFault s parts.LeafCount bytes.now f) }
{
    let found = word_of(bytes);
    if found <= limit {
        Ok(found)
    } else {
        Err(CheckFault::Count { found, limit })
    }
}

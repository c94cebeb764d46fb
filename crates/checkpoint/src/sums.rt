//! What a file states of its fields: what is there, and what has left.
ghost use Rattle.std.specs.Prelude.{◌≡◌, ℕ, ◌+◌, ◌*◌, ◌<◌, ◌≤◌, List, IfErr, IfOk, length, slice_index, take};
ghost use Rattle.params_check.specs.Parameters.{total_of};
ghost use Rattle.checkpoint.specs.Lemmas.PartEnds.{IsFirstOff};
ghost use Rattle.checkpoint.specs.Reading.{AreWords};
ghost use Rattle.checkpoint.specs.SavedStates.{AreZeroFrom};
ghost use Rattle.checkpoint.specs.declared.fault.CheckFault.TheVariants as faults;

use crate::blocks::read_numbers;
use crate::fault::CheckFault;
use params_check::Params;

/// How many fields there are at most.
pub const FIELDS: usize = 4;

/// A number for each field, and 0 for those that there aren't.
fn field_numbers(bytes: &[u8], fields: u8) -> [u64; FIELDS]
    requires few { fields ≤ 4 }
    requires whole { length bytes.now ≡ 8 * fields }
    ensures words { AreWords (take fields result) bytes.now }
    ensures zero { AreZeroFrom fields result }
{
    let mut numbers = [0; FIELDS];
    read_numbers(bytes, &mut numbers[..fields as usize]);
    numbers
}

/// The stated totals, which are these sums.
pub fn totals(bytes: &[u8], fields: u8, sums: &[u128]) -> Result<[u64; FIELDS], CheckFault>
    requires few { fields ≤ 4 }
    requires whole { length bytes.now ≡ 8 * fields }
    requires one_each { fields ≤ length sums.now }
    ensures words { IfOk result (λ stated. AreWords (take fields stated) bytes.now) }
    ensures zero { IfOk result (λ stated. AreZeroFrom fields stated) }
    ensures sums { IfOk result (λ stated. (f : ℕ) → f < fields → slice_index stated f ≡ slice_index sums.now f) }
    ensures fault { IfErr result (λ fault. (stated : List ℕ) × (f : ℕ) × IsFirstOff bytes.now stated fields (λ g. slice_index stated g ≡ slice_index sums.now g) f
        × (fault ≡ faults.Total f (slice_index stated f) (slice_index sums.now f))) }
{
    let stated = field_numbers(bytes, fields);
    for f in 0..fields {
        let here = stated[f as usize];
        let summed = sums[f as usize];
        if here as u128 != summed {
            return Err(CheckFault::Total {
                field: f,
                stated: here,
                summed,
            });
        }
    }
    Ok(stated)
}

/// What has left, which makes up the initial totals together with what is there.
pub fn gone(
    bytes: &[u8],
    fields: u8,
    total: &[u64],
    params: &Params,
) -> Result<[u64; FIELDS], CheckFault>
    requires few { fields ≤ 4 }
    requires all { fields ≡ length params.now.fields }
    requires whole { length bytes.now ≡ 8 * fields }
    requires one_each { fields ≤ length total.now }
    ensures words { IfOk result (λ gone. AreWords (take fields gone) bytes.now) }
    ensures zero { IfOk result (λ gone. AreZeroFrom fields gone) }
    ensures balance { IfOk result (λ gone. (f : ℕ) → f < fields → slice_index total.now f + slice_index gone f ≡ total_of params.now f) }
    ensures fault { IfErr result (λ fault. (gone : List ℕ) × (f : ℕ) × IsFirstOff bytes.now gone fields (λ g. slice_index total.now g + slice_index gone g ≡ total_of params.now g) f
        × (fault ≡ faults.Balance f (slice_index total.now f + slice_index gone f) (total_of params.now f))) }
{
    let gone = field_numbers(bytes, fields);
    for f in 0..fields {
        let held = total[f as usize] as u128 + gone[f as usize] as u128;
        let initial = params.initial_total(f);
        if held != initial as u128 {
            return Err(CheckFault::Balance {
                field: f,
                held,
                initial,
            });
        }
    }
    Ok(gone)
}

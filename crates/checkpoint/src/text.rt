//! The parameters of a file's text.
ghost use Rattle.std.specs.Prelude.{◌≡◌, ◌≤◌, ◌↔◌, IfOk, IfErr, IsTrue, length};
ghost use Rattle.params_syntax.specs.Limits.{longest};
ghost use Rattle.checkpoint.specs.Reading.{AreAccepted, IsPartFault};
ghost use Rattle.checkpoint.specs.SavedStates.{SavedState};
ghost use Rattle.checkpoint.specs.Lemmas.PartEnds.{EndsText};
ghost use Rattle.checkpoint.specs.declared.part.Part.TheVariants as parts;

use crate::fault::CheckFault;
use params_check::{CheckError, Params, check};
use std::alloc::Global;

/// The parameters of which the bytes are the canonical text.
pub fn parameters(alloc: Global, bytes: &[u8]) -> Result<Params, CheckFault>
    requires short { length bytes.now ≤ longest }
    ensures sound { IfOk result (λ p. AreAccepted p) }
    ensures text { IfOk result (λ p. p.text ≡ bytes.now) }
    ensures fault { IfErr result (EndsText bytes.now) }
{
    let tree = match params_syntax::read(alloc, bytes) {
        Ok(tree) => tree,
        Err(params_syntax::ReadError::Syntax(_)) => return Err(CheckFault::Params),
        Err(params_syntax::ReadError::Memory) => return Err(CheckFault::Memory),
    };
    let params = match check(alloc, &tree) {
        Ok(params) => params,
        Err(CheckError::Param(_)) => return Err(CheckFault::Params),
        Err(CheckError::Memory) => return Err(CheckFault::Memory),
    };
    if are_same(params.text(), bytes) {
        Ok(params)
    } else {
        Err(CheckFault::Params)
    }
}

/// Whether these are the same bytes.
fn are_same(a: &[u8], b: &[u8]) -> bool
    ensures same { IsTrue result ↔ (a.now ≡ b.now) }
{
    a == b
}

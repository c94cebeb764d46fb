//! The parameters of the source's text.
ghost use Rattle.std.specs.Prelude.{◌≡◌, ◌⊎◌, ◌≤◌, IfOk, IfErr, IsErrOf};
ghost use Rattle.cello_io.specs.Counts.{Rose};
ghost use Rattle.cello_io.specs.Reads.{LostAtMost};
ghost use Rattle.cello_top.specs.Solo.{read_limit};
ghost use Rattle.cello_top.specs.Texts.{HasParameters, HasTextFault};
ghost use Rattle.cello_top.specs.Lemmas.CommandSteps.{ReadParameters, ReadingEnds};

use crate::fault::Fault;
use cello_io::{ReadError, Source, read_all};
use params_check::{CheckError, Params, check};
use std::alloc::Global;

/// One byte more than a parameter text may have.
const READ_LIMIT: usize = 65_537;

/// The parameters of the source's text, which is read to its end, or as far as the limit.
pub fn read_parameters<S: Source>(alloc: Global, source: &mut S) -> Result<Params, Fault>
    ensures found { IfOk result (λ p. ReadParameters (S.left source.old) (S.left source.new) (S.has_ended source.new) p) }
    ensures ended { IfErr result (ReadingEnds (S.left source.old) (S.left source.new) (S.has_ended source.new)) }
    ensures read_most { LostAtMost read_limit (S.left source.old) (S.left source.new) }
    ensures read_cause { IsErrOf result Fault.ReadFault → Rose (S.read_faults source.old) (S.read_faults source.new) }
    ensures read_faults { S.read_faults source.old ≤ S.read_faults source.new }
{
    match read_all(alloc, source, READ_LIMIT) {
        Err(ReadError::Failed) => Err(Fault::ReadFault),
        Err(ReadError::Memory) => Err(Fault::Memory),
        Ok(text) => parameters_of(alloc, &text),
    }
}

/// The parameters of a text.
pub(crate) fn parameters_of(alloc: Global, text: &[u8]) -> Result<Params, Fault>
    ensures found { IfOk result (λ p. HasParameters text.now p) }
    ensures faulty { IfErr result (λ fault. (fault ≡ Fault.Memory) ⊎ HasTextFault text.now fault) }
{
    let tree = match params_syntax::read(alloc, text) {
        Ok(tree) => tree,
        Err(params_syntax::ReadError::Syntax(fault)) => return Err(Fault::Syntax(fault)),
        Err(params_syntax::ReadError::Memory) => return Err(Fault::Memory),
    };
    match check(alloc, &tree) {
        Ok(params) => Ok(params),
        Err(CheckError::Param(fault)) => Err(Fault::Param(fault)),
        Err(CheckError::Memory) => Err(Fault::Memory),
    }
}

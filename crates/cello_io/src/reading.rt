//! Reading to the end.
ghost use Rattle.std.specs.Prelude.{◌≡◌, ◌+◌, ◌<◌, ◌≤◌, IfOk, IfSome, IsErrOf, OnErr, IsTrue, length, take};
ghost use Rattle.std.specs.Io.KnownBytes.{prepend_known, IsAtEnd};
ghost use Rattle.cello_io.specs.Counts.{Rose};
ghost use Rattle.cello_io.specs.Reads.{LostAtMost, StoppedAt};
ghost use Rattle.cello_io.specs.declared.reading.ReadError.TheVariants.{Failed as ReadFailed, Memory as OutOfMemory};

use crate::{Failed, Source};
use std::alloc::{AllocError, Global};

/// How many bytes one read asks for at most.
const CHUNK: usize = 4096;

/// Why a source wasn't read to its end.
#[derive(Debug, Clone, Copy, PartialEq, Eq)]
pub enum ReadError {
    /// A read failed, and the source counted it.
    Failed,
    /// There was no memory for what was read.
    Memory,
}

impl From<Failed> for ReadError {
    ghost from_gives = { λ _ error. error ≡ ReadFailed };

    fn from(_: Failed) -> ReadError {
        ReadError::Failed
    }
}

impl From<AllocError> for ReadError {
    ghost from_gives = { λ _ error. error ≡ OutOfMemory };

    fn from(_: AllocError) -> ReadError {
        ReadError::Memory
    }
}

/// Reads a source to its end, or so many bytes. After an error the bytes that were read are lost.
pub fn read_all<S: Source>(
    alloc: Global,
    source: &mut S,
    limit: usize,
) -> Result<Vec<u8>, ReadError>
    ensures read { IfOk result (λ bytes. S.left source.old ≡ prepend_known bytes.items (S.left source.new)) }
    ensures within { IfOk result (λ bytes. length bytes.items ≤ limit) }
    ensures stopped { IfOk result (λ bytes. StoppedAt limit (S.has_ended source.new) (S.left source.new) bytes.items) }
    ensures told { IfOk result (λ bytes. IfSome (S.left source.old) (λ all. bytes.items ≡ take limit all)) }
    ensures lost { OnErr result (LostAtMost limit (S.left source.old) (S.left source.new)) }
    ensures no_fall { S.read_faults source.old ≤ S.read_faults source.new }
    ensures failed { IsErrOf result ReadError.Failed → Rose (S.read_faults source.old) (S.read_faults source.new) }
{
    let mut bytes = Vec::new(alloc);
    let mut chunk = [0u8; 4096];
    while bytes.len() < limit {
        let room = CHUNK.min(limit - bytes.len());
        if read_more(source, &mut chunk[..room], &mut bytes)? == 0 {
            return Ok(bytes);
        }
    }
    Ok(bytes)
}

// One read into the buffer, whose bytes go to the end of those that were read. It answers how many: 0 at the end.
fn read_more<S: Source>(
    source: &mut S,
    buf: &mut [u8],
    bytes: &mut Vec<u8>,
) -> Result<usize, ReadError>
    requires has_room { 0 < length buf.old }
    // What was read and what is left stay the same bytes.
    ensures read { IfOk result (λ _. prepend_known bytes.old.items (S.left source.old)
        ≡ prepend_known bytes.new.items (S.left source.new)) }
    ensures longer { IfOk result (λ count. length bytes.new.items ≡ length bytes.old.items + count) }
    ensures within { IfOk result (λ count. count ≤ length buf.old) }
    ensures ended { IfOk result (λ count. count ≡ 0 → IsTrue (S.has_ended source.new) × IsAtEnd (S.left source.new)) }
    ensures lost { OnErr result (LostAtMost (length buf.old) (S.left source.old) (S.left source.new)) }
    ensures no_fall { S.read_faults source.old ≤ S.read_faults source.new }
    ensures failed { IsErrOf result ReadError.Failed → Rose (S.read_faults source.old) (S.read_faults source.new) }
{
    let count = source.read_piece(buf)?;
    bytes.extend_from_slice(&buf[..count])?;
    Ok(count)
}

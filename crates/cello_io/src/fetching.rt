//! Fetching a whole file.
ghost use Rattle.std.specs.Prelude.{◌≡◌, ℕ, ◌+◌, ◌<◌, ◌≤◌, IfOk, OnOk, IfSome, IsErrOf, None, [], length};
ghost use Rattle.cello_io.specs.Counts.{Rose};
ghost use Rattle.cello_io.specs.Fetching.{error_of, HasFetched, IsFront, IsThere, OnlyFetched};
ghost use Rattle.cello_io.specs.declared.fetching.FetchError.TheVariants.{Memory as OutOfMemory};

use crate::{FetchFault, Shelf};
use cello_num::Name;
use std::alloc::{AllocError, Global};

/// How many bytes one fetch asks for at most.
const CHUNK: usize = 65_536;

/// Why a file wasn't fetched.
#[derive(Debug, Clone, Copy, PartialEq, Eq)]
pub enum FetchError {
    /// A fetch failed, and the shelf counted it.
    Failed,
    /// There is no file of this name, and the shelf counted an absence.
    Absent,
    /// There was no memory for what was fetched.
    Memory,
}

impl From<FetchFault> for FetchError {
    ghost from_gives = { λ fault error. error ≡ error_of fault };

    fn from(fault: FetchFault) -> FetchError {
        match fault {
            FetchFault::Failed => FetchError::Failed,
            FetchFault::Absent => FetchError::Absent,
        }
    }
}

impl From<AllocError> for FetchError {
    ghost from_gives = { λ _ error. error ≡ OutOfMemory };

    fn from(_: AllocError) -> FetchError {
        FetchError::Memory
    }
}

/// Fetches the past file of a name whole, or so many bytes of it.
pub fn fetch_all<H: Shelf>(
    alloc: Global,
    shelf: &mut H,
    name: Name,
    limit: usize,
) -> Result<Vec<u8>, FetchError>
    requires some { 0 < limit }
    ensures front { IfOk result (λ bytes. HasFetched name limit bytes.items (H.tells shelf.old)) }
    ensures within { IfOk result (λ bytes. length bytes.items ≤ limit) }
    ensures absent { IsErrOf result FetchError.Absent → IfSome (H.tells shelf.old).past (λ past. past name ≡ None) }
    ensures only { OnlyFetched (H.tells shelf.old) (H.tells shelf.new) }
    ensures failed_cause { IsErrOf result FetchError.Failed → Rose (H.tells shelf.old).fetch_faults (H.tells shelf.new).fetch_faults }
    ensures absent_cause { IsErrOf result FetchError.Absent → Rose (H.tells shelf.old).absences (H.tells shelf.new).absences }
{
    let mut bytes = Vec::new(alloc);
    let mut chunk = zeros(alloc, CHUNK)?;
    fetch_on(shelf, name, limit, &mut chunk, &mut bytes)?;
    Ok(bytes)
}

// So many zeros.
fn zeros(alloc: Global, count: usize) -> Result<Vec<u8>, AllocError>
    ensures len { IfOk result (λ zeros. length zeros.items ≡ count) }
{
    vec![in alloc; 0u8; count]
}

// Fetches by the buffer, until the end of the file or so many bytes.
fn fetch_on<H: Shelf>(
    shelf: &mut H,
    name: Name,
    limit: usize,
    chunk: &mut [u8],
    bytes: &mut Vec<u8>,
) -> Result<(), FetchError>
    requires some { 0 < limit }
    requires has_room { 0 < length chunk.old }
    requires empty { bytes.old.items ≡ [] }
    ensures front { OnOk result (HasFetched name limit bytes.new.items (H.tells shelf.old)) }
    ensures within { OnOk result (length bytes.new.items ≤ limit) }
    ensures absent { IsErrOf result FetchError.Absent → IfSome (H.tells shelf.old).past (λ past. past name ≡ None) }
    ensures only { OnlyFetched (H.tells shelf.old) (H.tells shelf.new) }
    ensures failed_cause { IsErrOf result FetchError.Failed → Rose (H.tells shelf.old).fetch_faults (H.tells shelf.new).fetch_faults }
    ensures absent_cause { IsErrOf result FetchError.Absent → Rose (H.tells shelf.old).absences (H.tells shelf.new).absences }
{
    while bytes.len() < limit {
        let room = chunk.len().min(limit - bytes.len());
        if fetch_more(shelf, name, &mut chunk[..room], bytes)? == 0 {
            return Ok(());
        }
    }
    Ok(())
}

// One fetch into the buffer, of what stands behind the bytes that were fetched, at the end of which it puts them. It
// answers how many: 0 at the end of the file.
fn fetch_more<H: Shelf>(
    shelf: &mut H,
    name: Name,
    buf: &mut [u8],
    bytes: &mut Vec<u8>,
) -> Result<usize, FetchError>
    requires has_room { 0 < length buf.old }
    requires front { IsFront name bytes.old.items (H.tells shelf.old) }
    ensures front { IfOk result (λ _. IsFront name bytes.new.items (H.tells shelf.old)) }
    ensures there { IfOk result (λ _. IsThere name (H.tells shelf.old)) }
    ensures longer { IfOk result (λ count. length bytes.new.items ≡ length bytes.old.items + count) }
    ensures within { IfOk result (λ count. count ≤ length buf.old) }
    ensures ended { (limit : ℕ) → IfOk result (λ count. count ≡ 0 → length bytes.new.items ≤ limit → HasFetched name limit bytes.new.items (H.tells shelf.old)) }
    ensures absent { IsErrOf result FetchError.Absent → IfSome (H.tells shelf.old).past (λ past. past name ≡ None) }
    ensures only { OnlyFetched (H.tells shelf.old) (H.tells shelf.new) }
    ensures failed_cause { IsErrOf result FetchError.Failed → Rose (H.tells shelf.old).fetch_faults (H.tells shelf.new).fetch_faults }
    ensures absent_cause { IsErrOf result FetchError.Absent → Rose (H.tells shelf.old).absences (H.tells shelf.new).absences }
{
    let count = shelf.fetch(name, bytes.len() as u64, buf)?;
    bytes.extend_from_slice(&buf[..count])?;
    Ok(count)
}

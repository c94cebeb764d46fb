//! Whole files, fetched from a shelf in memory.
ghost use Rattle.std.specs.Prelude.{◌<◌};

use crate::memory::shelf_with;
use cello_io::{FetchError, fetch_all};
use cello_num::Name;
use std::alloc::Global;

/// So many bytes, which come again after 251.
fn numbers(alloc: Global, count: usize) -> Option<Vec<u8>> {
    let mut numbers = Vec::new(alloc);
    for i in 0..count {
        numbers.push((i % 251) as u8).ok()?;
    }
    Some(numbers)
}

/// Fetches a file of so many bytes, from a shelf whose calls of these numbers fail. It answers how many bytes came, which
/// are the first ones of the file.
fn fetched(
    alloc: Global,
    size: usize,
    limit: usize,
    name: &[u8],
    fails: &[u32],
) -> Option<Result<usize, FetchError>>
    requires some { 0 < limit }
{
    let mut shelf = shelf_with(alloc, numbers(alloc, size)?, 0, fails)?;
    match fetch_all(alloc, &mut shelf, Name::of(name)?, limit) {
        Ok(bytes) if numbers(alloc, size)?.starts_with(&bytes) => Some(Ok(bytes.len())),
        Ok(_) => None,
        Err(error) => Some(Err(error)),
    }
}

#[test]
fn a_file_is_fetched_whole(rt: HostRuntime) {
    let alloc = rt.alloc();
    assert!(rt; fetched(alloc, 0, 9, b"past", &[]) == Some(Ok(0)));
    assert!(rt; fetched(alloc, 6, 9, b"past", &[]) == Some(Ok(6)));
    assert!(rt; fetched(alloc, 6, 5, b"past", &[]) == Some(Ok(5)));
    assert!(rt; fetched(alloc, 65_536, 99_999, b"past", &[]) == Some(Ok(65_536)));
    assert!(rt; fetched(alloc, 140_000, 140_001, b"past", &[]) == Some(Ok(140_000)));
    assert!(rt; fetched(alloc, 140_000, 131_073, b"past", &[]) == Some(Ok(131_073)));
    assert!(rt; fetched(alloc, 6, 9, b"pas", &[]) == Some(Err(FetchError::Absent)));
    assert!(rt; fetched(alloc, 6, 9, b"past", &[1]) == Some(Err(FetchError::Failed)));
    assert!(rt; fetched(alloc, 140_000, 140_001, b"past", &[3]) == Some(Err(FetchError::Failed)));
}

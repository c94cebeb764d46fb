//! Files of a shelf in memory: those that it is handed in with, and those that are made.
ghost use Rattle.std.specs.Prelude.{◌≡◌, ◌-◌, ◌+◌, ◌<◌, ◌^◌, ◌↔◌, All, vec_capacity, IsTrue, IsSome, IfSome, length, take, drop, min};
ghost use Rattle.cello_io.specs.Files.{with_last};
ghost use Rattle.cello_io.specs.StoredFiles.{have_own_names, file_named, longer, complete};

use crate::copying::copy_front;
use cello_num::Name;
use std::marker::Model;

/// The bytes of a file. Contracts see them as a list.
#[derive(Drop)]
pub struct Bytes {
    bytes: Vec<u8>,
}

impl Model for Bytes {
    ghost use Rattle.std.specs.Prelude.{ℕ, List};

    ghost Value = { List ℕ };

    ghost view = { λ b. b.bytes.items };
}

impl Bytes {
    /// These bytes.
    pub fn of(bytes: Vec<u8>) -> Bytes
        ensures items { result ≡ bytes.items }
    {
        Bytes { bytes }
    }

    /// The bytes in order.
    pub fn items(&self) -> &[u8]
        ensures items { result.now ≡ self.now }
    {
        &self.bytes
    }
}

/// A file that a shelf is handed in with.
#[derive(Drop)]
pub struct StoredFile {
    pub name: Name,
    pub bytes: Bytes,
}

/// Files with different names. Contracts see them as a list.
#[derive(Drop)]
pub struct Files {
    files: Vec<StoredFile>,
}

impl Model for Files {
    ghost use Rattle.std.specs.Prelude.{List, IsTrue};
    ghost use Rattle.cello_io.specs.declared.files.StoredFile.{StoredFile};
    ghost use Rattle.cello_io.specs.StoredFiles.{have_own_names};

    ghost Value = { List StoredFile };

    ghost view = { λ f. f.files.items };

    ghost invariant = { λ f. IsTrue (have_own_names f.files.items) };
}

impl Files {
    /// These files.
    pub fn of(files: Vec<StoredFile>) -> Files
        requires different { IsTrue (have_own_names files.items) }
        ensures items { result ≡ files.items }
    {
        Files { files }
    }

    /// The files in order.
    pub fn items(&self) -> &[StoredFile]
        ensures items { result.now ≡ self.now }
        ensures different { IsTrue (have_own_names self.now) }
    {
        &self.files
    }
}

/// A file that was made: its name, where its bytes stand in the room of all of them, and whether it is complete.
#[derive(Debug, Clone, Copy, PartialEq, Eq)]
pub struct WrittenFile {
    pub name: Name,
    pub start: usize,
    pub length: usize,
    pub sealed: bool,
}

// Copies the bytes that stand at `from` in the file of this name to the front of `to`, and answers how many; nothing
// where there is no such file.
pub(crate) fn copy_of_file(
    files: &[StoredFile],
    name: &Name,
    from: u64,
    to: &mut [u8],
) -> Option<usize>
    ensures there { IsSome result ↔ IsSome (file_named files.now name.now) }
    ensures copied { IfSome result (λ count. IfSome (file_named files.now name.now) (λ file. take count to.new ≡ take count (drop from file))) }
    ensures as_many { IfSome result (λ count. IfSome (file_named files.now name.now) (λ file. count ≡ min (length to.new) (length file - from))) }
{
    for file in files {
        if file.name.bytes() == name.bytes() {
            return Some(copy_at(file.bytes.items(), from, to));
        }
    }
    None
}

// Copies the bytes that stand at `from` to the front of `to`, and answers how many.
fn copy_at(bytes: &[u8], from: u64, to: &mut [u8]) -> usize
    ensures count { result ≡ min (length to.new) (length bytes.now - from) }
    ensures copied { take result to.new ≡ take result (drop from bytes.now) }
{
    if from >= bytes.len() as u64 {
        return 0;
    }
    copy_front(&bytes[from as usize..], to)
}

// The last file has so many bytes more.
pub(crate) fn lengthen_last(made: &mut Vec<WrittenFile>, count: usize)
    requires some { 0 < length made.old.items }
    requires fits { All (λ file. file.length + count < 2 ^ 64) made.old.items }
    ensures last { made.new.items ≡ with_last (longer count) made.old.items }
    ensures same_room { vec_capacity made.new ≡ vec_capacity made.old }
{
    let last = made.len() - 1;
    made[last].length += count;
}

// The last file is complete.
pub(crate) fn seal_last(made: &mut Vec<WrittenFile>)
    requires some { 0 < length made.old.items }
    ensures last { made.new.items ≡ with_last complete made.old.items }
    ensures same_room { vec_capacity made.new ≡ vec_capacity made.old }
{
    let last = made.len() - 1;
    made[last].sealed = true;
}

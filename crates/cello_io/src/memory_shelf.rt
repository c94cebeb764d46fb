//! A shelf in memory.
ghost use Rattle.std.specs.Prelude.{◌≡◌, ◌⊎◌, ◌+◌, ◌-◌, ◌^◌, ◌<◌, ◌≤◌, ◌↔◌, [], false, length, min, IfOk, IfSome, IsErr, IsErrOf, IsTrue, IsFalse, Some, None, Contains, vec_capacity};
ghost use Rattle.cello_io.specs.StoredFiles.{file_named, made_files, lie_from, most_files};
ghost use Rattle.cello_io.specs.Files.{is_last_open};

use crate::files::{copy_of_file, lengthen_last, seal_last};
use crate::listed::is_listed;
use crate::{Failed, FetchFault, Files, Shelf, WrittenFile};
use cello_num::{Memory, Name};
use std::alloc::Global;

/// The most files that a shelf in memory makes.
const MOST_FILES: usize = 20_000;

/// Files in memory, room for so many bytes of new ones, and the numbers of the calls that fail, counted from 1. A call
/// that passes the room or the most files fails too, and changes nothing.
#[derive(Drop)]
pub struct MemoryShelf {
    past: Files,
    bytes: Vec<u8>,
    made: Vec<WrittenFile>,
    room: usize,
    fails: Vec<u32>,
    calls: u64,
    write_faults: u64,
    fetch_faults: u64,
    absences: u64,
    ghost lie: { IsTrue (lie_from 0 made.items (length bytes.items)) },
    ghost within_room: { length bytes.items ≤ room },
    ghost reserved: { room ≤ vec_capacity bytes },
    ghost few: { length made.items ≤ most_files },
    ghost entries_reserved: { most_files ≤ vec_capacity made },
}

impl MemoryShelf {
    ghost use Rattle.cello_io.specs.Devices.{shelf_calls, shelf_fails, shelf_room, shelf_bytes, shelf_files};
    ghost use Rattle.cello_io.specs.Files.{new_shelf};

    /// A shelf with these past files and room for so many bytes, whose calls of these numbers fail.
    pub fn new(
        alloc: Global,
        past: Files,
        room: usize,
        fails: Vec<u32>,
    ) -> Result<MemoryShelf, Memory>
        ensures told { IfOk result (λ shelf. ⟦<MemoryShelf as Shelf>⟧.tells shelf ≡ new_shelf (file_named past)) }
        ensures calls { IfOk result (λ shelf. shelf_calls shelf ≡ 0) }
        ensures fails { IfOk result (λ shelf. shelf_fails shelf ≡ fails.items) }
        ensures room { IfOk result (λ shelf. shelf_room shelf ≡ room) }
        ensures empty { IfOk result (λ shelf. (shelf_bytes shelf ≡ []) × (shelf_files shelf ≡ [])) }
    {
        Ok(MemoryShelf {
            past,
            bytes: Vec::with_capacity(alloc, room)?,
            made: Vec::with_capacity(alloc, MOST_FILES)?,
            room,
            fails,
            calls: 0,
            write_faults: 0,
            fetch_faults: 0,
            absences: 0,
        })
    }

    /// The files that were made, which lie one after another in the room.
    pub fn written(&self) -> &[WrittenFile]
        ensures files { result.now ≡ shelf_files self.now }
        ensures told { (⟦<MemoryShelf as Shelf>⟧.tells self.now).written ≡ Some (made_files (shelf_bytes self.now) result.now) }
        ensures lie { IsTrue (lie_from 0 result.now (length (shelf_bytes self.now))) }
    {
        &self.made
    }

    /// The bytes of all files that were made, one file after another.
    pub fn bytes(&self) -> &[u8]
        ensures bytes { result.now ≡ shelf_bytes self.now }
    {
        &self.bytes
    }
}

impl Shelf for MemoryShelf {
    ghost use Rattle.std.proofs.Common.{refl};
    ghost use Rattle.cello_io.specs.Devices.{shelf_calls, shelf_fails, shelf_room, shelf_bytes, shelf_files, shelf_past, passes_shelf};
    ghost use Rattle.cello_io.specs.Files.{Creates, Appends, Seals, Fetches, MakesFile, LengthensLast, SealsLast, CountsFetchFault, CountsAbsence};
    ghost use Rattle.cello_io.specs.declared.failed.FetchFault.TheVariants.{Failed as FetchFailed, Absent};

    ghost tells = { λ shelf. record {
      past = Some (file_named shelf.past);
      written = Some (made_files shelf.bytes.items shelf.made.items);
      is_writing = is_last_open (made_files shelf.bytes.items shelf.made.items);
      write_faults = shelf.write_faults;
      fetch_faults = shelf.fetch_faults;
      absences = shelf.absences;
    } };

    ghost open_is_last = { λ shelf. refl };

    fn create(&mut self, name: Name) -> Result<(), Failed>
        requires none_open { IsFalse (⟦<MemoryShelf as Shelf>⟧.tells self.old).is_writing }
        ensures creates { Creates name (⟦<MemoryShelf as Shelf>⟧.tells self.old) (⟦<MemoryShelf as Shelf>⟧.tells self.new) result }
        ensures told { MakesFile name (⟦<MemoryShelf as Shelf>⟧.tells self.old) (⟦<MemoryShelf as Shelf>⟧.tells self.new) result }
        ensures call { shelf_calls self.new ≡ min (shelf_calls self.old + 1) (2 ^ 64 - 1) }
        ensures same_fails { shelf_fails self.new ≡ shelf_fails self.old }
        ensures same_room { shelf_room self.new ≡ shelf_room self.old }
        ensures fails { IsErr result ↔ (Contains (shelf_fails self.old) (shelf_calls self.new) ⊎ (most_files ≤ length (shelf_files self.old))) }
    {
        self.calls = self.calls.saturating_add(1);
        if is_listed(&self.fails, self.calls) || self.made.len() >= MOST_FILES {
            self.write_faults = self.write_faults.saturating_add(1);
            return Err(Failed);
        }
        let file = WrittenFile {
            name,
            start: self.bytes.len(),
            length: 0,
            sealed: false,
        };
        self.made.push(file).unwrap();
        Ok(())
    }

    fn append(&mut self, piece: &[u8]) -> Result<usize, Failed>
        requires one_open { IsTrue (⟦<MemoryShelf as Shelf>⟧.tells self.old).is_writing }
        requires has_bytes { 0 < length piece.now }
        ensures appends { Appends piece.now (⟦<MemoryShelf as Shelf>⟧.tells self.old) (⟦<MemoryShelf as Shelf>⟧.tells self.new) result }
        ensures full { IfOk result (λ count. count ≡ length piece.now) }
        ensures told { LengthensLast piece.now (⟦<MemoryShelf as Shelf>⟧.tells self.old) (⟦<MemoryShelf as Shelf>⟧.tells self.new) result }
        ensures call { shelf_calls self.new ≡ min (shelf_calls self.old + 1) (2 ^ 64 - 1) }
        ensures same_fails { shelf_fails self.new ≡ shelf_fails self.old }
        ensures same_room { shelf_room self.new ≡ shelf_room self.old }
        ensures fails { IsErr result ↔ (Contains (shelf_fails self.old) (shelf_calls self.new) ⊎ passes_shelf self.old piece.now) }
    {
        self.calls = self.calls.saturating_add(1);
        if is_listed(&self.fails, self.calls) || piece.len() > self.room - self.bytes.len() {
            self.write_faults = self.write_faults.saturating_add(1);
            return Err(Failed);
        }
        self.bytes.extend_from_slice(piece).unwrap();
        lengthen_last(&mut self.made, piece.len());
        Ok(piece.len())
    }

    fn seal(&mut self) -> Result<(), Failed>
        requires one_open { IsTrue (⟦<MemoryShelf as Shelf>⟧.tells self.old).is_writing }
        ensures seals { Seals (⟦<MemoryShelf as Shelf>⟧.tells self.old) (⟦<MemoryShelf as Shelf>⟧.tells self.new) result }
        ensures told { SealsLast (⟦<MemoryShelf as Shelf>⟧.tells self.old) (⟦<MemoryShelf as Shelf>⟧.tells self.new) result }
        ensures call { shelf_calls self.new ≡ min (shelf_calls self.old + 1) (2 ^ 64 - 1) }
        ensures same_fails { shelf_fails self.new ≡ shelf_fails self.old }
        ensures same_room { shelf_room self.new ≡ shelf_room self.old }
        ensures fails { IsErr result ↔ Contains (shelf_fails self.old) (shelf_calls self.new) }
    {
        self.calls = self.calls.saturating_add(1);
        if is_listed(&self.fails, self.calls) {
            self.write_faults = self.write_faults.saturating_add(1);
            return Err(Failed);
        }
        seal_last(&mut self.made);
        Ok(())
    }

    fn fetch(&mut self, name: Name, from: u64, buf: &mut [u8]) -> Result<usize, FetchFault>
        requires has_room { 0 < length buf.old }
        ensures fetches { Fetches name from buf.new (⟦<MemoryShelf as Shelf>⟧.tells self.old) (⟦<MemoryShelf as Shelf>⟧.tells self.new) result }
        ensures as_many { IfOk result (λ count. IfSome (shelf_past self.old name) (λ file. count ≡ min (length buf.new) (length file - from))) }
        ensures same { IfOk result (λ _. ⟦<MemoryShelf as Shelf>⟧.tells self.new ≡ ⟦<MemoryShelf as Shelf>⟧.tells self.old) }
        ensures counted { IsErrOf result FetchFailed → CountsFetchFault (⟦<MemoryShelf as Shelf>⟧.tells self.old) (⟦<MemoryShelf as Shelf>⟧.tells self.new) }
        ensures absence { IsErrOf result Absent → CountsAbsence (⟦<MemoryShelf as Shelf>⟧.tells self.old) (⟦<MemoryShelf as Shelf>⟧.tells self.new) }
        ensures call { shelf_calls self.new ≡ min (shelf_calls self.old + 1) (2 ^ 64 - 1) }
        ensures same_fails { shelf_fails self.new ≡ shelf_fails self.old }
        ensures same_room { shelf_room self.new ≡ shelf_room self.old }
        ensures fails { IsErrOf result FetchFailed ↔ Contains (shelf_fails self.old) (shelf_calls self.new) }
        ensures refused { IsErr result ↔ (Contains (shelf_fails self.old) (shelf_calls self.new) ⊎ (shelf_past self.old name ≡ None)) }
    {
        self.calls = self.calls.saturating_add(1);
        if is_listed(&self.fails, self.calls) {
            self.fetch_faults = self.fetch_faults.saturating_add(1);
            return Err(FetchFault::Failed);
        }
        match copy_of_file(self.past.items(), &name, from, buf) {
            Some(count) => Ok(count),
            None => {
                self.absences = self.absences.saturating_add(1);
                Err(FetchFault::Absent)
            }
        }
    }
}

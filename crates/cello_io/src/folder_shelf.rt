//! Files in a folder of the system. They tell no bytes.
ghost use Rattle.std.specs.Prelude.{◌≡◌, ◌<◌, ◌≤◌, false, None, IfOk, IsErrOf, IsTrue, IsFalse, is_some, length};
ghost use Rattle.cello_io.specs.Counts.{CountsErrors};
ghost use Rattle.cello_io.specs.Files.{untold, Creates, Appends, Seals, Fetches, CountsFetchFault, CountsAbsence};

use crate::standard::taken;
use crate::{Failed, FetchFault, Shelf};
use cello_num::Name;
use std::fs::File;
use std::io::{ErrorKind, Write};
use std::os::unix::fs::FileExt;
use std::{fs, io};

/// What stands behind the name of a file that isn't whole yet. No file of the product ends so.
const UNFINISHED: &str = ".unfinished";

// A file that is being written, and the name that it is to have.
#[derive(Drop)]
struct Draft {
    name: Name,
    file: File,
}

/// The files of a folder. A file is written beside its name, and gets it when it is sealed: until then whatever had
/// this name before stays.
#[derive(Drop)]
pub struct FolderShelf<'a> {
    rt: &'a HostRuntime,
    folder: &'a str,
    draft: Option<Draft>,
    write_faults: u64,
    fetch_faults: u64,
    absences: u64,
}

impl<'a> FolderShelf<'a> {
    /// The shelf of a folder, on which no call has failed yet.
    pub fn new(rt: &'a HostRuntime, folder: &'a str) -> FolderShelf<'a>
        ensures told { ⟦<FolderShelf<'a> as Shelf>⟧.tells result ≡ untold false 0 0 0 }
    {
        FolderShelf {
            rt,
            folder,
            draft: None,
            write_faults: 0,
            fetch_faults: 0,
            absences: 0,
        }
    }
}

impl<'a> Shelf for FolderShelf<'a> {
    ghost use Rattle.cello_io.specs.declared.failed.FetchFault.TheVariants.{Failed as FetchFailed, Absent};

    ghost tells = { λ shelf. untold (is_some shelf.draft) shelf.write_faults shelf.fetch_faults shelf.absences };

    ghost open_is_last = { λ shelf. tt };

    fn create(&mut self, name: Name) -> Result<(), Failed>
        requires none_open { IsFalse (⟦<FolderShelf<'a> as Shelf>⟧.tells self.old).is_writing }
        ensures creates { Creates name (⟦<FolderShelf<'a> as Shelf>⟧.tells self.old) (⟦<FolderShelf<'a> as Shelf>⟧.tells self.new) result }
        ensures counted { CountsErrors (⟦<FolderShelf<'a> as Shelf>⟧.tells self.old).write_faults (⟦<FolderShelf<'a> as Shelf>⟧.tells self.new).write_faults result }
    {
        match begin(self.rt, self.folder, &name) {
            Ok(file) => {
                self.draft = Some(Draft { name, file });
                Ok(())
            }
            Err(_) => {
                self.write_faults = self.write_faults.saturating_add(1);
                Err(Failed)
            }
        }
    }

    fn append(&mut self, piece: &[u8]) -> Result<usize, Failed>
        requires one_open { IsTrue (⟦<FolderShelf<'a> as Shelf>⟧.tells self.old).is_writing }
        requires has_bytes { 0 < length piece.now }
        ensures appends { Appends piece.now (⟦<FolderShelf<'a> as Shelf>⟧.tells self.old) (⟦<FolderShelf<'a> as Shelf>⟧.tells self.new) result }
        ensures counted { CountsErrors (⟦<FolderShelf<'a> as Shelf>⟧.tells self.old).write_faults (⟦<FolderShelf<'a> as Shelf>⟧.tells self.new).write_faults result }
    {
        taken(write_to(&self.draft, piece), &mut self.write_faults)
    }

    fn seal(&mut self) -> Result<(), Failed>
        requires one_open { IsTrue (⟦<FolderShelf<'a> as Shelf>⟧.tells self.old).is_writing }
        ensures seals { Seals (⟦<FolderShelf<'a> as Shelf>⟧.tells self.old) (⟦<FolderShelf<'a> as Shelf>⟧.tells self.new) result }
        ensures counted { CountsErrors (⟦<FolderShelf<'a> as Shelf>⟧.tells self.old).write_faults (⟦<FolderShelf<'a> as Shelf>⟧.tells self.new).write_faults result }
    {
        match finish(self.rt, self.folder, self.draft.take()) {
            Ok(()) => Ok(()),
            Err(_) => {
                self.write_faults = self.write_faults.saturating_add(1);
                Err(Failed)
            }
        }
    }

    fn fetch(&mut self, name: Name, from: u64, buf: &mut [u8]) -> Result<usize, FetchFault>
        requires has_room { 0 < length buf.old }
        ensures fetches { Fetches name from buf.new (⟦<FolderShelf<'a> as Shelf>⟧.tells self.old) (⟦<FolderShelf<'a> as Shelf>⟧.tells self.new) result }
        ensures same { IfOk result (λ _. ⟦<FolderShelf<'a> as Shelf>⟧.tells self.new ≡ ⟦<FolderShelf<'a> as Shelf>⟧.tells self.old) }
        ensures counted { IsErrOf result FetchFailed → CountsFetchFault (⟦<FolderShelf<'a> as Shelf>⟧.tells self.old) (⟦<FolderShelf<'a> as Shelf>⟧.tells self.new) }
        ensures absence { IsErrOf result Absent → CountsAbsence (⟦<FolderShelf<'a> as Shelf>⟧.tells self.old) (⟦<FolderShelf<'a> as Shelf>⟧.tells self.new) }
    {
        match read_at(self.rt, self.folder, &name, from, buf) {
            Ok(count) => Ok(count),
            Err(FetchFault::Failed) => {
                self.fetch_faults = self.fetch_faults.saturating_add(1);
                Err(FetchFault::Failed)
            }
            Err(FetchFault::Absent) => {
                self.absences = self.absences.saturating_add(1);
                Err(FetchFault::Absent)
            }
        }
    }
}

// The path of a name in a folder, and of what stands beside it.
fn path(rt: &HostRuntime, folder: &str, name: &Name, suffix: &str) -> io::Result<String> {
    match str::from_utf8(name.bytes()) {
        Ok(name) => Ok(format!(in rt.alloc(); "{folder}/{name}{suffix}")?),
        Err(_) => Err(io::Error::from(ErrorKind::InvalidInput)),
    }
}

// An empty file beside the name.
fn begin(rt: &HostRuntime, folder: &str, name: &Name) -> io::Result<File> {
    let beside = path(rt, folder, name, UNFINISHED)?;
    File::create(rt, beside.as_str())
}

// Writes a piece to the file that is being written, and answers how many of its bytes were taken.
fn write_to(draft: &Option<Draft>, piece: &[u8]) -> io::Result<usize>
    ensures within { IfOk result (λ count. count ≤ length piece.now) }
{
    match draft {
        Some(draft) => {
            let mut file = &draft.file;
            file.write(piece)
        }
        None => Err(io::Error::from(ErrorKind::InvalidInput)),
    }
}

// Gives a file its name, once its bytes are on the disk; then the folder knows the name for good.
fn finish(rt: &HostRuntime, folder: &str, draft: Option<Draft>) -> io::Result<()> {
    match draft {
        Some(Draft { name, file }) => {
            file.sync_all()?;
            let beside = path(rt, folder, &name, UNFINISHED)?;
            let whole = path(rt, folder, &name, "")?;
            fs::rename(rt, beside.as_str(), whole.as_str())?;
            File::open(rt, folder)?.sync_all()
        }
        None => Err(io::Error::from(ErrorKind::InvalidInput)),
    }
}

// Reads bytes of the file of a name. It is absent where opening it answers that there is none.
fn read_at(
    rt: &HostRuntime,
    folder: &str,
    name: &Name,
    from: u64,
    buf: &mut [u8],
) -> Result<usize, FetchFault>
    ensures within { IfOk result (λ count. count ≤ length buf.new) }
{
    match path(rt, folder, name, "") {
        Ok(path) => match File::open(rt, path.as_str()) {
            Ok(file) => match file.read_at(buf, from) {
                Ok(count) => Ok(count),
                Err(_) => Err(FetchFault::Failed),
            },
            Err(error) => Err(fault_of(&error)),
        },
        Err(_) => Err(FetchFault::Failed),
    }
}

// Why a file couldn't be opened.
fn fault_of(error: &io::Error) -> FetchFault {
    match error.kind() {
        ErrorKind::NotFound => FetchFault::Absent,
        _ => FetchFault::Failed,
    }
}

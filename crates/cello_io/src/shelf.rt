//! Where files lie.
ghost use Rattle.std.specs.Prelude.{◌≡◌, ◌<◌, IsTrue, IsFalse, length, IfSome};
ghost use Rattle.cello_io.specs.Files.{ShelfTells, is_last_open, Creates, Appends, Seals, Fetches};

use crate::{Failed, FetchFault};
use cello_num::Name;

/// A shelf of files: those that it was handed in with are fetched, and others are made, one at a time.
pub trait Shelf {
    /// What it tells: the past files and the made ones where it can, whether one is being written, and its counts.
    ghost tells: { Self → ShelfTells };

    /// Begins an empty file behind those that were made.
    fn create(&mut self, name: Name) -> Result<(), Failed>
        requires none_open { IsFalse (tells self.old).is_writing }
        ensures creates { Creates name (tells self.old) (tells self.new) result };

    /// Appends the first bytes of `piece` to the file that is being written, at least one, and answers how many.
    fn append(&mut self, piece: &[u8]) -> Result<usize, Failed>
        requires one_open { IsTrue (tells self.old).is_writing }
        requires has_bytes { 0 < length piece.now }
        ensures appends { Appends piece.now (tells self.old) (tells self.new) result };

    /// Marks the file that is being written as complete.
    fn seal(&mut self) -> Result<(), Failed>
        requires one_open { IsTrue (tells self.old).is_writing }
        ensures seals { Seals (tells self.old) (tells self.new) result };

    /// Copies the bytes that stand at `from` in the past file of this name to the front of `buf`, and answers how
    /// many: 0 exactly at its end or past it. What stands in `buf` behind them isn't said.
    fn fetch(&mut self, name: Name, from: u64, buf: &mut [u8]) -> Result<usize, FetchFault>
        requires has_room { 0 < length buf.old }
        ensures fetches { Fetches name from buf.new (tells self.old) (tells self.new) result };

    /// Where the made files are told, one is being written exactly where the last of them isn't sealed.
    ghost open_is_last: { (shelf : Self) → IfSome (tells shelf).written (λ files. (tells shelf).is_writing ≡ is_last_open files) };
}

//! Files that are written and read back on any shelf.
ghost use Rattle.std.specs.Prelude.{◌≡◌, IsTrue, IsFalse};

use cello_io::{Shelf, write_all};
use cello_num::Name;
use mesh_output::Pen;

/// Writes a file whole, and answers whether all went well.
pub fn puts<H: Shelf>(shelf: &mut H, name: Name, bytes: &[u8]) -> bool
    requires none_open { IsFalse (H.tells shelf.old).is_writing }
    ensures sealed { IsTrue result → IsFalse (H.tells shelf.new).is_writing }
{
    if shelf.create(name).is_err() || write_all(&mut Pen::on(shelf), bytes).is_err() {
        return false;
    }
    shelf.seal().is_ok()
}

/// Whether a file has these bytes from an offset on, at most 16.
pub fn reads<H: Shelf>(shelf: &mut H, name: Name, from: u64, bytes: &[u8]) -> bool
    ensures writing { (H.tells shelf.new).is_writing ≡ (H.tells shelf.old).is_writing }
{
    let mut buf = [0u8; 16];
    match shelf.fetch(name, from, &mut buf) {
        Ok(count) => &buf[..count] == bytes,
        Err(_) => false,
    }
}

//! The open file of a shelf as a sink.
ghost use Rattle.std.specs.Prelude.{◌≡◌, IsTrue};
ghost use Rattle.std.specs.Option.{option_map};
ghost use Rattle.mesh_output.specs.Pens.{PenRest, last_bytes, around_pen};

use cello_io::{Failed, Shelf, Sink};

/// Writes to the file that is being written on a shelf. Its count of faults is the shelf's of writing.
#[derive(Drop)]
pub struct Pen<'a, H: Shelf> {
    shelf: &'a mut H,
    ghost is_writing: { IsTrue (H.tells shelf.now).is_writing },
}

impl<'a, H: Shelf> Pen<'a, H> {
    /// A pen on a shelf where a file is being written.
    pub fn on(shelf: &'a mut H) -> Pen<'a, H>
        requires one_open { IsTrue (H.tells shelf.old).is_writing }
        ensures written { ⟦<Pen<'a, H> as Sink>⟧.written result ≡ option_map last_bytes (H.tells shelf.old).written }
        ensures rest { ⟦<Pen<'a, H> as Sink>⟧.rest result ≡ record { shelf = shelf.entry.ghost_name; around = around_pen (H.tells shelf.old) } }
        ensures write_faults { ⟦<Pen<'a, H> as Sink>⟧.write_faults result ≡ (H.tells shelf.old).write_faults }
    {
        Pen { shelf }
    }
}

impl<'a, H: Shelf> Sink for Pen<'a, H> {
    ghost use Rattle.mesh_output.specs.Pens.{PenRest, last_bytes, around_pen};
    ghost use Rattle.std.specs.Option.{option_map};

    ghost Rest = { PenRest };

    ghost written = { λ pen. option_map last_bytes (H.tells pen.shelf.now).written };

    ghost rest = { λ pen. record { shelf = pen.shelf.ghost_name; around = around_pen (H.tells pen.shelf.now) } };

    ghost write_faults = { λ pen. (H.tells pen.shelf.now).write_faults };

    fn write_piece(&mut self, piece: &[u8]) -> Result<usize, Failed> {
        self.shelf.append(piece)
    }
}

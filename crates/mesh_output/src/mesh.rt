//! The text of a mesh, and its file.
ghost use Rattle.std.specs.Prelude.{◌≡◌, IsFalse};
ghost use Rattle.cello_io.specs.Counts.{HasCause};
ghost use Rattle.cello_io.specs.Filing.{WritesFile};
ghost use Rattle.cello_io.specs.Writes.{Wrote};
ghost use Rattle.mesh_output.specs.Lines.{mesh_text};

use crate::Pen;
use crate::page::{Page, make_room};
use cello_io::{Failed, Shelf, Sink, write_all};
use cello_num::Name;
use leaf_set::LeafSet;

/// Writes `mesh N`, and a line for each leaf in order: its level and its coordinates.
#[tactic(auto, unfolding(crate::specs::Lines::count_line, crate::specs::Lines::leaf_line, crate::specs::Lines::mesh_text))]
pub fn write_mesh<K: Sink>(set: &LeafSet, sink: &mut K) -> Result<(), Failed>
    ensures wrote { Wrote (K.written sink.old) (K.written sink.new) result (mesh_text set.now.places) }
    ensures same_rest { K.rest sink.new ≡ K.rest sink.old }
    ensures cause { HasCause (K.write_faults sink.old) (K.write_faults sink.new) result }
{
    let mut page = Page::of(b"mesh ");
    page.push_number(set.len() as u32);
    page.push(b"\n");
    for place in set.places() {
        make_room(&mut page, sink)?;
        page.push_place(*place);
        page.push(b"\n");
    }
    write_all(sink, page.bytes())
}

/// Makes the file of a mesh: its text under this name.
pub fn write_mesh_file<H: Shelf>(set: &LeafSet, name: Name, shelf: &mut H) -> Result<(), Failed>
    requires none_open { IsFalse (H.tells shelf.old).is_writing }
    ensures filed { WritesFile name (mesh_text set.now.places) (H.tells shelf.old) (H.tells shelf.new) result }
{
    shelf.create(name)?;
    write_mesh(set, &mut Pen::on(shelf))?;
    shelf.seal()
}

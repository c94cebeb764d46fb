//! The files of a cycle.
ghost use Rattle.std.specs.Prelude.{◌≡◌, ◌≤◌, ◌++◌, IsFalse};
ghost use Rattle.cello_io.specs.Filing.{WritesFile};
ghost use Rattle.checkpoint.specs.SavedStates.{saved};
ghost use Rattle.checkpoint.specs.Spelling.{bytes_of};
ghost use Rattle.run_core.specs.Courses.{totals_of};
ghost use Rattle.run_core.specs.Runs.{AreBlocksFor, blocks_state};
ghost use Rattle.run_report.specs.Actions.{file, where_due, cycle_files, mesh_file, fields_file, state_file};
ghost use Rattle.run_report.specs.FileNames.{state_name};
ghost use Rattle.run_report.specs.Outputs.{MakesFiles};

use crate::due::Due;
use crate::file_name::{fields_name, mesh_name, state_name};
use cello_io::{Failed, Shelf};
use cello_num::Name;
use checkpoint::StateView;
use mesh_output::{Pen, write_fields_file, write_mesh_file};

/// Makes the files of a cycle that are due.
pub fn make_files<H: Shelf>(due: Due, state: &StateView, shelf: &mut H) -> Result<(), Failed>
    requires none_open { IsFalse (H.tells shelf.old).is_writing }
    requires cycle { state.now.cycle ≤ 9999 }
    requires blocks { AreBlocksFor state.now.params.now state.now.set.now.places state.now.blocks.now }
    requires totals { state.now.ledger.now.total ≡ totals_of (blocks_state state.now.params.now state.now.blocks.now) }
    ensures made { MakesFiles (cycle_files state.now.params.now due state.now.cycle (blocks_state state.now.params.now state.now.blocks.now) state.now.ledger.now)
        (H.tells shelf.old) (H.tells shelf.new) result }
{
    make_mesh(due.mesh, state, shelf)?;
    make_amounts(due, state, shelf)
}

/// Makes the file of the mesh where it is due.
fn make_mesh<H: Shelf>(due: bool, state: &StateView, shelf: &mut H) -> Result<(), Failed>
    requires none_open { IsFalse (H.tells shelf.old).is_writing }
    requires cycle { state.now.cycle ≤ 9999 }
    requires blocks { AreBlocksFor state.now.params.now state.now.set.now.places state.now.blocks.now }
    ensures made { MakesFiles (where_due due (mesh_file state.now.cycle (blocks_state state.now.params.now state.now.blocks.now)))
        (H.tells shelf.old) (H.tells shelf.new) result }
{
    if !due {
        return Ok(());
    }
    write_mesh_file(state.set, mesh_name(state.cycle), shelf)
}

/// Makes the files of the amounts that are due: that of the fields, and the checkpoint.
fn make_amounts<H: Shelf>(due: Due, state: &StateView, shelf: &mut H) -> Result<(), Failed>
    requires none_open { IsFalse (H.tells shelf.old).is_writing }
    requires cycle { state.now.cycle ≤ 9999 }
    requires blocks { AreBlocksFor state.now.params.now state.now.set.now.places state.now.blocks.now }
    requires totals { state.now.ledger.now.total ≡ totals_of (blocks_state state.now.params.now state.now.blocks.now) }
    ensures made { MakesFiles
        (where_due due.fields (fields_file state.now.cycle (blocks_state state.now.params.now state.now.blocks.now))
        ++ where_due due.checkpoint (state_file state.now.params.now state.now.cycle (blocks_state state.now.params.now state.now.blocks.now) state.now.ledger.now))
        (H.tells shelf.old) (H.tells shelf.new) result }
{
    make_fields(due.fields, state, shelf)?;
    make_checkpoint(due.checkpoint, state, shelf)
}

/// Makes the file of the fields where it is due.
fn make_fields<H: Shelf>(due: bool, state: &StateView, shelf: &mut H) -> Result<(), Failed>
    requires none_open { IsFalse (H.tells shelf.old).is_writing }
    requires cycle { state.now.cycle ≤ 9999 }
    requires blocks { AreBlocksFor state.now.params.now state.now.set.now.places state.now.blocks.now }
    ensures made { MakesFiles (where_due due (fields_file state.now.cycle (blocks_state state.now.params.now state.now.blocks.now)))
        (H.tells shelf.old) (H.tells shelf.new) result }
{
    if !due {
        return Ok(());
    }
    write_fields_file(
        state.cycle,
        state.set,
        state.blocks,
        fields_name(state.cycle),
        shelf,
    )
}

/// Makes the checkpoint where it is due.
fn make_checkpoint<H: Shelf>(due: bool, state: &StateView, shelf: &mut H) -> Result<(), Failed>
    requires none_open { IsFalse (H.tells shelf.old).is_writing }
    requires cycle { state.now.cycle ≤ 9999 }
    ensures made { MakesFiles (where_due due (file (state_name state.now.cycle)
        (bytes_of (saved state.now.params.now state.now.cycle state.now.set.now.places state.now.blocks.now state.now.ledger.now))))
        (H.tells shelf.old) (H.tells shelf.new) result }
{
    if !due {
        return Ok(());
    }
    write_state_file(state, state_name(state.cycle), shelf)
}

/// Makes the file of a checkpoint: the bytes of a state under this name.
fn write_state_file<H: Shelf>(state: &StateView, name: Name, shelf: &mut H) -> Result<(), Failed>
    requires none_open { IsFalse (H.tells shelf.old).is_writing }
    ensures filed { WritesFile name (bytes_of (saved state.now.params.now state.now.cycle state.now.set.now.places state.now.blocks.now state.now.ledger.now))
        (H.tells shelf.old) (H.tells shelf.new) result }
{
    shelf.create(name)?;
    checkpoint::write(state, &mut Pen::on(shelf))?;
    shelf.seal()
}

//! What is written when a cycle has ended.
ghost use Rattle.std.specs.Prelude.{◌≡◌, ◌≤◌, ◌⊎◌, IsFalse, OnOk, OnErr};
ghost use Rattle.cello_io.specs.Counts.{Rose};
ghost use Rattle.cello_io.specs.Files.{SamePast};
ghost use Rattle.run_core.specs.Courses.{cycle_ended, totals_of};
ghost use Rattle.run_core.specs.Runs.{AreBlocksFor, blocks_state};
ghost use Rattle.run_report.specs.Actions.{actions_of, due_at};
ghost use Rattle.run_report.specs.Outputs.{Acted, output};

use crate::cycle_lines::write_cycle;
use crate::due::Due;
use crate::filing::make_files;
use amount_ledger::Ledger;
use block_fields::Block;
use cello_io::{Failed, Shelf, Sink};
use checkpoint::StateView;
use leaf_set::LeafSet;
use params_check::Params;

/// Writes the lines of a cycle that ended, and then makes the files that are due: the text of the mesh, the file of the
/// fields, the checkpoint. The blocks are those of the set's leaves, in order, and the ledger has their totals. After
/// `Failed` no further call is made on either device.
pub fn emit<K: Sink, H: Shelf>(
    due: Due,
    params: &Params,
    cycle: u32,
    set: &LeafSet,
    blocks: &[Block],
    ledger: &Ledger,
    sink: &mut K,
    shelf: &mut H,
) -> Result<(), Failed>
    requires none_open { IsFalse (H.tells shelf.old).is_writing }
    requires due { due ≡ due_at params.now cycle }
    requires cycle { cycle ≤ 9999 }
    requires blocks { AreBlocksFor params.now set.now.places blocks.now }
    requires totals { ledger.now.total ≡ totals_of (blocks_state params.now blocks.now) }
    // All actions of the cycle were done, or a beginning of them.
    ensures acted { Acted (actions_of params.now (cycle_ended cycle (blocks_state params.now blocks.now) ledger.now))
        (output (K.written sink.old) (H.tells shelf.old).written) (output (K.written sink.new) (H.tells shelf.new).written) result }
    ensures none_open { OnOk result (IsFalse (H.tells shelf.new).is_writing) }
    // It fails where a write to the sink failed, and then the shelf is as before, or where a writing call of the shelf failed.
    ensures cause { OnErr result ((Rose (K.write_faults sink.old) (K.write_faults sink.new) × (shelf.new ≡ shelf.old))
        ⊎ Rose (H.tells shelf.old).write_faults (H.tells shelf.new).write_faults) }
    ensures same_rest { K.rest sink.new ≡ K.rest sink.old }
    ensures past { SamePast (H.tells shelf.old) (H.tells shelf.new) }
    ensures sink_faults { K.write_faults sink.old ≤ K.write_faults sink.new }
    ensures shelf_faults { (H.tells shelf.old).write_faults ≤ (H.tells shelf.new).write_faults }
{
    write_cycle(params, cycle, set, ledger, sink)?;
    let state = StateView {
        params,
        cycle,
        set,
        blocks,
        ledger,
    };
    make_files(due, &state, shelf)
}

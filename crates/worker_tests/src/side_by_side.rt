//! Two workers serve each phase of a run side by side.
use crate::calls::{by_one, by_workers, empty_shelf};
use crate::meeting::MeetingGate;
use std::alloc::Global;
use std::sync::Wait;
use std::thread::Threads;

/// Two fields on a periodic array, one cycle.
const TWO_FIELDS: &[u8] =
    b"Mesh { array = [4, 4, 4]; block = 8; max_level = 2; max_blocks = 8192; initial_rounds = 2; }
Field { names = [\"gas\", \"dye\"]; }
Initial {
  slab { shape = \"box\"; field = \"gas\"; low = [4, 4, 4]; high = [12, 12, 12]; amount = 1000; }
  drop { shape = \"ball\"; field = \"dye\"; center = [20, 20, 8]; radius = 2; amount = 300; }
}
Adapt {
  dense { type = \"mass\"; field = \"gas\"; refine = 400; coarsen = 20; }
  edge { type = \"slope\"; field = \"dye\"; refine = 400; coarsen = 100; }
}
Method { velocity = [3, 2, 1]; den = 64; cycles = 1; }
Output { mesh = 40; fields = 40; checkpoint = 20; }
";

/// The phases of the run: a refresh and an adapt in each of three adapt phases, two of which are initial rounds, and the
/// refresh and the flux correction of the cycle.
const PHASES: u64 = 8;

/// The files of cycle 0: a mesh, fields and a checkpoint. After cycle 1 none is due.
const FILES: usize = 3;

/// Whether two workers meet in each phase of the run, and answer as one thread does.
fn two_meet<R: Threads + Wait + Sync>(rt: &R, alloc: Global) -> Option<bool> {
    let gate = MeetingGate::new();
    let two = by_workers(
        rt,
        alloc,
        "run --workers 2",
        TWO_FIELDS,
        empty_shelf(alloc)?,
        &gate,
    )?;
    let one = by_one(alloc, "solo", TWO_FIELDS, empty_shelf(alloc)?)?;
    Some(gate.met(PHASES) && two.agrees(&one, FILES))
}

/// Each worker makes its first visit of a phase once the other one has come to its own.
#[test]
fn two_workers_meet_in_each_phase(rt: HostRuntime) {
    assert!(rt; two_meet(&rt, rt.alloc()) == Some(true));
}

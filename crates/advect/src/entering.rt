//! What comes into a block out of its ghosts.
ghost use Rattle.std.specs.Prelude.{◌≡◌, ℕ, ◌+◌, ◌*◌, ◌^◌, ◌≤◌, ◌<◌, cond, length, slice_index};
ghost use Rattle.advect.specs.Lemmas.Shares.{carried};

use crate::share::Share;

/// The share of each ghost of a row, as what comes through a row of faces.
fn enter_row(ghosts: &[u64], at: usize, faces: &mut [u64], face: usize, wide: usize, share: Share)
    requires ghosts { at + wide ≤ length ghosts.now }
    requires few { length ghosts.now ≤ 8000 }
    requires faces { face + wide ≤ length faces.old }
    requires few_faces { length faces.old ≤ 256 }
    requires small { (i : ℕ) → i < wide → slice_index ghosts.now (at + i) ≤ 2 ^ 42 }
    ensures row { (i : ℕ) → i < wide → slice_index faces.new (face + i) ≡ carried share (slice_index ghosts.now (at + i)) }
    ensures earlier { (k : ℕ) → k < face → slice_index faces.new k ≡ slice_index faces.old k }
{
    for i in 0..wide {
        faces[face + i] = share.of(ghosts[at + i]);
    }
}

/// The share of the ghosts in one layer of each run, as what comes into the run. Through barred faces nothing comes.
pub(crate) fn enter(
    ghosts: &[u64],
    faces: &mut [u64],
    runs: usize,
    depth: usize,
    position: usize,
    wide: usize,
    share: Share,
    barred: bool,
)
    requires position { position < depth }
    requires deepest { depth ≤ 2 }
    requires ghosts { length ghosts.now ≡ runs * depth * wide }
    requires faces { length faces.old ≡ runs * wide }
    requires few_faces { length faces.old ≤ 256 }
    requires few_runs { runs ≤ 256 }
    requires narrow { wide ≤ 256 }
    requires small { (r i : ℕ) → r < runs → i < wide → slice_index ghosts.now ((r * depth + position) * wide + i) ≤ 2 ^ 42 }
    ensures entry { (r i : ℕ) → r < runs → i < wide → slice_index faces.new (r * wide + i) ≡ cond barred 0 (carried share (slice_index ghosts.now ((r * depth + position) * wide + i))) }
{
    let share = share.unless(barred);
    for r in 0..runs {
        enter_row(
            ghosts,
            (r * depth + position) * wide,
            faces,
            r * wide,
            wide,
            share,
        );
    }
}

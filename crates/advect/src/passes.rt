//! Passes over the runs of a field: from layer to layer along an axis.
ghost use Rattle.std.specs.Prelude.{◌≡◌, ℕ, ◌+◌, ◌-◌, ◌*◌, ◌^◌, ◌<◌, ◌≤◌, cond, length, slice_index};
ghost use Rattle.advect.specs.Lemmas.Shares.{carried};
ghost use Rattle.advect.specs.Lemmas.Passes.{base, cell, gives, layer, passed};

use crate::pass::Pass;
use crate::rows::{across_row, along_cell};

/// Moves a share of each amount of a run from layer to layer. `faces` holds what comes into the first layer, and then
/// what leaves the last.
pub(crate) fn across_run(
    amounts: &[u64],
    next: &mut [u64],
    faces: &mut [u64],
    run: usize,
    layers: usize,
    wide: usize,
    pass: Pass,
)
    requires some { 1 ≤ layers }
    requires wide { 1 ≤ wide }
    requires cells { cell layers wide (run + 1) 0 0 ≤ length amounts.now }
    requires same { length next.old ≡ length amounts.now }
    requires most { length amounts.now ≤ 4096 }
    requires faces { (run + 1) * wide ≤ length faces.old }
    requires few { length faces.old ≤ 4096 }
    requires small { (k : ℕ) → slice_index amounts.now k ≤ 2 ^ 42 }
    requires entry { (k : ℕ) → slice_index faces.old k ≤ 2 ^ 42 }
    requires held { (u i : ℕ) → u < layers → i < wide → carried pass.share (slice_index amounts.now (cell layers wide run u i)) ≤ base pass.first amounts.now next.old (cell layers wide run u i) }
    requires fits { (u i : ℕ) → u < layers → i < wide → base pass.first amounts.now next.old (cell layers wide run u i) ≤ 2 ^ 44 }
    ensures moved { (v i : ℕ) → v < layers → i < wide → slice_index next.new (cell layers wide run (layer pass.up layers v) i) ≡ passed pass layers wide run amounts.now next.old faces.old v i }
    ensures leaves { (i : ℕ) → i < wide → slice_index faces.new (run * wide + i) ≡ gives pass layers (layers - 1) (slice_index amounts.now (cell layers wide run (layer pass.up layers (layers - 1)) i)) }
    ensures cells_before { (k : ℕ) → k < cell layers wide run 0 0 → slice_index next.new k ≡ slice_index next.old k }
    ensures cells_after { (k : ℕ) → cell layers wide (run + 1) 0 0 ≤ k → slice_index next.new k ≡ slice_index next.old k }
    ensures faces_before { (k : ℕ) → k < run * wide → slice_index faces.new k ≡ slice_index faces.old k }
    ensures faces_after { (k : ℕ) → (run + 1) * wide ≤ k → slice_index faces.new k ≡ slice_index faces.old k }
{
    for v in 0..layers {
        let at = (run * layers + pass.layer(layers, v)) * wide;
        let share = pass.share_after(layers, v);
        across_row(
            amounts,
            next,
            faces,
            at,
            run * wide,
            wide,
            pass.first,
            share,
        );
    }
}

/// The same along rows of single cells, with what goes on held in one number.
pub(crate) fn along_run(
    amounts: &[u64],
    next: &mut [u64],
    faces: &mut [u64],
    run: usize,
    layers: usize,
    pass: Pass,
)
    requires some { 1 ≤ layers }
    requires cells { cell layers 1 (run + 1) 0 0 ≤ length amounts.now }
    requires same { length next.old ≡ length amounts.now }
    requires most { length amounts.now ≤ 4096 }
    requires faces { run < length faces.old }
    requires small { (k : ℕ) → slice_index amounts.now k ≤ 2 ^ 42 }
    requires entry { (k : ℕ) → slice_index faces.old k ≤ 2 ^ 42 }
    requires held { (u : ℕ) → u < layers → carried pass.share (slice_index amounts.now (cell layers 1 run u 0)) ≤ base pass.first amounts.now next.old (cell layers 1 run u 0) }
    requires fits { (u : ℕ) → u < layers → base pass.first amounts.now next.old (cell layers 1 run u 0) ≤ 2 ^ 44 }
    ensures moved { (v i : ℕ) → v < layers → i < 1 → slice_index next.new (cell layers 1 run (layer pass.up layers v) i) ≡ passed pass layers 1 run amounts.now next.old faces.old v i }
    ensures leaves { (i : ℕ) → i < 1 → slice_index faces.new (run * 1 + i) ≡ gives pass layers (layers - 1) (slice_index amounts.now (cell layers 1 run (layer pass.up layers (layers - 1)) i)) }
    ensures cells_before { (k : ℕ) → k < cell layers 1 run 0 0 → slice_index next.new k ≡ slice_index next.old k }
    ensures cells_after { (k : ℕ) → cell layers 1 (run + 1) 0 0 ≤ k → slice_index next.new k ≡ slice_index next.old k }
    ensures faces_before { (k : ℕ) → k < run → slice_index faces.new k ≡ slice_index faces.old k }
    ensures faces_after { (k : ℕ) → run + 1 ≤ k → slice_index faces.new k ≡ slice_index faces.old k }
{
    let mut carry = faces[run];
    for v in 0..layers {
        let at = run * layers + pass.layer(layers, v);
        let share = pass.share_after(layers, v);
        carry = along_cell(amounts, next, at, carry, pass.first, share);
    }
    faces[run] = carry;
}

/// A pass over one run.
#[inline(always)]
fn pass_run(
    amounts: &[u64],
    next: &mut [u64],
    faces: &mut [u64],
    run: usize,
    layers: usize,
    wide: usize,
    pass: Pass,
)
    requires some { 1 ≤ layers }
    requires wide { 1 ≤ wide }
    requires cells { cell layers wide (run + 1) 0 0 ≤ length amounts.now }
    requires same { length next.old ≡ length amounts.now }
    requires most { length amounts.now ≤ 4096 }
    requires faces { (run + 1) * wide ≤ length faces.old }
    requires few { length faces.old ≤ 4096 }
    requires small { (k : ℕ) → slice_index amounts.now k ≤ 2 ^ 42 }
    requires entry { (k : ℕ) → slice_index faces.old k ≤ 2 ^ 42 }
    requires held { (u i : ℕ) → u < layers → i < wide → carried pass.share (slice_index amounts.now (cell layers wide run u i)) ≤ base pass.first amounts.now next.old (cell layers wide run u i) }
    requires fits { (u i : ℕ) → u < layers → i < wide → base pass.first amounts.now next.old (cell layers wide run u i) ≤ 2 ^ 44 }
    ensures moved { (v i : ℕ) → v < layers → i < wide → slice_index next.new (cell layers wide run (layer pass.up layers v) i) ≡ passed pass layers wide run amounts.now next.old faces.old v i }
    ensures leaves { (i : ℕ) → i < wide → slice_index faces.new (run * wide + i) ≡ gives pass layers (layers - 1) (slice_index amounts.now (cell layers wide run (layer pass.up layers (layers - 1)) i)) }
    ensures cells_before { (k : ℕ) → k < cell layers wide run 0 0 → slice_index next.new k ≡ slice_index next.old k }
    ensures cells_after { (k : ℕ) → cell layers wide (run + 1) 0 0 ≤ k → slice_index next.new k ≡ slice_index next.old k }
    ensures faces_before { (k : ℕ) → k < run * wide → slice_index faces.new k ≡ slice_index faces.old k }
    ensures faces_after { (k : ℕ) → (run + 1) * wide ≤ k → slice_index faces.new k ≡ slice_index faces.old k }
{
    if wide == 1 {
        along_run(amounts, next, faces, run, layers, pass);
    } else {
        across_run(amounts, next, faces, run, layers, wide, pass);
    }
}

/// A pass over all runs of a field. `faces` holds what comes into each run, and then what leaves it.
pub(crate) fn pass_over(
    amounts: &[u64],
    next: &mut [u64],
    faces: &mut [u64],
    runs: usize,
    layers: usize,
    wide: usize,
    pass: Pass,
)
    requires some { 1 ≤ layers }
    requires wide { 1 ≤ wide }
    requires cells { length amounts.now ≡ cell layers wide runs 0 0 }
    requires same { length next.old ≡ length amounts.now }
    requires most { length amounts.now ≤ 4096 }
    requires faces { length faces.old ≡ runs * wide }
    requires small { (k : ℕ) → slice_index amounts.now k ≤ 2 ^ 42 }
    requires entry { (k : ℕ) → slice_index faces.old k ≤ 2 ^ 42 }
    requires held { (k : ℕ) → k < length amounts.now → carried pass.share (slice_index amounts.now k) ≤ base pass.first amounts.now next.old k }
    requires fits { (k : ℕ) → k < length amounts.now → base pass.first amounts.now next.old k ≤ 2 ^ 44 }
    ensures moved { (r v i : ℕ) → r < runs → v < layers → i < wide → slice_index next.new (cell layers wide r (layer pass.up layers v) i) ≡ passed pass layers wide r amounts.now next.old faces.old v i }
    ensures leaves { (r i : ℕ) → r < runs → i < wide → slice_index faces.new (r * wide + i) ≡ gives pass layers (layers - 1) (slice_index amounts.now (cell layers wide r (layer pass.up layers (layers - 1)) i)) }
{
    for r in 0..runs {
        pass_run(amounts, next, faces, r, layers, wide, pass);
    }
}

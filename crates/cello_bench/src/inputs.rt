//! Inputs of a size: parameters, meshes and their blocks.
ghost use Rattle.std.specs.Prelude.{◌≡◌, ℕ, ◌<◌, ◌≤◌, ◌^◌, IfOk, length};
ghost use Rattle.leaf_set.specs.RootMesh.{root_mesh};
ghost use Rattle.prolong_restrict.specs.Families.{FieldsFit};
ghost use Rattle.split_join.specs.Applying.{AreBlocksOfSet, IsNextMesh};

use crate::fault::Fault;
use adapt_core::{Adapt, levels};
use block_fields::Block;
use block_index::Wish;
use cello_num::Memory;
use initial_fill::{fill, initial_totals};
use leaf_set::LeafSet;
use params_check::{CheckError, Params, check};
use params_syntax::{ReadError, Tree, read};
use phase_core::drive;
use sibling_rule::decide;
use split_join::apply;
use std::alloc::Global;

/// A mesh and the blocks of its leaves.
#[derive(Drop)]
pub struct Grid {
    pub set: LeafSet,
    pub blocks: Vec<Block>,
}

/// The names of so many fields, as a list of the parameter language has them.
fn names(fields: u64) -> Result<&'static str, Fault> {
    match fields {
        0 => Ok(""),
        1 => Ok("\"a\""),
        2 => Ok("\"a\", \"b\""),
        3 => Ok("\"a\", \"b\", \"c\""),
        4 => Ok("\"a\", \"b\", \"c\", \"d\""),
        _ => Err(Fault::Words),
    }
}

/// The shapes of a field: a box over the whole domain, and a ball around a place on its diagonal.
fn shapes(alloc: Global, field: &str, middle: u64) -> Result<String, Fault> {
    let radius = middle / 2;
    let center = format!(in alloc; "[{middle}, {middle}, {middle}]")?;
    Ok(format!(in alloc;
        "box_{field} {{ shape = \"box\"; field = \"{field}\"; low = [0, 0, 0]; high = [256, 256, 256]; amount = 9; }}\nball_{field} {{ shape = \"ball\"; field = \"{field}\"; center = {center}; radius = {radius}; amount = 1000; }}\n"
    )?)
}

/// The text of as many trees along each axis, with blocks of this edge, and at most one level above the roots.
fn text(alloc: Global, trees: u64, block: u64, fields: u64, most: u64) -> Result<String, Fault> {
    let mut text = format!(in alloc;
        "Mesh {{ array = [{trees}, {trees}, {trees}]; block = {block}; max_level = 1; max_blocks = {most}; }}\nField {{ names = ["
    )?;
    text.push_str(names(fields)?)?;
    text.push_str("]; }\nInitial {\n")?;
    let middle = trees.saturating_mul(block) / 2;
    for field in ["a", "b", "c", "d"].iter().take(fields as usize) {
        text.push_str(&shapes(alloc, field, middle)?)?;
    }
    text.push_str("}\n")?;
    Ok(text)
}

/// The parameters of a text.
fn accepted(alloc: Global, text: &str) -> Result<Params, Fault> {
    let tree = match read(alloc, text.as_bytes()) {
        Ok(tree) => tree,
        Err(ReadError::Memory) => return Err(Fault::Memory),
        Err(_) => return Err(Fault::Words),
    };
    match check(alloc, &tree) {
        Ok(params) => Ok(params),
        Err(CheckError::Memory) => Err(Fault::Memory),
        Err(_) => Err(Fault::Words),
    }
}

/// Parameters with as many trees along each axis, blocks of this edge and so many fields, and with this many blocks at
/// most.
pub fn parameters(
    alloc: Global,
    trees: u64,
    block: u64,
    fields: u64,
    most: u64,
) -> Result<Params, Fault> {
    let text = text(alloc, trees, block, fields, most)?;
    accepted(alloc, &text)
}

/// The same with one field, whose amounts move along all axes or along x alone.
pub fn flowing(alloc: Global, trees: u64, block: u64, all: bool) -> Result<Params, Fault> {
    let most = trees.saturating_mul(trees).saturating_mul(trees);
    let mut text = text(alloc, trees, block, 1, most)?;
    text.push_str(if all {
        "Method { velocity = [3, 2, 1]; den = 192; }"
    } else {
        "Method { velocity = [3, 0, 0]; den = 192; }"
    })?;
    accepted(alloc, &text)
}

/// The roots and their blocks.
pub fn roots(alloc: Global, params: &Params) -> Result<Grid, Memory>
    ensures blocks { IfOk result (λ grid. AreBlocksOfSet grid.set grid.blocks.items) }
{
    let set = LeafSet::roots(alloc, *params.domain())?;
    let blocks = fill(alloc, params)?;
    initial_totals();
    Ok(Grid { set, blocks })
}

/// The next mesh for these wishes.
fn decided(alloc: Global, set: &LeafSet, wishes: &[Wish]) -> Result<LeafSet, Memory>
    requires one_each { length wishes.now ≡ length set.now.places }
    ensures next { IfOk result (λ next. IsNextMesh set.now next.places) }
    ensures grid { IfOk result (λ next. next.grid ≡ set.now.grid) }
{
    let (problem, cells) = Adapt::begin(alloc, set, wishes)?;
    let quiet = drive(alloc, problem, cells)?;
    let levels = levels(alloc, &quiet)?;
    decide(alloc, set, &levels)
}

/// The next mesh where each leaf has the same wish.
pub fn next_set(alloc: Global, set: &LeafSet, wish: Wish) -> Result<LeafSet, Memory>
    ensures next { IfOk result (λ next. IsNextMesh set.now next.places) }
    ensures grid { IfOk result (λ next. next.grid ≡ set.now.grid) }
{
    let wishes = vec![in alloc; wish; set.len()]?;
    decided(alloc, set, &wishes)
}

/// The next mesh where every eighth leaf wishes to refine, and the others to stay.
pub fn refined_set(alloc: Global, set: &LeafSet) -> Result<LeafSet, Memory>
    ensures next { IfOk result (λ next. IsNextMesh set.now next.places) }
    ensures grid { IfOk result (λ next. next.grid ≡ set.now.grid) }
{
    let mut wishes = vec![in alloc; Wish::Stay; set.len()]?;
    for wish in wishes.iter_mut().step_by(8) {
        *wish = Wish::Refine;
    }
    decided(alloc, set, &wishes)
}

/// The grid of the next mesh.
pub fn moved(alloc: Global, grid: Grid, next: LeafSet) -> Result<Grid, Memory>
    requires blocks { AreBlocksOfSet grid.set grid.blocks.items }
    requires next { IsNextMesh grid.set next.places }
    requires same { next.grid ≡ grid.set.grid }
    ensures blocks { IfOk result (λ grid. AreBlocksOfSet grid.set grid.blocks.items) }
{
    let Grid { set, blocks } = grid;
    let blocks = apply(alloc, blocks, &set, &next)?;
    Ok(Grid { set: next, blocks })
}

/// The roots, or the mesh after every eighth of them was refined.
pub fn grid_of(alloc: Global, params: &Params, refined: bool) -> Result<Grid, Memory>
    ensures blocks { IfOk result (λ grid. AreBlocksOfSet grid.set grid.blocks.items) }
    ensures few { IfOk result (λ grid. FieldsFit grid.blocks.items) }
{
    let grid = roots(alloc, params)?;
    if refined {
        let next = refined_set(alloc, &grid.set)?;
        checked(moved(alloc, grid, next)?)
    } else {
        checked(grid)
    }
}

/// The same grid.
fn checked(grid: Grid) -> Result<Grid, Memory>
    requires blocks { AreBlocksOfSet grid.set grid.blocks.items }
    ensures blocks { IfOk result (λ grid. AreBlocksOfSet grid.set grid.blocks.items) }
    ensures few { IfOk result (λ grid. FieldsFit grid.blocks.items) }
{
    let _domain = grid.set.domain();
    Ok(grid)
}

//! The pieces that a leaf owes.
ghost use Rattle.std.specs.Prelude.{◌≡◌, ℕ, ◌+◌, ◌*◌, ◌%◌, ◌<◌, ◌≤◌, ◌++◌, true, false, Some, IfSome, IfOk, IsNone, length, slice_get};
ghost use Rattle.block_index.specs.Places.{IsInside};
ghost use Rattle.ghost_pieces.specs.Pieces.{AreOwedPieces, most_owed};
ghost use Rattle.ghost_pieces.specs.Lemmas.Counts.{AreFew, count_at, piece_of_size, plane_pieces, reached_pieces, row_pieces};
ghost use Rattle.ghost_pieces.specs.Lemmas.OwedLists.{is_some_step, pieces_between, step_at};

use crate::counts::{Counts, Reach, reach_of};
use crate::piece::Piece;
use block_fields::Block;
use block_index::{Domain, Place};
use cello_neighbours::{Direction, touching};
use cello_num::Memory;
use leaf_set::LeafSet;
use std::alloc::Global;

/// All pieces that the leaf at `at` owes, those to itself among them, with their room and all amounts 0. They are found
/// from the leaf itself and the leaves that touch it, direction by direction.
pub fn empty_pieces(
    alloc: Global,
    block: &Block,
    at: u32,
    set: &LeafSet,
) -> Result<Vec<Piece>, Memory>
    requires leaf { slice_get set.now.places at ≡ Some block.now.place }
    ensures owed { IfOk result (λ pieces. AreOwedPieces set.now.grid block.now.edge block.now.depth (length block.now.amounts) set.now.places at pieces.items) }
    ensures few { IfOk result (λ pieces. length pieces.items ≤ most_owed) }
{
    let beside = touching(set, at as usize);
    let sender = block.place();
    let n = block.edge() as usize;
    let depth = block.depth() as usize;
    let fields = block.fields();
    let mut found = Vec::with_capacity(alloc, beside.len())?;
    add_between(
        alloc,
        n,
        depth,
        fields,
        set.domain(),
        at,
        sender,
        at,
        sender,
        &mut found,
    )?;
    for j in beside.items() {
        add_between(
            alloc,
            n,
            depth,
            fields,
            set.domain(),
            *j,
            set.place(*j as usize),
            at,
            sender,
            &mut found,
        )?;
    }
    Ok(found)
}

/// Adds the pieces that a leaf owes to another, or to itself.
fn add_between(
    alloc: Global,
    n: usize,
    depth: usize,
    fields: u8,
    domain: &Domain,
    j: u32,
    receiver: Place,
    i: u32,
    sender: Place,
    found: &mut Vec<Piece>,
) -> Result<(), Memory>
    requires least { 4 ≤ n }
    requires most { n ≤ 16 }
    requires even { n % 2 ≡ 0 }
    requires some { 0 < depth }
    requires deep { 2 * depth ≤ n }
    requires inside { IsInside domain.now receiver }
    requires near { receiver.level ≤ sender.level + 1 }
    requires far { sender.level ≤ receiver.level + 1 }
    ensures added { IfOk result (λ unit. found.new.items ≡ found.old.items ++ pieces_between domain.now n depth fields j receiver i sender) }
{
    let reach = reach_of(n, depth, domain, receiver, sender);
    let pair = Pair {
        to: j,
        from: i,
        receiver,
        sender,
        fields,
    };
    add_reached(alloc, &pair, &reach, found)?;
    Ok(())
}

/// A leaf, one that owes it pieces, and for how many fields.
#[derive(Debug, Clone, Copy)]
struct Pair {
    to: u32,
    from: u32,
    receiver: Place,
    sender: Place,
    fields: u8,
}

/// Adds the pieces of a pair, by the counts of the steps along the axes.
fn add_reached(
    alloc: Global,
    pair: &Pair,
    reach: &Reach,
    found: &mut Vec<Piece>,
) -> Result<(), Memory>
    requires few_x { AreFew reach.now.x.before reach.now.x.own reach.now.x.after }
    requires few_y { AreFew reach.now.y.before reach.now.y.own reach.now.y.after }
    requires few_z { AreFew reach.now.z.before reach.now.z.own reach.now.z.after }
    ensures added { IfOk result (λ unit. found.new.items ≡ found.old.items ++ reached_pieces pair.now.fields pair.now.to pair.now.receiver pair.now.from pair.now.sender
        (count_at reach.now.x.before reach.now.x.own reach.now.x.after) (count_at reach.now.y.before reach.now.y.own reach.now.y.after)
        (count_at reach.now.z.before reach.now.z.own reach.now.z.after)) }
{
    for z in 0..3 {
        add_plane(alloc, pair, reach.x, reach.y, reach.z.at(z), z, found)?;
    }
    Ok(())
}

/// Adds those of a plane of directions, whose regions are so deep. There are none where that is 0.
fn add_plane(
    alloc: Global,
    pair: &Pair,
    wide: Counts,
    high: Counts,
    deep: usize,
    z: u8,
    found: &mut Vec<Piece>,
) -> Result<(), Memory>
    requires few_x { AreFew wide.before wide.own wide.after }
    requires few_y { AreFew high.before high.own high.after }
    requires few { deep ≤ 16 }
    requires number { z < 3 }
    ensures added { IfOk result (λ unit. found.new.items ≡ found.old.items ++ plane_pieces pair.now.fields pair.now.to pair.now.receiver pair.now.from pair.now.sender
        (count_at wide.before wide.own wide.after) (count_at high.before high.own high.after) deep z) }
{
    if deep == 0 {
        return Ok(());
    }
    for y in 0..3 {
        add_row(alloc, pair, wide, deep * high.at(y), y, z, found)?;
    }
    Ok(())
}

/// Adds those of a row of directions, whose regions have so many rows of cells. There are none where that is 0.
fn add_row(
    alloc: Global,
    pair: &Pair,
    wide: Counts,
    area: usize,
    y: u8,
    z: u8,
    found: &mut Vec<Piece>,
) -> Result<(), Memory>
    requires few_x { AreFew wide.before wide.own wide.after }
    requires few { area ≤ 256 }
    requires number_y { y < 3 }
    requires number_z { z < 3 }
    ensures added { IfOk result (λ unit. found.new.items ≡ found.old.items ++ row_pieces pair.now.fields pair.now.to pair.now.receiver pair.now.from pair.now.sender
        (count_at wide.before wide.own wide.after) area y z) }
{
    if area == 0 {
        return Ok(());
    }
    for x in 0..3 {
        add_piece(alloc, pair, area * wide.at(x), x, y, z, found)?;
    }
    Ok(())
}

/// Adds the piece in a direction whose region has so many cells, if there are any.
fn add_piece(
    alloc: Global,
    pair: &Pair,
    size: usize,
    x: u8,
    y: u8,
    z: u8,
    found: &mut Vec<Piece>,
) -> Result<(), Memory>
    requires few { size ≤ 4096 }
    requires number_x { x < 3 }
    requires number_y { y < 3 }
    requires number_z { z < 3 }
    ensures added { IfOk result (λ unit. found.new.items ≡ found.old.items ++ piece_of_size pair.now.fields pair.now.to pair.now.receiver pair.now.from pair.now.sender
        size (record { x = step_at x; y = step_at y; z = step_at z })) }
{
    if size == 0 {
        return Ok(());
    }
    let Some(d) = direction_of(x, y, z) else {
        return Ok(());
    };
    found.push(Piece::empty(
        alloc,
        pair.to,
        pair.from,
        pair.receiver,
        pair.sender,
        d,
        pair.fields,
        size,
    )?)?;
    Ok(())
}

/// The direction of three steps with numbers, unless it steps nowhere.
fn direction_of(x: u8, y: u8, z: u8) -> Option<Direction>
    requires number_x { x < 3 }
    requires number_y { y < 3 }
    requires number_z { z < 3 }
    ensures value { IfSome result (λ d. d ≡ record { x = step_at x; y = step_at y; z = step_at z }) }
    ensures some { IfSome result (λ d. is_some_step (record { x = step_at x; y = step_at y; z = step_at z }) ≡ true) }
    ensures none { IsNone result → is_some_step (record { x = step_at x; y = step_at y; z = step_at z }) ≡ false }
{
    Direction::new(step_at(x), step_at(y), step_at(z))
}

/// The step with a number of three.
fn step_at(k: u8) -> i8
    requires number { k < 3 }
    ensures step { result ≡ step_at k }
{
    match k {
        0 => -1,
        1 => 0,
        _ => 1,
    }
}

//! Pieces: the amounts of a region on their way.
ghost use Rattle.std.specs.Prelude.{◌≡◌, ℕ, ◌+◌, ◌*◌, ◌%◌, ◌^◌, ◌<◌, ◌≤◌, [], IfOk, length, replicate, slice_index, slice_index_or, slice_range, slice_set};
ghost use Rattle.ghost_pieces.specs.Boxes.{span};
ghost use Rattle.ghost_pieces.specs.Lemmas.Parts.{FitsIn, box_amounts};

use crate::filled_boxes::fill_box;
use crate::parts::Parts;
use block_index::Place;
use cello_neighbours::Direction;
use cello_num::Memory;
use std::alloc::Global;
use std::marker::Model;
use std_alloc::vec::run_mut;

/// The samples of one region of a leaf's ghosts, on their way from the leaf that holds them. The amounts of all fields
/// are one list, field after field, so a piece takes memory once.
#[derive(Drop)]
pub struct Piece {
    to: u32,
    from: u32,
    receiver: Place,
    sender: Place,
    direction: Direction,
    fields: u8,
    /// How many amounts a field has.
    size: usize,
    amounts: Vec<u64>,
}

impl Model for Piece {
    ghost use Rattle.std.specs.Prelude.{◌≡◌, ◌*◌, length, replicate};
    ghost use Rattle.block_fields.specs.Layout.{cut};
    ghost use Rattle.ghost_pieces.specs.Pieces.{PieceState};

    ghost Value = { PieceState };

    ghost view = { λ p. record { region = record { receiver = p.to; sender = p.from; direction = p.direction }; receiver = p.receiver; sender = p.sender; amounts = cut (replicate p.fields p.size) p.amounts.items } };

    ghost invariant = { λ p. length p.amounts.items ≡ p.fields * p.size };
}

impl Piece {
    /// A piece whose amounts are all 0, so many for each field.
    pub(crate) fn empty(
        alloc: Global,
        to: u32,
        from: u32,
        receiver: Place,
        sender: Place,
        direction: Direction,
        fields: u8,
        size: usize,
    ) -> Result<Piece, Memory>
        requires few { size ≤ 4096 }
        ensures zeros { IfOk result (λ piece. piece ≡ record { region = record { receiver = to; sender = from; direction = direction }; receiver = receiver; sender = sender; amounts = replicate fields (replicate size 0) }) }
    {
        Ok(Piece {
            to,
            from,
            receiver,
            sender,
            direction,
            fields,
            size,
            amounts: zeros(alloc, fields as usize * size)?,
        })
    }

    /// The position in the mesh of the leaf whose ghosts these are.
    pub fn to(&self) -> u32
        ensures { result ≡ self.now.region.receiver }
    {
        self.to
    }

    /// The position in the mesh of the leaf that holds the samples.
    pub fn from(&self) -> u32
        ensures { result ≡ self.now.region.sender }
    {
        self.from
    }

    /// The place of the leaf whose ghosts these are.
    pub fn receiver(&self) -> Place
        ensures { result ≡ self.now.receiver }
    {
        self.receiver
    }

    /// The place of the leaf that holds the samples.
    pub fn sender(&self) -> Place
        ensures { result ≡ self.now.sender }
    {
        self.sender
    }

    /// The direction from the receiver.
    pub fn direction(&self) -> Direction
        ensures { result ≡ self.now.region.direction }
    {
        self.direction
    }

    /// How many fields there are.
    pub fn fields(&self) -> usize
        ensures { result ≡ length self.now.amounts }
    {
        self.fields as usize
    }

    /// The amounts of a field, one a cell of the region, x fastest, then y, then z.
    pub fn amounts(&self, field: usize) -> &[u64]
        requires field { field < length self.now.amounts }
        ensures { result.now ≡ slice_index_or self.now.amounts field [] }
    {
        let start = field * self.size;
        part_of(self.amounts.as_slice(), start, start + self.size)
    }

    /// The amounts of a field become the samples of the box that three parts tell, from the sender's amounts.
    pub(crate) fn fill_field(
        &mut self,
        field: usize,
        q: &[u64],
        n: usize,
        level: u8,
        from: u8,
        parts: &Parts,
    )
        requires field { field < length self.old.amounts }
        requires least { 4 ≤ n }
        requires most { n ≤ 16 }
        requires even { n % 2 ≡ 0 }
        requires all { length q.now ≡ n * n * n }
        requires small { (i : ℕ) → slice_index q.now i ≤ 2 ^ 42 }
        requires near { level ≤ from + 1 }
        requires far { from ≤ level + 1 }
        requires some_x { 0 < parts.now.x.count }
        requires some_y { 0 < parts.now.y.count }
        requires some_z { 0 < parts.now.z.count }
        requires x { FitsIn (span n level from) parts.now.x.start parts.now.x.runs parts.now.x.count }
        requires y { FitsIn (span n level from) parts.now.y.start parts.now.y.runs parts.now.y.count }
        requires z { FitsIn (span n level from) parts.now.z.start parts.now.z.runs parts.now.z.count }
        requires size { length (slice_index_or self.old.amounts field []) ≡ parts.now.z.count * parts.now.y.count * parts.now.x.count }
        ensures filled { self.new ≡ record self.old { amounts = slice_set self.old.amounts field (box_amounts n level from q.now parts.now.x.start parts.now.x.runs parts.now.x.count parts.now.y.start parts.now.y.runs parts.now.y.count parts.now.z.start parts.now.z.runs parts.now.z.count) } }
    {
        let start = field * self.size;
        let list = run_mut(&mut self.amounts, start, start + self.size);
        fill_box(q, n, level, from, parts, list);
    }
}

/// A stretch of a list.
fn part_of(list: &[u64], start: usize, end: usize) -> &[u64]
    requires order { start ≤ end }
    requires within { end ≤ length list.now }
    ensures part { result.now ≡ slice_range list.now start end }
{
    &list[start..end]
}

/// A list of zeros.
fn zeros(alloc: Global, length: usize) -> Result<Vec<u64>, Memory>
    ensures zeros { IfOk result (λ list. list.items ≡ replicate length 0) }
{
    Ok(vec![in alloc; 0u64; length]?)
}

//! A block of the refresh phase.

ghost use Rattle.std.specs.Prelude.{◌≡◌, ℕ, ◌+◌, ◌^◌, ◌≤◌, ◌<◌, ◌⊎◌, ◌++◌, ◌∷◌, [], true, IfOk, Some, length, slice_get, sum};
ghost use Rattle.block_fields.specs.Blocks.{IsBlock, amounts_of};
ghost use Rattle.ghost_pieces.specs.Filing.{after_filing, is_filed, with_filed};
ghost use Rattle.ghost_pieces.specs.Pieces.{FitsSize};
ghost use Rattle.ghost_pieces.specs.Regions.{most_regions};
ghost use Rattle.refresh_phase.specs.Cells.{own_cells};
ghost use Rattle.refresh_phase.specs.React.{sent_piece, sent_pieces};
ghost use Rattle.refresh_phase.specs.Lemmas.FirstCells.{IsFirstCell, bare};
ghost use Rattle.refresh_phase.specs.Lemmas.Sending.{CanFill, CanSend};

use crate::header::{Header, headers};
use crate::refresh_msg::RefreshMsg;
use block_fields::Block;
use block_index::Domain;
use cello_num::Memory;
use ghost_pieces::{FiledSet, Piece, empty_pieces, file, fill_piece};
use leaf_set::LeafSet;
use phase_core::{Envelope, Outbox};
use std::alloc::Global;
use std::marker::Model;

/// A block with the pieces that it owes to others and to itself, and the regions of its shell that are filed.
#[derive(Drop)]
pub struct RefreshCell {
    block: Block,
    owes: Vec<Header>,
    filed: FiledSet,
    owed: Vec<Piece>,
    started: bool,
}

impl Model for RefreshCell {
    ghost use Rattle.refresh_phase.specs.Cells.{LeafState};

    ghost Value = { LeafState };

    ghost view = { λ c. record { block = c.block; owes = c.owes.items; filed = c.filed; owed = c.owed.items; started = c.started } };
}

impl RefreshCell {
    ghost use Rattle.std.specs.Prelude.{false};

    /// A cell before anything is handled.
    pub(crate) fn fresh(block: Block, owes: Vec<Header>, owed: Vec<Piece>) -> RefreshCell
        ensures { result ≡ record { block = block; owes = owes.items; filed = []; owed = owed.items; started = false } }
    {
        RefreshCell {
            block,
            owes,
            filed: FiledSet::new(),
            owed,
            started: false,
        }
    }

    /// A cell without the pieces that it owes.
    pub(crate) fn bare(alloc: Global, block: Block) -> RefreshCell
        ensures { result ≡ bare block }
    {
        RefreshCell::fresh(block, Vec::new(alloc), Vec::new(alloc))
    }

    /// Gives a bare cell, which is that of the leaf at `at`, the pieces that it owes, with their room. Where memory is
    /// wanting it stays bare.
    pub(crate) fn take_pieces(
        &mut self,
        alloc: Global,
        set: &LeafSet,
        at: u32,
    ) -> Result<(), Memory>
        requires bare { self.old ≡ bare self.old.block }
        requires leaf { slice_get set.now.places at ≡ Some self.old.block.place }
        requires limits { IsBlock self.old.block }
        ensures first { IfOk result (λ _. IsFirstCell set.now.grid set.now.places at self.new) }
        ensures block { IfOk result (λ _. self.new.block ≡ self.old.block) }
    {
        let owed = empty_pieces(alloc, &self.block, at, set)?;
        let owes = headers(alloc, &owed)?;
        self.owed = owed;
        self.owes = owes;
        Ok(())
    }

    /// The block.
    pub fn block(&self) -> &Block
        ensures block { result.now ≡ self.now.block }
    {
        &self.block
    }

    /// The block, as one's own.
    pub fn into_block(self) -> Block
        ensures block { result ≡ self.block }
    {
        let RefreshCell {
            block,
            owes: _,
            filed: _,
            owed: _,
            started: _,
        } = self;
        block
    }

    /// How many pieces the cell still owes.
    pub(crate) fn owed(&self) -> usize
        ensures { result ≡ length self.now.owed }
    {
        self.owed.len()
    }

    /// Fills and sends all pieces that the cell owes, and has started from then on.
    pub(crate) fn send(&mut self, alloc: Global, domain: &Domain, out: &mut Outbox<RefreshMsg>)
        requires room { length self.old.owed ≤ out.old.spare }
        requires pieces { CanSend domain.now self.old }
        ensures cell { self.new ≡ record self.old { owed = []; started = true } }
        ensures sent { out.new.items ≡ out.old.items ++ sent_pieces domain.now (own_cells self.old.block) self.old.owed }
    {
        let owed = std::mem::replace(&mut self.owed, Vec::new(alloc));
        for piece in owed {
            send_piece(&self.block, domain, piece, out);
        }
        self.started = true;
    }

    /// Files a piece in the shell.
    pub(crate) fn file(&mut self, piece: &Piece)
        requires receiver { piece.now.receiver ≡ self.old.block.place }
        requires fits { FitsSize self.old.block.edge self.old.block.depth (length self.old.block.amounts) piece.now }
        requires room { (length self.old.filed < most_regions) ⊎ (is_filed self.old.filed piece.now.region ≡ true) }
        ensures cell { self.new ≡ record self.old { block = after_filing self.old.filed piece.now self.old.block; filed = with_filed self.old.filed piece.now.region } }
    {
        file(&mut self.block, piece, &mut self.filed);
    }
}

/// Fills a piece and sends it.
fn send_piece(block: &Block, domain: &Domain, mut piece: Piece, out: &mut Outbox<RefreshMsg>)
    requires room { 1 ≤ out.old.spare }
    requires piece { CanFill domain.now block.now piece }
    requires few { (f : ℕ) → sum (amounts_of block.now f) ≤ 2 ^ 42 }
    ensures sent { out.new.items ≡ out.old.items ++ sent_piece domain.now block.now piece ∷ [] }
    ensures spare { out.new.spare + 1 ≡ out.old.spare }
{
    fill_piece(block, domain, &mut piece);
    let to = piece.to();
    out.push(Envelope {
        to,
        msg: RefreshMsg::Piece(piece),
    });
}

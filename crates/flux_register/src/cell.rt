//! A block of the flux correction.

ghost use Rattle.std.specs.Prelude.{◌≡◌, ℕ, ◌+◌, ◌≤◌, ◌<◌, ◌++◌, ◌∷◌, [], true, length};
ghost use Rattle.block_fields.specs.Blocks.{IsBlock, amount_at};
ghost use Rattle.advect.specs.FaceFluxes.{IsSide};
ghost use Rattle.advect.specs.FluxPieces.{StaysWithin, is_behind, reduced};
ghost use Rattle.flux_register.specs.Faces.{opposite};
ghost use Rattle.flux_register.specs.React.{corrected_block, sent_piece, sent_pieces};
ghost use Rattle.flux_register.specs.Lemmas.FirstCells.{bare};
ghost use Rattle.flux_register.specs.Lemmas.Sending.{CanCorrect, CanReduce};

use crate::coarse_face::CoarseFace;
use crate::flux_msg::FluxMsg;
use crate::sides::opposite;
use advect::{FaceFluxes, FluxPiece, correct, reduce};
use block_fields::Block;
use phase_core::{Envelope, Outbox};
use std::alloc::Global;
use std::marker::Model;

/// A block after an advance by its own fluxes, with those through its outermost faces, its faces that have a coarser
/// leaf across, and the pieces that it owes for these.
#[derive(Drop)]
pub struct FluxCell {
    block: Block,
    faces: FaceFluxes,
    owes: Vec<CoarseFace>,
    owed: Vec<FluxPiece>,
    started: bool,
}

impl Model for FluxCell {
    ghost use Rattle.flux_register.specs.Cells.{FluxState};

    ghost Value = { FluxState };

    ghost view = { λ c. record { block = c.block; faces = c.faces; owes = c.owes.items; owed = c.owed.items; started = c.started } };
}

impl FluxCell {
    /// A cell without the pieces that it owes.
    pub(crate) fn bare(alloc: Global, block: Block, faces: FaceFluxes) -> FluxCell
        ensures { result ≡ bare block faces }
    {
        FluxCell {
            block,
            faces,
            owes: Vec::new(alloc),
            owed: Vec::new(alloc),
            started: false,
        }
    }

    /// Gives the cell its faces with a coarser leaf across, and the pieces that it owes for these.
    pub(crate) fn owe(&mut self, owes: Vec<CoarseFace>, owed: Vec<FluxPiece>)
        ensures { self.new ≡ record self.old { owes = owes.items; owed = owed.items } }
    {
        self.owes = owes;
        self.owed = owed;
    }

    /// The block.
    pub fn block(&self) -> &Block
        ensures block { result.now ≡ self.now.block }
    {
        &self.block
    }

    /// The fluxes through the block's outermost faces, by its own advance.
    pub fn faces(&self) -> &FaceFluxes
        ensures faces { result.now ≡ self.now.faces }
    {
        &self.faces
    }

    /// The block, as one's own.
    pub fn into_block(self) -> Block
        ensures block { result ≡ self.block }
    {
        let FluxCell {
            block,
            faces: _,
            owes: _,
            owed: _,
            started: _,
        } = self;
        block
    }

    /// How many pieces the cell still owes.
    pub(crate) fn owed(&self) -> usize
        ensures { result ≡ length self.now.owed }
    {
        self.owed.len()
    }

    /// Sums up and sends all pieces that the cell owes, and has started from then on.
    pub(crate) fn send(&mut self, alloc: Global, out: &mut Outbox<FluxMsg>)
        requires room { length self.old.owed ≤ out.old.spare }
        requires pieces { CanReduce self.old.faces self.old.owed }
        ensures cell { self.new ≡ record self.old { owed = []; started = true } }
        ensures sent { out.new.items ≡ out.old.items ++ sent_pieces self.old.faces self.old.owed }
    {
        let owed = std::mem::replace(&mut self.owed, Vec::new(alloc));
        for piece in owed {
            send_piece(&self.faces, piece, out);
        }
        self.started = true;
    }

    /// Replaces the fluxes through the faces that a piece is for by its sums.
    pub(crate) fn correct(&mut self, piece: &FluxPiece)
        requires fits { CanCorrect self.old piece.now }
        ensures cell { self.new ≡ record self.old { block = corrected_block self.old.faces piece.now self.old.block } }
    {
        correct(&mut self.block, &self.faces, piece);
    }
}

/// Sums a piece up and sends it.
fn send_piece(faces: &FaceFluxes, mut piece: FluxPiece, out: &mut Outbox<FluxMsg>)
    requires room { 1 ≤ out.old.spare }
    requires edge { piece.edge ≡ faces.now.edge }
    requires fields { length piece.sums ≡ faces.now.fields }
    ensures sent { out.new.items ≡ out.old.items ++ sent_piece faces.now piece ∷ [] }
    ensures spare { out.new.spare + 1 ≡ out.old.spare }
{
    let side = piece.side();
    reduce(faces, opposite(side), &mut piece);
    let to = piece.to();
    out.push(Envelope {
        to,
        msg: FluxMsg::Piece(piece),
    });
}

//! Amounts and ghosts at corners, in two fields and at both depths.
ghost use Rattle.std.specs.Prelude.{◌≡◌, ◌≤◌};
ghost use Rattle.block_fields.specs.Blocks.{zero_block};

use block_fields::{Block, ghosts_toward};
use block_index::Place;
use std::process::Abort;
use std::test::Fail;

/// A block of two fields with four cells along an edge, all 0.
fn two_fields(rt: &impl Abort, alloc: std::alloc::Global, depth: u8) -> Block
    requires shallowest { 1 ≤ depth }
    requires deepest { depth ≤ 2 }
    ensures zeros { result ≡ zero_block result.place 4 2 depth }
{
    let place = Place::new(1, 2, 3, 1).expect(rt, "a place");
    Block::new(alloc, place, 4, 2, depth).expect(rt, "memory")
}

#[test]
fn amounts_are_read_back(rt: HostRuntime) -> Result<(), Fail> {
    let mut block = two_fields(&rt, rt.alloc(), 1);
    block.set_amount(0, 3, 0, 0, 1);
    block.set_amount(0, 0, 3, 0, 2);
    block.set_amount(1, 0, 0, 3, 4);
    assert_eq!(rt; block.amount(0, 3, 0, 0), 1);
    assert_eq!(rt; block.amount(0, 0, 0, 3), 0);
    assert_eq!(rt; block.sample_at(1, 0, 0, 3), 4);
    assert_eq!(rt; block.field(0)[3], 1);
    assert_eq!(rt; block.field(0)[12], 2);
    assert_eq!(rt; block.field(1)[48], 4);
    Ok(())
}

#[test]
fn ghosts_are_read_back(rt: HostRuntime) -> Result<(), Fail> {
    let mut block = two_fields(&rt, rt.alloc(), 1);
    block.set_ghost(0, -1, -1, -1, 1);
    block.set_ghost(0, 4, 2, 3, 2);
    block.set_ghost(1, 1, 4, -1, 4);
    assert_eq!(rt; block.sample_at(0, -1, -1, -1), 1);
    assert_eq!(rt; block.sample_at(0, 4, 2, 3), 2);
    assert_eq!(rt; block.sample_at(1, 4, 2, 3), 0);
    assert_eq!(rt; block.sample_at(1, 1, 4, -1), 4);
    assert_eq!(rt; block.ghosts(0, 0)[0], 1);
    assert_eq!(rt; block.ghosts(0, 14)[14], 2);
    assert_eq!(rt; block.ghosts(1, 7)[1], 4);
    Ok(())
}

#[test]
fn two_ghosts_deep(rt: HostRuntime) -> Result<(), Fail> {
    let mut block = two_fields(&rt, rt.alloc(), 2);
    block.set_ghost(1, -2, 0, 0, 1);
    block.set_ghost(1, 5, 5, 5, 2);
    block.ghosts_mut(1, 12)[1] = 4;
    assert_eq!(rt; block.sample_at(1, -2, 0, 0), 1);
    assert_eq!(rt; block.sample_at(1, -1, 0, 0), 4);
    assert_eq!(rt; block.sample_at(1, 5, 5, 5), 2);
    assert_eq!(rt; block.ghosts(1, 26)[7], 2);
    assert_eq!(rt; block.ghosts(1, 26)[6], 0);
    assert_eq!(rt; block.ghosts(1, 13).len(), 0);
    Ok(())
}

#[test]
fn totals_count_no_ghosts(rt: HostRuntime) -> Result<(), Fail> {
    let mut block = two_fields(&rt, rt.alloc(), 1);
    block.set_ghost(0, -1, 0, 0, 1);
    block.field_mut(0)[5] = 2;
    block.set_amount(0, 3, 3, 3, 4);
    assert_eq!(rt; block.total(0), 6);
    assert_eq!(rt; block.total(1), 0);
    Ok(())
}

#[test]
fn copies_are_exchanged(rt: HostRuntime) -> Result<(), Fail> {
    let mut block = two_fields(&rt, rt.alloc(), 1);
    block.set_amount(0, 1, 0, 0, 1);
    block.set_ghost(0, 4, 0, 0, 2);
    let copies = block.copies(0);
    let entering = ghosts_toward(copies.ghosts, 4, 1, 14);
    copies.before[0] = copies.amounts[1] + entering[0];
    block.exchange(0);
    assert_eq!(rt; block.amount(0, 0, 0, 0), 3);
    assert_eq!(rt; block.before(0)[1], 1);
    assert_eq!(rt; block.before(1)[1], 0);
    Ok(())
}

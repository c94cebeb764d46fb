//! Amounts by hand: an empty box, a box past the domain, balls of radius 0 and 1, overlapping shapes, two fields.
use block_fields::Block;
use initial_fill::{fill, root_amount};
use params_check::{Params, check};
use params_syntax::read;
use std::alloc::Global;
use std::test::Fail;

/// Two trees side by side, with four cells along each edge.
const SHAPES: &[u8] = b"Mesh { array = [2, 1, 1]; block = 4; max_level = 0; max_blocks = 2; }
Field { names = [\"gas\", \"dust\"]; }
Initial {
  empty { shape = \"box\"; field = \"gas\"; low = [1, 1, 1]; high = [1, 3, 3]; amount = 5; }
  past { shape = \"box\"; field = \"gas\"; low = [6, 2, 3]; high = [20, 20, 20]; amount = 7; }
  none { shape = \"ball\"; field = \"dust\"; center = [4, 2, 2]; radius = 0; amount = 9; }
  drop { shape = \"ball\"; field = \"dust\"; center = [4, 2, 2]; radius = 1; amount = 3; }
  over { shape = \"box\"; field = \"dust\"; low = [4, 2, 2]; high = [5, 3, 4]; amount = 10; }
}
";

fn parameters(alloc: Global) -> Result<Params, Fail> {
    let tree = read(alloc, SHAPES)?;
    Ok(check(alloc, &tree)?)
}

/// Whether block `i` has an amount at a cell.
fn has(blocks: &[Block], i: usize, field: u8, x: u16, y: u16, z: u16, q: u64) -> bool {
    match blocks.get(i) {
        Some(block) => {
            let n = block.edge();
            field < block.fields() && x < n && y < n && z < n && block.amount(field, x, y, z) == q
        }
        None => false,
    }
}

#[test]
fn amounts_of_root_cells(rt: HostRuntime) -> Result<(), Fail> {
    let params = parameters(rt.alloc())?;
    assert_eq!(rt; root_amount(&params, 0, 1, 1, 1), 0);
    assert_eq!(rt; root_amount(&params, 0, 7, 3, 3), 7);
    assert_eq!(rt; root_amount(&params, 0, 5, 2, 3), 0);
    assert_eq!(rt; root_amount(&params, 1, 3, 1, 2), 3);
    assert_eq!(rt; root_amount(&params, 1, 4, 2, 2), 13);
    assert_eq!(rt; root_amount(&params, 1, 5, 2, 2), 0);
    Ok(())
}

#[test]
fn blocks_of_two_roots(rt: HostRuntime) -> Result<(), Fail> {
    let params = parameters(rt.alloc())?;
    let blocks = fill(rt.alloc(), &params).expect(&rt, "memory");
    assert_eq!(rt; blocks.len(), 2);
    assert!(rt; has(&blocks, 0, 0, 2, 2, 3, 0));
    assert!(rt; has(&blocks, 1, 0, 2, 2, 3, 7));
    assert!(rt; has(&blocks, 1, 0, 3, 3, 2, 0));
    assert!(rt; has(&blocks, 0, 1, 3, 1, 2, 3));
    assert!(rt; has(&blocks, 1, 1, 0, 2, 2, 13));
    assert!(rt; has(&blocks, 1, 1, 0, 2, 3, 10));
    assert!(rt; has(&blocks, 1, 1, 1, 2, 2, 0));
    Ok(())
}

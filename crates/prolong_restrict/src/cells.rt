//! The cells of a block from those of its parent, or of its children.
ghost use Rattle.std.specs.Prelude.{◌≡◌, ℕ, ◌<◌, length, map};
ghost use Rattle.block_fields.specs.Blocks.{BlockState, IsBlock};
ghost use Rattle.block_fields.specs.Divisions.{join_amounts, split_amounts};
ghost use Rattle.prolong_restrict.specs.Families.{AreChildrenOf, FieldsFit, IsChildOf};

use crate::join::join_field;
use crate::split::split_field;
use block_fields::Block;

/// The amounts of child `k` of a block become the parts of the block's amounts: of each cell's eight parts, the parts
/// of the cells that lie in it.
pub fn split_cells(parent: &Block, k: u8, child: &mut Block)
    requires number { k < 8 }
    requires fits { IsChildOf parent.now k child.old }
    ensures parts { child.new ≡ record child.old { amounts = split_amounts child.old.edge child.old.place parent.now.amounts } }
{
    let n = parent.edge() as usize;
    for f in 0..parent.fields() {
        split_field(parent.field(f), k, n, child.field_mut(f));
    }
}

/// The amounts of a block become the sums of its eight children's, which are given in order.
pub fn join_cells(children: &[Block], parent: &mut Block)
    requires family { AreChildrenOf parent.old children.now }
    requires few { FieldsFit children.now }
    ensures sums { parent.new ≡ record parent.old { amounts = join_amounts parent.old.edge (length parent.old.amounts) parent.old.place (map (λ b. b.amounts) children.now) } }
{
    let n = parent.edge() as usize;
    for f in 0..parent.fields() {
        join_field(children, f, n, parent.field_mut(f));
    }
}

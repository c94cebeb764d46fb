//! The file of a mesh's fields.
ghost use Rattle.std.specs.Prelude.{◌≡◌, ℕ, [], ◌∷◌, IsFalse};
ghost use Rattle.std.specs.Int.{bytes_high_first};
ghost use Rattle.std.specs.List.{flat_map};
ghost use Rattle.block_fields.specs.Blocks.{IsBlock};
ghost use Rattle.block_fields.specs.BlockStates.{AreBlocksOf, state_of};
ghost use Rattle.cello_io.specs.Counts.{HasCause};
ghost use Rattle.cello_io.specs.Filing.{WritesFile};
ghost use Rattle.cello_io.specs.Writes.{Wrote};
ghost use Rattle.mesh_output.specs.FieldFiles.{field_bytes, leaf_numbers};
ghost use Rattle.mesh_output.specs.Pages.{Puts};

use crate::Pen;
use crate::numbers::{put_few, put_numbers};
use crate::page::Page;
use block_fields::Block;
use byteorder::{BigEndian, ByteOrder};
use cello_io::{Failed, Shelf, Sink, write_all};
use cello_num::Name;
use leaf_set::LeafSet;

/// Writes the fields of blocks, which are those of the set's leaves in order, all of one size.
pub fn write_fields<K: Sink>(
    cycle: u32,
    set: &LeafSet,
    blocks: &[Block],
    sink: &mut K,
) -> Result<(), Failed>
    requires blocks { (n : ℕ) × (fields : ℕ) × (depth : ℕ) × AreBlocksOf set.now.places n fields depth blocks.now }
    ensures wrote { (n fields depth : ℕ) → AreBlocksOf set.now.places n fields depth blocks.now →
        Wrote (K.written sink.old) (K.written sink.new) result (field_bytes cycle (state_of set.now.grid n fields blocks.now)) }
    ensures same_rest { K.rest sink.new ≡ K.rest sink.old }
    ensures cause { HasCause (K.write_faults sink.old) (K.write_faults sink.new) result }
{
    let leaves = set.len() as u32;
    let first = &blocks[0];
    let mut page = header(
        cycle,
        u32::from(first.fields()),
        leaves,
        u32::from(first.edge()),
    );
    for block in blocks {
        put_leaf(block, &mut page, sink)?;
    }
    write_all(sink, page.bytes())
}

/// Makes the file of fields of blocks, which are those of the set's leaves in order, all of one size.
pub fn write_fields_file<H: Shelf>(
    cycle: u32,
    set: &LeafSet,
    blocks: &[Block],
    name: Name,
    shelf: &mut H,
) -> Result<(), Failed>
    requires none_open { IsFalse (H.tells shelf.old).is_writing }
    requires blocks { (n : ℕ) × (fields : ℕ) × (depth : ℕ) × AreBlocksOf set.now.places n fields depth blocks.now }
    ensures filed { (n fields depth : ℕ) → AreBlocksOf set.now.places n fields depth blocks.now →
        WritesFile name (field_bytes cycle (state_of set.now.grid n fields blocks.now)) (H.tells shelf.old) (H.tells shelf.new) result }
{
    shelf.create(name)?;
    write_fields(cycle, set, blocks, &mut Pen::on(shelf))?;
    shelf.seal()
}

/// The page that a file begins with.
fn header(cycle: u32, fields: u32, leaves: u32, edge: u32) -> Page
    ensures numbers { result ≡ flat_map (bytes_high_first 4) (cycle ∷ fields ∷ leaves ∷ edge ∷ []) }
{
    let mut bytes = [0u8; 16];
    BigEndian::write_u32_into(&[cycle, fields, leaves, edge], &mut bytes);
    Page::of(&bytes)
}

/// A leaf's place, then field by field its amounts.
fn put_leaf<K: Sink>(block: &Block, page: &mut Page, sink: &mut K) -> Result<(), Failed>
    ensures puts { Puts (K.written sink.old) (K.written sink.new) page.old page.new result (flat_map (bytes_high_first 8) (leaf_numbers block.now.place block.now.amounts)) }
    ensures same_rest { K.rest sink.new ≡ K.rest sink.old }
    ensures cause { HasCause (K.write_faults sink.old) (K.write_faults sink.new) result }
{
    put_few(&[block.place().pack()], page, sink)?;
    for field in 0..block.fields() {
        put_numbers(block.field(field), page, sink)?;
    }
    Ok(())
}

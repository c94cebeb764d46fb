//! Writing a state.
ghost use Rattle.std.specs.Prelude.{◌≡◌, map};
ghost use Rattle.std.specs.Int.{bytes_high_first};
ghost use Rattle.std.specs.List.{flat_map};
ghost use Rattle.block_index.specs.Places.{packed};
ghost use Rattle.cello_io.specs.Counts.{HasCause};
ghost use Rattle.cello_io.specs.Writes.{Wrote};
ghost use Rattle.checkpoint.specs.SavedStates.{saved};
ghost use Rattle.checkpoint.specs.Spelling.{all_amounts, bytes_of, numbers_bytes, part_bytes};
ghost use Rattle.mesh_output.specs.Pages.{Puts};

use crate::part::{Part, part_at, parts_of_version_1};
use crate::view::StateView;
use block_fields::Block;
use block_index::Place;
use byteorder::{BigEndian, ByteOrder};
use cello_io::{Failed, Sink, write_all};
use mesh_output::{Page, put_bytes, put_numbers};

/// Writes a state as a checkpoint.
pub fn write<K: Sink>(state: &StateView, sink: &mut K) -> Result<(), Failed>
    ensures wrote { Wrote (K.written sink.old) (K.written sink.new) result
        (bytes_of (saved state.now.params.now state.now.cycle state.now.set.now.places state.now.blocks.now state.now.ledger.now)) }
    ensures same_rest { K.rest sink.new ≡ K.rest sink.old }
    ensures cause { HasCause (K.write_faults sink.old) (K.write_faults sink.new) result }
{
    let mut page = Page::new();
    put_state(state, &mut page, sink)?;
    write_all(sink, page.bytes())
}

/// Puts a state on a page; each full page is written.
fn put_state<K: Sink>(state: &StateView, page: &mut Page, sink: &mut K) -> Result<(), Failed>
    ensures puts { Puts (K.written sink.old) (K.written sink.new) page.old page.new result (bytes_of (saved state.now.params.now state.now.cycle state.now.set.now.places state.now.blocks.now state.now.ledger.now)) }
    ensures same_rest { K.rest sink.new ≡ K.rest sink.old }
    ensures cause { HasCause (K.write_faults sink.old) (K.write_faults sink.new) result }
{
    put_parts(&parts_of_version_1(), state, page, sink)
}

/// Puts these parts of a checkpoint on a page.
fn put_parts<K: Sink>(
    parts: &[Part],
    state: &StateView,
    page: &mut Page,
    sink: &mut K,
) -> Result<(), Failed>
    ensures puts { Puts (K.written sink.old) (K.written sink.new) page.old page.new result (flat_map (part_bytes (saved state.now.params.now state.now.cycle state.now.set.now.places state.now.blocks.now state.now.ledger.now)) parts.now) }
    ensures same_rest { K.rest sink.new ≡ K.rest sink.old }
    ensures cause { HasCause (K.write_faults sink.old) (K.write_faults sink.new) result }
{
    for i in 0..parts.len() {
        put_part(part_at(parts, i), state, page, sink)?;
    }
    Ok(())
}

/// Puts a part of a checkpoint on a page.
fn put_part<K: Sink>(
    part: Part,
    state: &StateView,
    page: &mut Page,
    sink: &mut K,
) -> Result<(), Failed>
    ensures puts { Puts (K.written sink.old) (K.written sink.new) page.old page.new result (part_bytes (saved state.now.params.now state.now.cycle state.now.set.now.places state.now.blocks.now state.now.ledger.now) part) }
    ensures same_rest { K.rest sink.new ≡ K.rest sink.old }
    ensures cause { HasCause (K.write_faults sink.old) (K.write_faults sink.new) result }
{
    let fields = state.params.fields().items().len();
    match part {
        Part::Magic => put_bytes(b"CELLOAMR", page, sink),
        Part::Version => put_bytes(&[0, 1], page, sink),
        Part::TextLength => put_word(state.params.text().len() as u32, page, sink),
        Part::Text => put_bytes(state.params.text(), page, sink),
        Part::Cycle => put_word(state.cycle, page, sink),
        Part::LeafCount => put_word(state.set.len() as u32, page, sink),
        Part::Places => put_places(state.set.places(), page, sink),
        Part::Amounts => put_amounts(state.blocks, page, sink),
        Part::Totals => put_numbers(&state.ledger.total()[..fields], page, sink),
        Part::Gone => put_numbers(&state.ledger.gone()[..fields], page, sink),
    }
}

/// Puts a number of 4 bytes on a page.
fn put_word<K: Sink>(number: u32, page: &mut Page, sink: &mut K) -> Result<(), Failed>
    ensures puts { Puts (K.written sink.old) (K.written sink.new) page.old page.new result (bytes_high_first 4 number) }
    ensures same_rest { K.rest sink.new ≡ K.rest sink.old }
    ensures cause { HasCause (K.write_faults sink.old) (K.write_faults sink.new) result }
{
    let mut bytes = [0u8; 4];
    BigEndian::write_u32(&mut bytes, number);
    put_bytes(&bytes, page, sink)
}

/// Puts the words of places on a page.
fn put_places<K: Sink>(places: &[Place], page: &mut Page, sink: &mut K) -> Result<(), Failed>
    ensures puts { Puts (K.written sink.old) (K.written sink.new) page.old page.new result (numbers_bytes (map packed places.now)) }
    ensures same_rest { K.rest sink.new ≡ K.rest sink.old }
    ensures cause { HasCause (K.write_faults sink.old) (K.write_faults sink.new) result }
{
    for place in places {
        put_numbers(&[place.pack()], page, sink)?;
    }
    Ok(())
}

/// Puts the amounts of blocks on a page.
fn put_amounts<K: Sink>(blocks: &[Block], page: &mut Page, sink: &mut K) -> Result<(), Failed>
    ensures puts { Puts (K.written sink.old) (K.written sink.new) page.old page.new result (numbers_bytes (all_amounts (map (λ b. b.amounts) blocks.now))) }
    ensures same_rest { K.rest sink.new ≡ K.rest sink.old }
    ensures cause { HasCause (K.write_faults sink.old) (K.write_faults sink.new) result }
{
    for block in blocks {
        put_block(block, page, sink)?;
    }
    Ok(())
}

/// Puts the amounts of a block on a page.
fn put_block<K: Sink>(block: &Block, page: &mut Page, sink: &mut K) -> Result<(), Failed>
    ensures puts { Puts (K.written sink.old) (K.written sink.new) page.old page.new result (numbers_bytes (flat_map (λ amounts. amounts) block.now.amounts)) }
    ensures same_rest { K.rest sink.new ≡ K.rest sink.old }
    ensures cause { HasCause (K.write_faults sink.old) (K.write_faults sink.new) result }
{
    for field in 0..block.fields() {
        put_numbers(block.field(field), page, sink)?;
    }
    Ok(())
}

//! The amounts of a file, each read once, and summed as they are read.
ghost use Rattle.std.specs.Prelude.{◌≡◌, ℕ, ◌+◌, ◌*◌, ◌%◌, ◌^◌, ◌<◌, ◌≤◌, IfOk, drop, length, map, slice_index, sum, sum_by, take};
ghost use Rattle.std.specs.List.{flat_map};
ghost use Rattle.block_fields.specs.Blocks.{amounts_of};
ghost use Rattle.block_fields.specs.BlockStates.{AreBlocksOf, IsBlockOf};
ghost use Rattle.checkpoint.specs.Reading.{AreWords, kept_depth};
ghost use Rattle.checkpoint.specs.Spelling.{all_amounts};

use crate::words::word_at;
use block_fields::Block;
use block_index::Place;
use cello_num::Memory;
use std::alloc::Global;

/// How many cells deep the ghosts of the blocks are.
const DEPTH: u8 = 1;

/// Of parts of one size the one at a position.
fn part_of(bytes: &[u8], i: usize, size: usize) -> &[u8]
    requires within { i * size + size ≤ length bytes.now }
    ensures part { result.now ≡ take size (drop (i * size) bytes.now) }
    ensures whole { length result.now ≡ size }
{
    let start = i * size;
    &bytes[start..start + size]
}

/// Reads numbers, and answers their sum.
pub fn read_numbers(bytes: &[u8], numbers: &mut [u64]) -> u128
    requires whole { length bytes.now ≡ 8 * length numbers.old }
    requires few { length numbers.old ≤ 4096 }
    ensures long { length numbers.new ≡ length numbers.old }
    ensures words { AreWords numbers.new bytes.now }
    ensures total { result ≡ sum numbers.new }
    ensures limit { result ≤ 2 ^ 76 }
{
    let mut total = 0;
    for j in 0..numbers.len() {
        let word = word_at(bytes, j);
        numbers[j] = word;
        total += word as u128;
    }
    total
}

/// Reads the block of a place, and adds the sum of each field to `sums`.
fn read_block(
    alloc: Global,
    place: Place,
    n: u16,
    fields: u8,
    bytes: &[u8],
    sums: &mut [u128],
) -> Result<Block, Memory>
    requires even { n % 2 ≡ 0 }
    requires least { 4 ≤ n }
    requires most { n ≤ 16 }
    requires few { fields ≤ 4 }
    requires whole { length bytes.now ≡ fields * (8 * (n * n * n)) }
    requires one_each { fields ≤ length sums.old }
    requires room { (g : ℕ) → g < fields → slice_index sums.old g + 2 ^ 76 < 2 ^ 128 }
    ensures block { IfOk result (λ b. IsBlockOf n fields kept_depth b) }
    ensures place { IfOk result (λ b. b.place ≡ place) }
    ensures words { IfOk result (λ b. AreWords (flat_map (λ amounts. amounts) b.amounts) bytes.now) }
    ensures long { length sums.new ≡ length sums.old }
    ensures added { IfOk result (λ b. (g : ℕ) → g < fields → slice_index sums.new g ≡ slice_index sums.old g + sum (amounts_of b g)) }
    ensures limit { IfOk result (λ b. (g : ℕ) → g < fields → sum (amounts_of b g) ≤ 2 ^ 76) }
{
    let mut block = Block::new(alloc, place, n, fields, DEPTH)?;
    let size = 8 * (n as usize * n as usize * n as usize);
    for f in 0..fields {
        let here = part_of(bytes, f as usize, size);
        let total = read_numbers(here, block.field_mut(f));
        sums[f as usize] += total;
    }
    let count = block.fields();
    prove!(count <= 4);
    Ok(block)
}

/// Reads the blocks of places in order, and puts the sum of each field into `sums`, which holds zeros.
pub fn read_blocks(
    alloc: Global,
    places: &[Place],
    n: u16,
    fields: u8,
    bytes: &[u8],
    sums: &mut [u128],
) -> Result<Vec<Block>, Memory>
    requires even { n % 2 ≡ 0 }
    requires least { 4 ≤ n }
    requires most { n ≤ 16 }
    requires few { fields ≤ 4 }
    requires few_places { length places.now ≤ 2 ^ 20 }
    requires whole { length bytes.now ≡ length places.now * (fields * (8 * (n * n * n))) }
    requires one_each { fields ≤ length sums.old }
    requires zeros { (g : ℕ) → g < fields → slice_index sums.old g ≡ 0 }
    ensures blocks { IfOk result (λ blocks. AreBlocksOf places.now n fields kept_depth blocks.items) }
    ensures words { IfOk result (λ blocks. AreWords (all_amounts (map (λ b. b.amounts) blocks.items)) bytes.now) }
    ensures long { length sums.new ≡ length sums.old }
    ensures sums { IfOk result (λ blocks. (g : ℕ) → g < fields → slice_index sums.new g ≡ sum_by (λ b. sum (amounts_of b g)) blocks.items) }
{
    let mut blocks = Vec::with_capacity(alloc, places.len())?;
    let size = fields as usize * (8 * (n as usize * n as usize * n as usize));
    for i in 0..places.len() {
        let here = part_of(bytes, i, size);
        let block = read_block(alloc, places[i], n, fields, here, sums)?;
        blocks.push(block)?;
    }
    Ok(blocks)
}

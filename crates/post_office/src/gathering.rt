//! Putting the cells of all shards back into their first order, last first. It takes no memory.
ghost use Rattle.std.specs.Prelude.{◌≡◌, ◌<◌, ◌≤◌, ◌++◌, ◌∷◌, List, [], All, Some, length, map, slice_get, slice_set, vec_capacity};
ghost use Rattle.post_office.specs.Lemmas.Gathered.{Rows};

use crate::load::PostCell;
use phase_core::Phase;

// Takes the last cell of a shard.
fn pop_cell<P: Phase>(post: &mut PostCell<P>) -> P::Cell
    requires some_cell { 0 < length post.old.cells.items }
    ensures { post.old.cells.items ≡ post.new.cells.items ++ result ∷ [] }
{
    post.cells.pop().unwrap()
}

// Takes the last cell of one of the shards.
fn take_last<P: Phase>(posts: &mut Vec<PostCell<P>>, shard: usize) -> P::Cell
    requires some_cell { (row : _) × (c : _) × (slice_get (map (λ p. p.cells.items) posts.old.items) shard ≡ Some (row ++ c ∷ [])) }
    ensures { (row : _) × (slice_get (map (λ p. p.cells.items) posts.old.items) shard ≡ Some (row ++ result ∷ [])) × (map (λ p. p.cells.items) posts.new.items ≡ slice_set (map (λ p. p.cells.items) posts.old.items) shard row) }
{
    let post = &mut posts[shard];
    pop_cell(post)
}

/// All cells of the shards, in the order of `owners`.
pub(crate) fn gather<P: Phase>(
    owners: &[u8],
    posts: Vec<PostCell<P>>,
    room: Vec<P::Cell>,
) -> Vec<P::Cell>
    requires room { (room.items ≡ []) × (length owners.now ≤ vec_capacity room) }
    requires within { All (λ o. o < length posts.items) owners.now }
    requires rows { (cells : List P.Cell) × (length owners.now ≡ length cells) × Rows owners.now cells (map (λ p. p.cells.items) posts.items) }
    ensures { (cells : List P.Cell) → length owners.now ≡ length cells → Rows owners.now cells (map (λ p. p.cells.items) posts.items) → result.items ≡ cells }
{
    let mut posts = posts;
    let mut cells = room;
    let count = owners.len();
    for taken in 0..count {
        let owner = owners[count - 1 - taken] as usize;
        let cell = take_last(&mut posts, owner);
        cells.push_reserved(cell);
    }
    cells.reverse();
    cells
}

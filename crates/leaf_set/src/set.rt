//! The leaf set: making one, and looking for leaves by their places and positions.

ghost use Rattle.std.specs.Prelude.{◌≡◌, ℕ, ◌^◌, ◌<◌, ◌≤◌, ◌↔◌, true, Some, IfOk, IfErr, IfSome, IsNone, length, slice_get};
ghost use Rattle.block_index.specs.Places.{Cube, IsDomain, covers};
ghost use Rattle.leaf_set.specs.LeafFaults.{IsLeafFault};
ghost use Rattle.leaf_set.specs.MeshLaws.{HasDistinctLeaves};
ghost use Rattle.leaf_set.specs.Meshes.{IsLeaf, most_leaves};
ghost use Rattle.leaf_set.specs.RootMesh.{root_at, root_mesh, tree_count};
ghost use Rattle.leaf_set.specs.Tiling.{IsTiling};
ghost use Rattle.leaf_set.specs.TouchingLeaves.{AreTouching};

use crate::faults::mesh_fault;
use crate::jump::first_jump;
use crate::leaf_fault::LeafFault;
use block_index::{Domain, Place};
use cello_num::Memory;
use indexmap::IndexSet;
use std::alloc::Global;
use std::marker::Model;

/// A domain and the leaves that tile it, balanced and in order.
///
/// Where lists of touching leaves were found for these leaves, the set can keep them, so that they need not be looked
/// up again.
#[derive(Drop)]
pub struct LeafSet {
    domain: Domain,
    places: IndexSet<Place>,
    // Kept lists of touching leaves: of the first leaves, of all or of none.
    touching: Vec<Vec<u32>>,
}

impl Model for LeafSet {
    ghost use Rattle.std.specs.Prelude.{◌≡◌, ℕ, Some, slice_get};
    ghost use Rattle.leaf_set.specs.Tiling.{IsTiling, Tiling};
    ghost use Rattle.leaf_set.specs.TouchingLeaves.{AreTouching};

    ghost Value = { Tiling };

    ghost view = { λ s. record { grid = s.domain; places = s.places.keys } };

    ghost invariant = { λ s. IsTiling (record { grid = s.domain; places = s.places.keys })
        × ((i : ℕ) (list : _) → slice_get s.touching.items i ≡ Some list → AreTouching s.domain s.places.keys i list.items) };
}

impl LeafSet {
    /// The leaf set of these places of the domain, which are its leaves in order.
    pub fn of(alloc: Global, domain: Domain, places: Vec<Place>) -> Result<LeafSet, Memory>
        requires tiles { IsTiling (record { grid = domain; places = places.items }) }
        ensures grid { IfOk result (λ set. set.grid ≡ domain) }
        ensures places { IfOk result (λ set. set.places ≡ places.items) }
    {
        Ok(LeafSet {
            domain,
            places: indexed(alloc, places)?,
            touching: Vec::new(alloc),
        })
    }

    /// The leaf set of these places, where they are a balanced mesh of the domain in order; else the first fault.
    pub fn from_places(
        alloc: Global,
        domain: Domain,
        places: Vec<Place>,
    ) -> Result<LeafSet, LeafFault>
        ensures grid { IfOk result (λ set. set.grid ≡ domain) }
        ensures places { IfOk result (λ set. set.places ≡ places.items) }
        ensures tiles { IfOk result (λ set. IsTiling set) }
        ensures fault { IfErr result (λ f. IsLeafFault domain places.items f) }
    {
        if let Some(fault) = mesh_fault(&domain, &places) {
            return Err(fault);
        }
        let Ok(places) = indexed(alloc, places) else {
            return Err(LeafFault::Memory);
        };
        match first_jump(&domain, &places) {
            Some((a, b)) => Err(LeafFault::Jump { a, b }),
            None => Ok(LeafSet {
                domain,
                places,
                touching: Vec::new(alloc),
            }),
        }
    }

    /// The coarsest leaf set of the domain: its roots, x fastest, then y, then z.
    pub fn roots(alloc: Global, domain: Domain) -> Result<LeafSet, Memory>
        ensures grid { IfOk result (λ set. set.grid ≡ domain) }
        ensures places { IfOk result (λ set. set.places ≡ root_mesh domain) }
    {
        let places = root_places(alloc, &domain)?;
        LeafSet::of(alloc, domain, places)
    }

    /// The domain that the leaves tile.
    pub fn domain(&self) -> &Domain
        ensures grid { result.now ≡ self.now.grid }
        ensures tiles { IsTiling self.now }
    {
        &self.domain
    }

    /// How many leaves there are.
    pub fn len(&self) -> usize
        ensures len { result ≡ length self.now.places }
        ensures limit { length self.now.places ≤ most_leaves }
        ensures tiles { IsTiling self.now }
    {
        self.places.len()
    }

    /// The leaf at a position.
    pub fn place(&self, i: usize) -> Place
        requires inside { i < length self.now.places }
        ensures leaf { slice_get self.now.places i ≡ Some result }
    {
        self.places.as_slice()[i]
    }

    /// The leaves in order.
    pub fn places(&self) -> &[Place]
        ensures places { result.now ≡ self.now.places }
        ensures tiles { IsTiling self.now }
    {
        self.places.as_slice()
    }

    /// Keeps lists of touching leaves: at each position that of the leaf there. The leaves stay as they are.
    pub fn keep_touching(&mut self, lists: Vec<Vec<u32>>)
        requires touching { (i : ℕ) (list : _) → slice_get lists.items i ≡ Some list →
            AreTouching self.old.grid self.old.places i list.items }
        ensures same { self.new ≡ self.old }
    {
        self.touching = lists;
    }

    /// The positions of all leaves that touch the leaf at `i`, where they are kept.
    pub fn kept_touching(&self, i: usize) -> Option<&[u32]>
        ensures touching { IfSome result (λ list. AreTouching self.now.grid self.now.places i list.now) }
    {
        let list = self.touching.get(i)?;
        Some(list.as_slice())
    }

    /// The position at which a place is a leaf.
    pub fn position(&self, at: Place) -> Option<usize>
        ensures found { IfSome result (λ i. slice_get self.now.places i ≡ Some at) }
        ensures none { IsNone result ↔ (IsLeaf self.now.places at → ⊥) }
    {
        self.places.get_index_of(&at)
    }

    /// The position of the leaf that is a place or contains it.
    pub fn covering(&self, at: Place) -> Option<usize>
        ensures found { IfSome result (λ i. (c : Cube) × (slice_get self.now.places i ≡ Some c) × (covers c at ≡ true)) }
        ensures none { IsNone result → (c : Cube) → IsLeaf self.now.places c → covers c at ≡ true → ⊥ }
    {
        let mut over = Some(at);
        while let Some(place) = over {
            if let Some(i) = self.position(place) {
                return Some(i);
            }
            over = place.parent();
        }
        None
    }
}

/// Distinct places as a set that keeps their order.
pub(crate) fn indexed(alloc: Global, places: Vec<Place>) -> Result<IndexSet<Place>, Memory>
    requires { HasDistinctLeaves places.items }
    ensures { IfOk result (λ set. set.keys ≡ places.items) }
{
    let mut set = IndexSet::with_capacity(alloc, places.len())?;
    for place in &places {
        set.insert(*place)?;
    }
    Ok(set)
}

/// The roots in order.
fn root_places(alloc: Global, domain: &Domain) -> Result<Vec<Place>, Memory>
    ensures places { IfOk result (λ places. places.items ≡ root_mesh domain.now) }
    ensures limits { IsDomain domain.now }
{
    let [trees_x, trees_y, trees_z] = domain.array();
    let places: Vec<Place> = (0..trees_x * trees_y * trees_z)
        .map(|n| root(domain, n))
        .collect(alloc)?;
    Ok(places)
}

/// The root with a number.
fn root(domain: &Domain, n: u16) -> Place
    requires number { n < tree_count domain.now }
    ensures root { result ≡ root_at domain.now n }
{
    let [trees_x, trees_y, _] = domain.array();
    Place::new(0, n % trees_x, n / trees_x % trees_y, n / trees_x / trees_y).unwrap()
}

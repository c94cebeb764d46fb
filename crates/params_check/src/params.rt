//! The parameters of a run.
ghost use Rattle.std.specs.Prelude.{◌≡◌, ◌<◌, ◌≤◌, All, List, codes, length, map, nat_abs};
ghost use Rattle.params_check.specs.Bounds.{fastest};
ghost use Rattle.block_index.specs.Places.{IsDomain};
ghost use Rattle.params_syntax.specs.declared.tree.Group.{Group};
ghost use Rattle.params_syntax.specs.declared.tree.Setting.{Setting};
ghost use Rattle.params_syntax.specs.Canonical.{canonical_text};
ghost use Rattle.params_check.specs.Keys.{mesh_array, mesh_boundary, mesh_keys, method_velocity, method_keys, output_keys};
ghost use Rattle.params_check.specs.Lemmas.Slots.{AreSlots, given};
ghost use Rattle.params_check.specs.Limits.{IsCorner};
ghost use Rattle.params_check.specs.Parameters.{IsParameters, total_of, values_of};
ghost use Rattle.params_check.specs.TreeValues.{criterion_of, fields_of, grid_by, grid_of_mesh, numbers_at, settings_of, shape_of, sizes_at, subs_of, words_at};
ghost use Rattle.params_check.specs.Values.{size_in, sizes_in};

use crate::axis_kind::{AxisKind, wraps};
use crate::criterion::Criteria;
use crate::field_names::Names;
use crate::shape::Shapes;
use crate::slots::Slot;
use crate::totals::initial_total;
use block_index::Domain;
use std::marker::Model;

/// The values of a text. Numbers are as wide as they are read. Contracts see them as `Parameters`.
#[derive(Drop)]
pub(crate) struct Values {
    pub(crate) domain: Domain,
    pub(crate) axes: [AxisKind; 3],
    pub(crate) block: u64,
    pub(crate) max_blocks: u64,
    pub(crate) rounds: u64,
    pub(crate) strict: bool,
    pub(crate) fields: Names,
    pub(crate) shapes: Shapes,
    pub(crate) criteria: Criteria,
    pub(crate) velocity: [i64; 3],
    pub(crate) den: u64,
    pub(crate) cycles: u64,
    pub(crate) mesh_every: u64,
    pub(crate) fields_every: u64,
    pub(crate) checkpoint_every: u64,
    pub(crate) text: Vec<u8>,
}

impl Model for Values {
    ghost use Rattle.params_check.specs.Parameters.{Parameters};

    ghost Value = { Parameters };

    ghost view = { λ v. record {
      grid = v.domain;
      axes = v.axes;
      block = v.block;
      max_blocks = v.max_blocks;
      rounds = v.rounds;
      strict = v.strict;
      fields = v.fields;
      shapes = v.shapes;
      criteria = v.criteria;
      velocity = v.velocity;
      den = v.den;
      cycles = v.cycles;
      mesh_every = v.mesh_every;
      fields_every = v.fields_every;
      checkpoint_every = v.checkpoint_every;
      text = v.text.items;
    } };
}

/// What the slots of the groups `Mesh`, `Method` and `Output` say, with the values of the other groups.
pub(crate) fn read_values(
    mesh: &[Slot],
    method: &[Slot],
    output: &[Slot],
    fields: Names,
    shapes: Shapes,
    criteria: Criteria,
    text: Vec<u8>,
) -> Values
    requires mesh_count { length mesh.now ≡ 7 }
    requires method_count { length method.now ≡ 3 }
    requires output_count { length output.now ≡ 3 }
    requires mesh { (sets : List Setting) × AreSlots mesh_keys sets mesh.now × IsCorner (sizes_at mesh_array sets) × IsDomain (grid_of_mesh sets) × (length (words_at mesh_boundary sets) ≡ 3) }
    requires method { (sets : List Setting) × AreSlots method_keys sets method.now × (length (numbers_at method_velocity sets) ≡ 3) }
    ensures values { (groups : List Group) → AreSlots mesh_keys (settings_of (codes "Mesh") groups) mesh.now → AreSlots method_keys (settings_of (codes "Method") groups) method.now
        → AreSlots output_keys (settings_of (codes "Output") groups) output.now → fields ≡ fields_of groups → shapes ≡ map (shape_of (fields_of groups)) (subs_of (codes "Initial") groups)
        → criteria ≡ map (criterion_of (fields_of groups)) (subs_of (codes "Adapt") groups) → text.items ≡ canonical_text groups → result ≡ values_of groups }
{
    let [
        array,
        block,
        max_level,
        max_blocks,
        rounds,
        strict,
        boundary,
    ] = mesh
    else {
        unreachable!()
    };
    let [velocity, den, cycles] = method else {
        unreachable!()
    };
    let [mesh_every, fields_every, checkpoint_every] = output else {
        unreachable!()
    };
    let axes = boundary.three_axes();
    Values {
        domain: domain(array, axes, max_level),
        axes,
        block: block.number(),
        max_blocks: max_blocks.number(),
        rounds: rounds.number(),
        strict: strict.is_yes(),
        fields,
        shapes,
        criteria,
        velocity: velocity.three_numbers(),
        den: den.number(),
        cycles: cycles.number(),
        mesh_every: mesh_every.number(),
        fields_every: fields_every.number(),
        checkpoint_every: checkpoint_every.number(),
        text,
    }
}

/// The domain of these numbers of trees, kinds of axes and finest level.
fn domain(array: &Slot, axes: [AxisKind; 3], max_level: &Slot) -> Domain
    requires array { IsCorner (sizes_in (given array.now)) }
    requires limits { IsDomain (grid_by (sizes_in (given array.now)) axes (size_in (given max_level.now))) }
    ensures grid { result ≡ grid_by (sizes_in (given array.now)) axes (size_in (given max_level.now)) }
{
    let [x, y, z] = axes;
    let finest = max_level.number() as u8;
    Domain::new(array.three_sizes(), [wraps(x), wraps(y), wraps(z)], finest).unwrap()
}

/// A velocity in the narrower type.
fn narrow(velocity: [i64; 3]) -> [i32; 3]
    requires slow { All (λ v. nat_abs v ≤ fastest) velocity }
    ensures same { result ≡ velocity }
{
    let [x, y, z] = velocity;
    [x as i32, y as i32, z as i32]
}

/// The parameters of a run, which keep all limits. Contracts see them as `Parameters`, of which `IsParameters` holds.
#[derive(Drop)]
pub struct Params {
    values: Values,
}

impl Model for Params {
    ghost use Rattle.params_check.specs.Parameters.{Parameters, IsParameters};

    ghost Value = { Parameters };

    ghost view = { λ p. p.values };

    ghost invariant = { λ p. IsParameters p.values };
}

impl Params {
    /// Values that keep all limits.
    pub(crate) fn of(values: Values) -> Params
        requires limits { IsParameters values }
        ensures params { result ≡ values }
    {
        Params { values }
    }

    /// The array of octrees.
    pub fn domain(&self) -> &Domain
        ensures domain { result.now ≡ self.now.grid }
        ensures limits { IsParameters self.now }
    {
        &self.values.domain
    }

    /// What lies past the ends of each axis.
    pub fn axes(&self) -> [AxisKind; 3]
        ensures axes { result ≡ self.now.axes }
    {
        self.values.axes
    }

    /// Cells along the edge of a block.
    pub fn block(&self) -> u16
        ensures block { result ≡ self.now.block }
        ensures limits { IsParameters self.now }
    {
        self.values.block as u16
    }

    /// The most blocks that there may be.
    pub fn max_blocks(&self) -> u32
        ensures max_blocks { result ≡ self.now.max_blocks }
        ensures limits { IsParameters self.now }
    {
        self.values.max_blocks as u32
    }

    /// Adapt phases before cycle 0.
    pub fn rounds(&self) -> u32
        ensures rounds { result ≡ self.now.rounds }
        ensures limits { IsParameters self.now }
    {
        self.values.rounds as u32
    }

    /// Whether a wish to go above the finest level ends the run.
    pub fn strict(&self) -> bool
        ensures strict { result ≡ self.now.strict }
    {
        self.values.strict
    }

    /// The names of the fields.
    pub fn fields(&self) -> &Names
        ensures fields { result.now ≡ self.now.fields }
        ensures limits { IsParameters self.now }
    {
        &self.values.fields
    }

    /// What the root cells hold at the start.
    pub fn shapes(&self) -> &Shapes
        ensures shapes { result.now ≡ self.now.shapes }
        ensures limits { IsParameters self.now }
    {
        &self.values.shapes
    }

    /// What leaves wish for.
    pub fn criteria(&self) -> &Criteria
        ensures criteria { result.now ≡ self.now.criteria }
        ensures limits { IsParameters self.now }
    {
        &self.values.criteria
    }

    /// The velocity, in cells of level 0 for each `den` cycles.
    pub fn velocity(&self) -> [i32; 3]
        ensures velocity { result ≡ self.now.velocity }
        ensures limits { IsParameters self.now }
    {
        narrow(self.values.velocity)
    }

    /// What the velocity is divided by.
    pub fn den(&self) -> u32
        ensures den { result ≡ self.now.den }
        ensures limits { IsParameters self.now }
    {
        self.values.den as u32
    }

    /// How many cycles are run.
    pub fn cycles(&self) -> u32
        ensures cycles { result ≡ self.now.cycles }
        ensures limits { IsParameters self.now }
    {
        self.values.cycles as u32
    }

    /// After how many cycles each a mesh file is written; 0 for never.
    pub fn mesh_every(&self) -> u32
        ensures mesh_every { result ≡ self.now.mesh_every }
        ensures limits { IsParameters self.now }
    {
        self.values.mesh_every as u32
    }

    /// After how many cycles each a field file is written; 0 for never.
    pub fn fields_every(&self) -> u32
        ensures fields_every { result ≡ self.now.fields_every }
        ensures limits { IsParameters self.now }
    {
        self.values.fields_every as u32
    }

    /// After how many cycles each a checkpoint is written; 0 for never.
    pub fn checkpoint_every(&self) -> u32
        ensures checkpoint_every { result ≡ self.now.checkpoint_every }
        ensures limits { IsParameters self.now }
    {
        self.values.checkpoint_every as u32
    }

    /// How many cells deep the ghosts of blocks are: one, since no flux and no criterion looks farther.
    pub fn depth(&self) -> u8
        ensures depth { result ≡ 1 }
    {
        1
    }

    /// The initial total of a field: what its shapes put into the root cells of the domain, in amounts.
    pub fn initial_total(&self, field: u8) -> u64
        requires field { field < length self.now.fields }
        ensures total { result ≡ total_of self.now field }
        ensures limits { IsParameters self.now }
    {
        let values = &self.values;
        initial_total(
            &values.domain,
            values.block as u16,
            values.shapes.items(),
            field,
        ) as u64
    }

    /// The canonical text.
    pub fn text(&self) -> &[u8]
        ensures text { result.now ≡ self.now.text }
        ensures limits { IsParameters self.now }
    {
        &self.values.text
    }
}

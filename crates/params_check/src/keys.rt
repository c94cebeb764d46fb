//! The keys of a parameter text, group by group in the order of the second walk: of each key its name, which kinds of
//! sub have it, what values it takes, and what it is where it is left out.
ghost use Rattle.std.specs.Prelude.{◌≡◌, ◌≤◌, All, length, map};
ghost use Rattle.params_check.specs.Keys.{mesh_keys, field_keys, method_keys, output_keys, shape_keys, criterion_keys};
ghost use Rattle.params_check.specs.Lemmas.Tables.{entry};

use crate::bounds::{
    FARTHEST, FASTEST, FINEST_LEVEL, GREATEST_AMOUNT, GREATEST_DEN, GREATEST_EDGE, LAST_PHASE,
    LEAST_EDGE, MOST_BLOCKS, MOST_CYCLES, MOST_ROUNDS, MOST_TREES,
};
use crate::entries::{Fallback, Key, Wanted};

static MESH_KEYS: [Key; 7] = [
    Key {
        name: b"array",
        kinds: &[],
        wanted: Wanted::Triple(1, MOST_TREES),
        fallback: Fallback::Required,
    },
    Key {
        name: b"block",
        kinds: &[],
        wanted: Wanted::Even(LEAST_EDGE, GREATEST_EDGE),
        fallback: Fallback::Required,
    },
    Key {
        name: b"max_level",
        kinds: &[],
        wanted: Wanted::Number(0, FINEST_LEVEL),
        fallback: Fallback::Number(0),
    },
    Key {
        name: b"max_blocks",
        kinds: &[],
        wanted: Wanted::Number(1, MOST_BLOCKS),
        fallback: Fallback::Number(4096),
    },
    Key {
        name: b"initial_rounds",
        kinds: &[],
        wanted: Wanted::Number(0, MOST_ROUNDS),
        fallback: Fallback::Number(0),
    },
    Key {
        name: b"strict",
        kinds: &[],
        wanted: Wanted::OneOf(&[b"yes", b"no"]),
        fallback: Fallback::Word(b"no"),
    },
    Key {
        name: b"boundary",
        kinds: &[],
        wanted: Wanted::ThreeOf(&[b"periodic", b"open", b"closed"]),
        fallback: Fallback::ThreeWords(b"periodic"),
    },
];

/// The keys of the group `Mesh`.
#[tactic(auto, unfolding(crate::specs::Keys::mesh_keys))]
pub(crate) fn mesh_keys() -> &'static [Key]
    ensures keys { map entry result.now ≡ mesh_keys }
    ensures count { length result.now ≡ 7 }
    ensures short { All (λ key. length key.name.now ≤ 32) result.now }
{
    &MESH_KEYS
}

static FIELD_KEYS: [Key; 1] = [Key {
    name: b"names",
    kinds: &[],
    wanted: Wanted::NewNames,
    fallback: Fallback::NoWords,
}];

/// The keys of the group `Field`.
#[tactic(auto, unfolding(crate::specs::Keys::field_keys))]
pub(crate) fn field_keys() -> &'static [Key]
    ensures keys { map entry result.now ≡ field_keys }
    ensures count { length result.now ≡ 1 }
    ensures short { All (λ key. length key.name.now ≤ 32) result.now }
{
    &FIELD_KEYS
}

static SHAPE_KEYS: [Key; 7] = [
    Key {
        name: b"shape",
        kinds: &[],
        wanted: Wanted::OneOf(&[b"box", b"ball"]),
        fallback: Fallback::Required,
    },
    Key {
        name: b"field",
        kinds: &[],
        wanted: Wanted::FieldName,
        fallback: Fallback::Required,
    },
    Key {
        name: b"low",
        kinds: &[b"box"],
        wanted: Wanted::Triple(0, FARTHEST),
        fallback: Fallback::Required,
    },
    Key {
        name: b"high",
        kinds: &[b"box"],
        wanted: Wanted::Triple(0, FARTHEST),
        fallback: Fallback::Required,
    },
    Key {
        name: b"center",
        kinds: &[b"ball"],
        wanted: Wanted::Triple(0, FARTHEST),
        fallback: Fallback::Required,
    },
    Key {
        name: b"radius",
        kinds: &[b"ball"],
        wanted: Wanted::Number(0, FARTHEST),
        fallback: Fallback::Required,
    },
    Key {
        name: b"amount",
        kinds: &[],
        wanted: Wanted::Number(0, GREATEST_AMOUNT),
        fallback: Fallback::Required,
    },
];

/// The keys of a shape, a sub of the group `Initial`; the first gives its kind.
#[tactic(auto, unfolding(crate::specs::Keys::shape_keys))]
pub(crate) fn shape_keys() -> &'static [Key]
    ensures keys { map entry result.now ≡ shape_keys }
    ensures count { length result.now ≡ 7 }
    ensures short { All (λ key. length key.name.now ≤ 32) result.now }
{
    &SHAPE_KEYS
}

static CRITERION_KEYS: [Key; 8] = [
    Key {
        name: b"type",
        kinds: &[],
        wanted: Wanted::OneOf(&[b"box", b"mass", b"slope", b"contrast"]),
        fallback: Fallback::Required,
    },
    Key {
        name: b"until",
        kinds: &[],
        wanted: Wanted::Number(1, LAST_PHASE),
        fallback: Fallback::Number(LAST_PHASE),
    },
    Key {
        name: b"field",
        kinds: &[b"mass", b"slope", b"contrast"],
        wanted: Wanted::FieldName,
        fallback: Fallback::Required,
    },
    Key {
        name: b"low",
        kinds: &[b"box"],
        wanted: Wanted::Triple(0, FARTHEST),
        fallback: Fallback::Required,
    },
    Key {
        name: b"high",
        kinds: &[b"box"],
        wanted: Wanted::Triple(0, FARTHEST),
        fallback: Fallback::Required,
    },
    Key {
        name: b"level",
        kinds: &[b"box"],
        wanted: Wanted::Number(0, FINEST_LEVEL),
        fallback: Fallback::Required,
    },
    Key {
        name: b"refine",
        kinds: &[b"mass", b"slope", b"contrast"],
        wanted: Wanted::Threshold,
        fallback: Fallback::Required,
    },
    Key {
        name: b"coarsen",
        kinds: &[b"mass", b"slope", b"contrast"],
        wanted: Wanted::Threshold,
        fallback: Fallback::Required,
    },
];

/// The keys of a criterion, a sub of the group `Adapt`; the first gives its kind.
#[tactic(auto, unfolding(crate::specs::Keys::criterion_keys))]
pub(crate) fn criterion_keys() -> &'static [Key]
    ensures keys { map entry result.now ≡ criterion_keys }
    ensures count { length result.now ≡ 8 }
    ensures short { All (λ key. length key.name.now ≤ 32) result.now }
{
    &CRITERION_KEYS
}

static METHOD_KEYS: [Key; 3] = [
    Key {
        name: b"velocity",
        kinds: &[],
        wanted: Wanted::TripleUpTo(FASTEST),
        fallback: Fallback::ThreeZeros,
    },
    Key {
        name: b"den",
        kinds: &[],
        wanted: Wanted::Number(1, GREATEST_DEN),
        fallback: Fallback::Number(1),
    },
    Key {
        name: b"cycles",
        kinds: &[],
        wanted: Wanted::Number(0, MOST_CYCLES),
        fallback: Fallback::Number(0),
    },
];

/// The keys of the group `Method`.
#[tactic(auto, unfolding(crate::specs::Keys::method_keys))]
pub(crate) fn method_keys() -> &'static [Key]
    ensures keys { map entry result.now ≡ method_keys }
    ensures count { length result.now ≡ 3 }
    ensures short { All (λ key. length key.name.now ≤ 32) result.now }
{
    &METHOD_KEYS
}

static OUTPUT_KEYS: [Key; 3] = [
    Key {
        name: b"mesh",
        kinds: &[],
        wanted: Wanted::Number(0, MOST_CYCLES),
        fallback: Fallback::Number(0),
    },
    Key {
        name: b"fields",
        kinds: &[],
        wanted: Wanted::Number(0, MOST_CYCLES),
        fallback: Fallback::Number(0),
    },
    Key {
        name: b"checkpoint",
        kinds: &[],
        wanted: Wanted::Number(0, MOST_CYCLES),
        fallback: Fallback::Number(0),
    },
];

/// The keys of the group `Output`.
#[tactic(auto, unfolding(crate::specs::Keys::output_keys))]
pub(crate) fn output_keys() -> &'static [Key]
    ensures keys { map entry result.now ≡ output_keys }
    ensures count { length result.now ≡ 3 }
    ensures short { All (λ key. length key.name.now ≤ 32) result.now }
{
    &OUTPUT_KEYS
}

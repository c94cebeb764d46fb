//! The groups of the text.
ghost use Rattle.std.specs.Prelude.{◌≡◌, ◌≤◌, length};
ghost use Rattle.demo_params.specs.DemoTexts.{adapt_group, ball_group, field_group, flow_group, initial_group, mesh_group, method_group, most_seed, most_size, three};

use crate::drawing::draw;
use text_line::Text;

/// Room for a group that has drawn numbers.
pub(crate) type Group = Text<256>;

#[tactic(auto, unfolding(crate::specs::DemoTexts::mesh_group))]
pub(crate) fn mesh_group(size: u32) -> Group
    requires few { size ≤ most_size }
    ensures group { result ≡ mesh_group size }
{
    let mut text = Text::of(b"Mesh {\n  array = ");
    text.push(three(size, size, size).bytes());
    text.push(b";\n  block = 8;\n  max_level = 2;\n  max_blocks = 8192;\n  initial_rounds = 2;\n");
    text.push(b"  boundary = [\"periodic\", \"periodic\", \"periodic\"];\n}\n");
    text
}

#[tactic(auto, unfolding(crate::specs::DemoTexts::field_group))]
pub(crate) fn field_group() -> &'static [u8]
    ensures group { result.now ≡ field_group }
    ensures short { length result.now ≤ 40 }
{
    b"Field {\n  names = [\"a\"];\n}\n"
}

#[tactic(auto, unfolding(crate::specs::DemoTexts::initial_group))]
pub(crate) fn initial_group(seed: u32, size: u32) -> Group
    requires seed { seed ≤ most_seed }
    requires few { size ≤ most_size }
    ensures group { result ≡ initial_group seed size }
{
    let end = 8 * size + 1;
    ball_group(
        draw(seed, 1) % end,
        draw(seed, 2) % end,
        draw(seed, 3) % end,
        2 + draw(seed, 4) % 4,
        100 + draw(seed, 5) % 900,
    )
}

#[tactic(auto, unfolding(crate::specs::DemoTexts::ball_group))]
fn ball_group(x: u32, y: u32, z: u32, radius: u32, amount: u32) -> Group
    ensures group { result ≡ ball_group x y z radius amount }
{
    let mut text = Text::of(
        b"Initial {\n  ball {\n    shape = \"ball\";\n    field = \"a\";\n    center = ",
    );
    text.push(three(x, y, z).bytes());
    text.push(b";\n    radius = ");
    text.push_number(radius);
    text.push(b";\n    amount = ");
    text.push_number(amount);
    text.push(b";\n  }\n}\n");
    text
}

#[tactic(auto, unfolding(crate::specs::DemoTexts::adapt_group))]
pub(crate) fn adapt_group() -> &'static [u8]
    ensures group { result.now ≡ adapt_group }
    ensures short { length result.now ≤ 120 }
{
    b"Adapt {\n  heavy {\n    type = \"mass\";\n    field = \"a\";\n    refine = 40;\n    coarsen = 4;\n  }\n}\n"
}

#[tactic(auto, unfolding(crate::specs::DemoTexts::method_group))]
pub(crate) fn method_group(seed: u32, size: u32) -> Group
    requires seed { seed ≤ most_seed }
    requires few { size ≤ most_size }
    ensures group { result ≡ method_group seed size }
{
    flow_group(
        draw(seed, 6) % 9,
        draw(seed, 7) % 9,
        draw(seed, 8) % 9,
        8 * size,
    )
}

#[tactic(auto, unfolding(crate::specs::DemoTexts::flow_group))]
fn flow_group(u: u32, v: u32, w: u32, cycles: u32) -> Group
    ensures group { result ≡ flow_group u v w cycles }
{
    let mut text = Text::of(b"Method {\n  velocity = ");
    text.push(three(u, v, w).bytes());
    text.push(b";\n  den = 128;\n  cycles = ");
    text.push_number(cycles);
    text.push(b";\n}\n");
    text
}

#[tactic(auto, unfolding(crate::specs::DemoTexts::three))]
fn three(a: u32, b: u32, c: u32) -> Text<64>
    ensures list { result ≡ three a b c }
{
    let mut text = Text::of(b"[");
    text.push_number(a);
    text.push(b", ");
    text.push_number(b);
    text.push(b", ");
    text.push_number(c);
    text.push(b"]");
    text
}

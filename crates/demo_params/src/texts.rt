//! The text of the demonstration.
ghost use Rattle.std.specs.Prelude.{◌≡◌, ◌≤◌, IfOk, length};
ghost use Rattle.demo_params.specs.DemoTexts.{demo_text, longest_text, most_seed, most_size};

use crate::groups::{adapt_group, field_group, initial_group, mesh_group, method_group};
use cello_num::Memory;
use std::alloc::Global;
use text_line::Text;

/// The parameters of the demonstration of a seed, as a text: `size` trees along each axis, a ball of amounts that flows
/// across the domain, and leaves that follow it. Seeds are at most 65,535, and sizes from 1 to 4.
pub fn demo_params(alloc: Global, seed: u32, size: u32) -> Result<Vec<u8>, Memory>
    requires seed { seed ≤ most_seed }
    requires some { 1 ≤ size }
    requires few { size ≤ most_size }
    ensures text { IfOk result (λ bytes. bytes.items ≡ demo_text seed size) }
    ensures short { IfOk result (λ bytes. length bytes.items ≤ longest_text) }
{
    let text = demo_text(seed, size);
    Ok(text.bytes().to_vec(alloc)?)
}

#[tactic(auto, unfolding(crate::specs::DemoTexts::demo_text))]
fn demo_text(seed: u32, size: u32) -> Text<1024>
    requires seed { seed ≤ most_seed }
    requires few { size ≤ most_size }
    ensures text { result ≡ demo_text seed size }
{
    let mesh = mesh_group(size);
    let initial = initial_group(seed, size);
    let method = method_group(seed, size);
    let mut text = Text::of(mesh.bytes());
    text.push(field_group());
    text.push(initial.bytes());
    text.push(adapt_group());
    text.push(method.bytes());
    text
}

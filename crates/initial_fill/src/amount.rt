//! The amount of a root cell.
ghost use Rattle.std.specs.Prelude.{◌≡◌, ◌*◌, ◌^◌, ◌<◌, ◌≤◌};
ghost use Rattle.params_check.specs.Amounts.{holds_cell, lies_between, root_amount, squared_gap};

use params_check::{Form, Params};

/// The amount of a root cell in a field, by the field's position: the sum over the field's shapes that hold the cell.
/// Coordinates are in root cells, from the low corner of the domain.
pub fn root_amount(params: &Params, field: u8, x: u16, y: u16, z: u16) -> u64
    ensures amount { result ≡ root_amount params.now.shapes field x y z }
{
    let mut amount = 0;
    for shape in params.shapes().items() {
        if shape.field == field
            && holds_cell(shape.form, u32::from(x), u32::from(y), u32::from(z))
        {
            amount += shape.amount;
        }
    }
    amount
}

/// Whether a form holds a root cell.
fn holds_cell(form: Form, x: u32, y: u32, z: u32) -> bool
    requires x { x < 2 ^ 21 }
    requires y { y < 2 ^ 21 }
    requires z { z < 2 ^ 21 }
    ensures { result ≡ holds_cell form x y z }
{
    match form {
        Form::Cuboid { low, high } => {
            lies_between(low[0], high[0], x)
                && lies_between(low[1], high[1], y)
                && lies_between(low[2], high[2], z)
        }
        Form::Ball { center, radius } => {
            let diameter = 2 * u64::from(radius);
            let squared_distance = squared_gap(x, center[0])
                + squared_gap(y, center[1])
                + squared_gap(z, center[2]);
            squared_distance <= diameter * diameter
        }
    }
}

/// Whether a coordinate is from `low` on and below `high`.
pub(crate) fn lies_between(low: u16, high: u16, x: u32) -> bool
    ensures { result ≡ lies_between low high x }
{
    u32::from(low) <= x && x < u32::from(high)
}

/// The square of twice the distance from a cell's middle to a center, along an axis.
pub(crate) fn squared_gap(cell: u32, center: u16) -> u64
    requires cell { cell < 2 ^ 21 }
    ensures gap { result ≡ squared_gap cell center }
    ensures few { result ≤ 2 ^ 44 }
{
    let gap = (2 * u64::from(cell) + 1).abs_diff(2 * u64::from(center));
    gap * gap
}

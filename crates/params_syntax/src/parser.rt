//! The state of reading after one more token.
ghost use Rattle.std.specs.Prelude.{◌≡◌, IfOk};
ghost use Rattle.params_syntax.specs.Machine.Steps.{StepsTo};
ghost use Rattle.params_syntax.specs.Machine.States.{on_name, on_atom, in_sub, on_opens, closed, on_closes, on_equals, with_setting, on_ends, on_list_opens, on_list_closes, on_comma, on_sign, step};

use crate::refusal::Refusal;
use crate::state::{Frame, State};
use crate::token::{Sign, Token};
use crate::tree::{Atom, Atoms, Group, Item, Items, MOST_ELEMENTS, Setting, Settings, Value};
use cello_num::{Memory, Name};
use std::alloc::Global;

/// After a name.
fn on_name(state: State, name: Name) -> Result<State, Refusal>
    ensures step { StepsTo result (on_name state name) }
{
    match state {
        State::Top { groups } => Ok(State::GroupNamed {
            groups,
            group: name,
        }),
        State::Inside { frame } => Ok(State::Named { frame, name }),
        _ => Err(Refusal::Unexpected),
    }
}

/// After a number or a word.
fn on_atom(alloc: Global, state: State, atom: Atom) -> Result<State, Refusal>
    ensures step { StepsTo result (on_atom state atom) }
{
    match state {
        State::Assigned { frame, name } => {
            let value = Value::Atom(atom);
            Ok(State::Valued { frame, name, value })
        }
        State::Listed { frame, name } => {
            let atoms = Atoms::new(alloc).with(atom)?;
            Ok(State::Element { frame, name, atoms })
        }
        State::Separated { frame, name, atoms } => {
            if atoms.items().len() == MOST_ELEMENTS {
                return Err(Refusal::Length);
            }
            let atoms = atoms.with(atom)?;
            Ok(State::Element { frame, name, atoms })
        }
        _ => Err(Refusal::Unexpected),
    }
}

/// A sub begins, where none is open.
fn in_sub(alloc: Global, frame: Frame, sub: Name) -> Result<State, Refusal>
    ensures step { StepsTo result (in_sub frame sub) }
{
    match frame {
        Frame::InGroup {
            groups,
            group,
            items,
        } => {
            let sets = Settings::new(alloc);
            let frame = Frame::InSub {
                groups,
                group,
                items,
                sub,
                sets,
            };
            Ok(State::Inside { frame })
        }
        _ => Err(Refusal::Unexpected),
    }
}

/// After a `{`.
fn on_opens(alloc: Global, state: State) -> Result<State, Refusal>
    ensures step { StepsTo result (on_opens state) }
{
    match state {
        State::GroupNamed { groups, group } => {
            let items = Items::new(alloc);
            let frame = Frame::InGroup {
                groups,
                group,
                items,
            };
            Ok(State::Inside { frame })
        }
        State::Named { frame, name } => in_sub(alloc, frame, name),
        _ => Err(Refusal::Unexpected),
    }
}

/// The group or sub ends.
fn closed(frame: Frame) -> Result<State, Memory>
    ensures closed { IfOk result (λ state. state ≡ closed frame) }
{
    match frame {
        Frame::InGroup {
            groups,
            group,
            items,
        } => {
            let groups = groups.with(Group { name: group, items })?;
            Ok(State::Top { groups })
        }
        Frame::InSub {
            groups,
            group,
            items,
            sub,
            sets,
        } => {
            let items = items.with(Item::Sub { name: sub, sets })?;
            let frame = Frame::InGroup {
                groups,
                group,
                items,
            };
            Ok(State::Inside { frame })
        }
    }
}

/// After a `}`.
fn on_closes(state: State) -> Result<State, Refusal>
    ensures step { StepsTo result (on_closes state) }
{
    match state {
        State::Inside { frame } => Ok(closed(frame)?),
        _ => Err(Refusal::Unexpected),
    }
}

/// After a `=`.
fn on_equals(state: State) -> Result<State, Refusal>
    ensures step { StepsTo result (on_equals state) }
{
    match state {
        State::Named { frame, name } => Ok(State::Assigned { frame, name }),
        _ => Err(Refusal::Unexpected),
    }
}

/// One setting more.
fn with_setting(frame: Frame, setting: Setting) -> Result<Frame, Memory>
    ensures more { IfOk result (λ longer. longer ≡ with_setting frame setting) }
{
    match frame {
        Frame::InGroup {
            groups,
            group,
            items,
        } => {
            let items = items.with(Item::Set(setting))?;
            Ok(Frame::InGroup {
                groups,
                group,
                items,
            })
        }
        Frame::InSub {
            groups,
            group,
            items,
            sub,
            sets,
        } => {
            let sets = sets.with(setting)?;
            Ok(Frame::InSub {
                groups,
                group,
                items,
                sub,
                sets,
            })
        }
    }
}

/// After a `;`.
fn on_ends(state: State) -> Result<State, Refusal>
    ensures step { StepsTo result (on_ends state) }
{
    match state {
        State::Valued { frame, name, value } => {
            let frame = with_setting(frame, Setting { name, value })?;
            Ok(State::Inside { frame })
        }
        _ => Err(Refusal::Unexpected),
    }
}

/// After a `[`.
fn on_list_opens(state: State) -> Result<State, Refusal>
    ensures step { StepsTo result (on_list_opens state) }
{
    match state {
        State::Assigned { frame, name } => Ok(State::Listed { frame, name }),
        _ => Err(Refusal::Unexpected),
    }
}

/// After a `]`.
fn on_list_closes(alloc: Global, state: State) -> Result<State, Refusal>
    ensures step { StepsTo result (on_list_closes state) }
{
    match state {
        State::Listed { frame, name } => {
            let value = Value::List(Atoms::new(alloc));
            Ok(State::Valued { frame, name, value })
        }
        State::Element { frame, name, atoms } => {
            let value = Value::List(atoms);
            Ok(State::Valued { frame, name, value })
        }
        _ => Err(Refusal::Unexpected),
    }
}

/// After a `,`.
fn on_comma(state: State) -> Result<State, Refusal>
    ensures step { StepsTo result (on_comma state) }
{
    match state {
        State::Element { frame, name, atoms } => Ok(State::Separated { frame, name, atoms }),
        _ => Err(Refusal::Unexpected),
    }
}

/// After a sign.
fn on_sign(alloc: Global, state: State, sign: Sign) -> Result<State, Refusal>
    ensures step { StepsTo result (on_sign state sign) }
{
    match sign {
        Sign::Opens => on_opens(alloc, state),
        Sign::Closes => on_closes(state),
        Sign::Equals => on_equals(state),
        Sign::Ends => on_ends(state),
        Sign::ListOpens => on_list_opens(state),
        Sign::ListCloses => on_list_closes(alloc, state),
        Sign::Comma => on_comma(state),
    }
}

/// The state after one more token, or why it isn't taken.
pub fn advance(alloc: Global, state: State, token: Token) -> Result<State, Refusal>
    ensures step { StepsTo result (step state token) }
{
    match token {
        Token::Sign(sign) => on_sign(alloc, state, sign),
        Token::Name(name) => on_name(state, name),
        Token::Atom(atom) => on_atom(alloc, state, atom),
    }
}

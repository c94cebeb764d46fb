//! Reading a text: its tree, or its first fault.
ghost use Rattle.std.specs.Prelude.{◌≡◌, ◌≤◌, length, IfOk, IfErr};
ghost use Rattle.params_syntax.specs.Limits.{longest};
ghost use Rattle.params_syntax.specs.Reading.{Spells, IsUnread};
ghost use Rattle.params_syntax.specs.Machine.Steps.{fault_of, refusal_of, KeepsTop, end_of};

use crate::fault::{ReadError, SyntaxFault, SyntaxKind};
use crate::lexer::{after_gap, token_at};
use crate::parser::advance;
use crate::refusal::Refusal;
use crate::state::State;
use crate::tree::Tree;
use crate::tree::growing::Groups;
use std::alloc::Global;

/// The most bytes of a text.
const LONGEST: usize = 65_536;

/// A fault at an offset.
fn fault(offset: usize, kind: SyntaxKind) -> ReadError
    requires short { offset ≤ longest }
    ensures fault { result ≡ fault_of offset kind }
{
    ReadError::Syntax(SyntaxFault {
        offset: offset as u32,
        kind,
    })
}

/// Why reading ends at a token that isn't taken.
fn refused(offset: usize, refusal: Refusal) -> ReadError
    requires short { offset ≤ longest }
    ensures refusal { result ≡ refusal_of offset refusal }
{
    match refusal {
        Refusal::Unexpected => fault(offset, SyntaxKind::Unexpected),
        Refusal::Length => fault(offset, SyntaxKind::Length),
        Refusal::Memory => ReadError::Memory,
    }
}

/// The tree at the end of a text of this length.
fn ended(long: usize, state: State) -> Result<Tree, ReadError>
    requires short { long ≤ longest }
    requires limits { KeepsTop state }
    ensures end { result ≡ end_of long state }
{
    match state {
        State::Top { groups } => Ok(Tree::of(groups.into_vec())),
        _ => Err(fault(long, SyntaxKind::End)),
    }
}

/// The tree of a text that isn't too long, or its first fault.
fn read_short(alloc: Global, text: &[u8]) -> Result<Tree, ReadError>
    requires short { length text.now ≤ longest }
    ensures tree { IfOk result (λ tree. Spells text.now tree) }
    ensures fault { IfErr result (λ e. IsUnread text.now e) }
{
    let mut state = State::Top {
        groups: Groups::new(alloc),
    };
    let mut here = after_gap(text);
    while let [first, tail @ ..] = here {
        let offset = text.len() - here.len();
        let (token, after) = match token_at(*first, tail, here) {
            Ok(found) => found,
            Err(kind) => return Err(fault(offset, kind)),
        };
        state = match advance(alloc, state, token) {
            Ok(next) => next,
            Err(refusal) => return Err(refused(offset, refusal)),
        };
        here = after_gap(after);
    }
    ended(text.len(), state)
}

/// The tree of a text, or the first fault of its syntax.
pub fn read(alloc: Global, text: &[u8]) -> Result<Tree, ReadError>
    ensures tree { IfOk result (λ tree. Spells text.now tree) }
    ensures fault { IfErr result (λ e. IsUnread text.now e) }
{
    if text.len() > LONGEST {
        return Err(fault(LONGEST, SyntaxKind::Long));
    }
    read_short(alloc, text)
}

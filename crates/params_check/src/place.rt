//! Where a fault stands: in a group, in a sub of it, at a key.
ghost use Rattle.std.specs.Prelude.{◌≡◌, ◌≤◌, [], length};
ghost use Rattle.params_check.specs.Walks.{fault};

use crate::fault::{ParamFault, ParamKind};
use cello_num::Name;

/// A group, or a sub of it. The sub is empty where there is none.
#[derive(Clone, Copy)]
pub(crate) struct Place {
    pub(crate) group: Name,
    pub(crate) sub: Name,
}

impl Place {
    /// A group.
    pub(crate) fn of_group(group: &[u8]) -> Place
        requires short { length group.now ≤ 32 }
        ensures group { result.group ≡ group.now }
        ensures no_sub { result.sub ≡ [] }
    {
        Place {
            group: name(group),
            sub: name(b""),
        }
    }

    /// A fault of a key.
    pub(crate) fn fault(&self, key: Name, kind: ParamKind) -> ParamFault
        ensures fault { result ≡ fault self.now.group self.now.sub key kind }
    {
        ParamFault {
            group: self.group,
            sub: self.sub,
            key,
            kind,
        }
    }
}

/// The name of these bytes.
pub(crate) fn name(bytes: &[u8]) -> Name
    requires short { length bytes.now ≤ 32 }
    ensures bytes { result ≡ bytes.now }
{
    Name::of(bytes).unwrap()
}

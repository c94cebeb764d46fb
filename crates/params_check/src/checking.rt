//! From a tree to parameters.
ghost use Rattle.std.specs.Prelude.{◌≡◌, Ok, IfOk, IfErr};
ghost use Rattle.params_check.specs.Walks.{parameters_of, IsRefused};

use crate::fault::CheckError;
use crate::name_walk::walk_names;
use crate::params::Params;
use crate::together::walk_together;
use crate::value_walk::walk_values;
use params_syntax::{Tree, write};
use std::alloc::Global;

/// The parameters of a tree, or its first fault.
pub fn check(alloc: Global, tree: &Tree) -> Result<Params, CheckError>
    ensures params { IfOk result (λ p. parameters_of tree.now ≡ Ok p) }
    ensures fault { IfErr result (λ e. IsRefused tree.now e) }
{
    let groups = tree.items();
    walk_names(groups)?;
    let text = write(alloc, tree)?;
    let values = walk_values(alloc, groups, text)?;
    walk_together(&values)?;
    Ok(Params::of(values))
}

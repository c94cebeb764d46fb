//! What the level rules say of one leaf at a time: the levels that open a phase, and the leaves that its end leaves.
//!
//! `opening` gives the least levels that the rules about a leaf alone allow. `levels_ok` names the first rule that levels
//! break. `count_after` and `decide` take the levels that a phase ends with, a solution of all rules, and give the next
//! mesh. The rules and the next mesh stand in the specs of `leaf_set`, broken rules in `specs/BrokenRules.antt`.
#![tactic(auto)]

mod broken;
mod level_check;
mod next_leaves;
mod own_rules;
mod siblings;

pub use broken::{Broken, LevelRule};
pub use level_check::levels_ok;
pub use next_leaves::{count_after, decide};
pub use own_rules::opening;

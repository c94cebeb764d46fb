//! Fluxes through the faces of a grid of several levels, and the state after an advance by them.
//!
//! Where cells of two levels meet, the coarse one is given the sum of the fine fluxes (Berger and Colella 1989), so
//! a field's total changes by what passes the outer faces alone. All but the flux of one level holds for every
//! scheme; the upwind flux is the first of them. The definitions stand in `specs/`; there is no code beside the laws.
#![tactic(auto)]

mod laws;

pub use laws::{
    advanced_states, advancing_balances, amounts_by_their_surroundings, amounts_on_the_way,
    cells_beside, closed_ends, own_fluxes_from_both_sides, replacing_fluxes, shares_stay_within,
    still_axes, totals_bound_advances,
};

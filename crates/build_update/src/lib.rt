// UPDATE planned (planner.rs, build_update).
#![tactic(auto)]

mod set; // set.rt: what a column is set to
mod sets; // sets.rt: the sets in order
pub mod update; // update.rt: the statement

// INSERT planned (planner.rs, build_insert).
#![tactic(auto)]

pub mod insert; // insert.rt: the table, its column map, the rows and the own numbers
pub mod map; // map.rt: the column map
mod own; // own.rt: the statement's own numbers
mod rows; // rows.rt: the rows of values, and their node

// Groups and aggregate functions appended to the plan (planner.rs, build_aggregate).
#![tactic(auto)]

pub mod function; // function.rt: one aggregate function
pub mod lists; // lists.rt: the groups and the functions of a node
pub mod node; // node.rt: the aggregate node

// WHERE, HAVING, ORDER, OFFSET, LIMIT and the remap that drops hidden columns: each a step of a SELECT behind the node
// before it (planner.rs, build_select).
#![tactic(auto)]

pub mod filters; // filters.rt: WHERE and HAVING
pub mod orders; // orders.rt: ORDER
pub mod remaps; // remaps.rt: the remap that drops hidden columns
pub mod rows; // rows.rt: OFFSET and LIMIT

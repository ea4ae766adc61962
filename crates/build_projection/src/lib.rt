// SELECT's items over FROM's scope and the projection of them (planner.rs, build_select).
#![tactic(auto)]

pub mod items; // items.rt: the items, each star replaced by FROM's columns
mod labels; // labels.rt: the label of each
pub mod projection; // projection.rt: their cells and their parts of the record
mod stars; // stars.rt: the columns that a star stands for, in the table's rows

// DELETE, CREATE and DROP planned (planner.rs, build and the functions it calls), and what INSERT and UPDATE share with them.
#![tactic(auto)]

pub mod create; // create.rt: CREATE TABLE
pub mod delete; // delete.rt: DELETE
pub mod drop; // drop.rt: DROP TABLE
pub mod target; // target.rt: the table of a statement, and the filter of a DELETE or an UPDATE

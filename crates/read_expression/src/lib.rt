// The statement's expressions from their records into the table of rows (crate ast), and the rows of starred columns.
#![tactic(auto)]

mod heads;
pub mod reading;
pub mod starred;

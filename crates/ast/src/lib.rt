// The statement's expressions in a table of rows, and walks over them (ast.rs).
#![tactic(auto)]

pub mod aggregates;
pub mod buffer;
pub mod equality;
pub mod row;
pub mod rows;
pub mod walk;

use text::places::Texts;

// The statement's expressions in their table, and the texts that their names stand in.
#[derive(Clone, Copy, Debug, PartialEq, Eq)]
pub struct Expressions<'t> {
    pub texts: Texts<'t>,
    pub table: &'t [u32],
}

// The plan in the lent area: its cells from the header on, its nodes and the statement's own numbers kept apart until
// the number of cells is known.
#![tactic(auto)]

pub mod cells;
pub mod finish;
pub mod nodes;
pub mod own;
pub mod parts;
pub mod steps;

// Numbers of the header, and of a cell.
pub const HEADER_SIZE: usize = 6;

pub const CELL_SIZE: usize = 4;

// Most cells of a plan.
pub const MOST_CELLS: u32 = 2304;

// Most numbers of the nodes and of the statement's own.
pub const NODES_SIZE: usize = 5782;

// Most numbers of a plan.
pub const PLAN_SIZE: usize = HEADER_SIZE + CELL_SIZE * MOST_CELLS as usize + NODES_SIZE;

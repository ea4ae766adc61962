// Values (value.rs, Value) and what working out an operator gives: a value, or why there is none.
#![tactic(auto)]

pub mod arithmetic;
pub mod bits;
pub mod comparison;
pub mod literals;
pub mod logic;
mod operands;
pub mod operators;

use text::places::Place;

// A text is a place in either text.
#[derive(Clone, Copy, Debug, PartialEq)]
pub enum Value {
    Null,
    Bool(bool),
    Int(i64),
    Float(f64),
    Text(Place),
}

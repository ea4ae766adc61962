// A stage of building a SELECT (planner.rs, build_select): what the planner knows behind a clause.
#![tactic(auto)]

use plan::steps::Step;
use scope::Scope;

// The scope, and how far building came. (Lent to a clause they are two: behind WHERE, HAVING or ORDER only `at` is another, and
// a new Stage would be a copy of the scope, of 1.6 KB.)
#[derive(Clone, Copy, Debug, PartialEq, Eq)]
pub struct Stage {
    pub scope: Scope,
    pub at: Step,
}

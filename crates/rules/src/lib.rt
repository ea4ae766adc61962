// The rules stand in specs/. A crate has at least one function.
#![tactic(auto)]

pub fn rules() {}

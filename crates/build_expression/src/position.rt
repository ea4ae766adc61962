// A column that was looked up, as `lookup_column(..)?` gives it (planner.rs): its position, or a refusal.
ghost use Rattle.std.specs.Prelude.{◌≡◌};
ghost use Rattle.rules.specs.BuildExpression as rules;
ghost use Rattle.scope.specs.Lookup.{found_of};
ghost use Rattle.build_expression.specs.Positions.{position_of};

use numbers::refusals::{Reason, Refusal};

// For a record at a line.
pub fn position_of(found: Result<u32, Reason>, line: u32) -> Result<u32, Refusal>
    ensures { result ≡ position_of (rules.found line (found_of found)) }
{
    found.map_err(|reason| reason.at(line))
}

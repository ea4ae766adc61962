// The planner for a host in C or Rust: its entry under names of C.
#![tactic(auto)]

ghost use Rattle.std.specs.Prelude.{◌≡◌};
ghost use Rattle.rules.specs.Limits.{least_area};
ghost use Rattle.rules.specs.Area.{layout};
ghost use Rattle.rules.specs.Entry.{plan};
ghost use Rattle.planner.specs.Outcomes.{Answers};

use planner::Outcome;

// The plan of the statement over the catalog, in the area: whatever the texts are, and whatever the area holds.
#[unsafe(no_mangle)]
pub extern "C" fn planner_plan(catalog: &[u8], statement: &[u8], area: &mut [u32]) -> Outcome
    ensures { Answers (plan catalog.now statement.now area.old) result area.new }
{
    planner::planner_plan(catalog, statement, area)
}

// The number of the area's layout, which is the first of a plan's numbers.
#[unsafe(no_mangle)]
pub extern "C" fn planner_layout() -> u32
    ensures { result ≡ layout }
{
    planner::planner_layout()
}

// The least numbers of an area.
#[unsafe(no_mangle)]
pub extern "C" fn planner_area_length() -> usize
    ensures { result ≡ least_area }
{
    planner::planner_area_length()
}

// What the planning program prints: the listing of the plan that the planner made of two texts, or of its refusal.
#![tactic(auto)]

ghost use Rattle.std.specs.Prelude.{drop};
ghost use Rattle.listing.specs.Listed.{Holds};
ghost use Rattle.plan_listing.specs.Shown.{shown, Lists};

use listing::Window;
use planner::{LEAST_AREA, Outcome, plan};
use text::places::Texts;

// The area that the planner is lent.
pub type Area = [u32; LEAST_AREA];

// The listing of what the planner answered, from its byte `from` on: how many bytes of the window it has, with none behind
// them; or `None`, where it fills the window and there may be more. Where the outcome and the area are the planner's, this
// is the rules' listing (specs/Shown.antt, `planned-shown`).
pub fn list_outcome(
    texts: &Texts,
    outcome: Outcome,
    area: &[u32],
    from: u32,
    out: &mut Window,
) -> Option<usize>
    ensures { Holds (drop from (shown texts.now.catalog.now texts.now.statement.now outcome area.now)) out.new result }
{
    if outcome.number == 0 {
        return listing::list(texts, area, from, out);
    }
    listing::list_refusal(outcome.number, outcome.text, outcome.line, from, out)
}

// Both texts planned, and the start of their listing: whatever the texts are, and whatever the area holds.
pub fn list_plan(texts: &Texts, area: &mut Area, out: &mut Window) -> Option<usize>
    ensures { Lists texts.now.catalog.now texts.now.statement.now area.old area.new out.new result }
{
    let planned = Outcome::from(plan(texts, area));
    list_outcome(texts, planned, area, 0, out)
}

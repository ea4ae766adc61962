// The planner: both texts to the plan in the lent area (document 01, "Entry"; planner.rs, Planner::build).
#![tactic(auto)]

mod building; // building.rt: a statement that was read, by its kind

ghost use Rattle.std.specs.Prelude.{◌≡◌, ◌≤◌, length};
ghost use Rattle.rules.specs.Limits.{least_area};
ghost use Rattle.rules.specs.Area.{layout};
ghost use Rattle.rules.specs.Entry.{outcome, plan};
ghost use Rattle.schema.specs.Room.{numbers_for};
ghost use Rattle.planner.specs.Outcomes.{built_of, cleared_by, told, Answers};

use building::build;
use numbers::refusals::{Reason, Text, TextRefusal};
use plan::finish::{LAYOUT, clear};
use reader::read_texts;
use schema::NUMBERS;
use schema::read::{SMALL_NUMBERS, numbers_for};
use statement::{CELL_NUMBERS, FROM_NUMBERS, PART_NUMBERS};
use text::places::Texts;

// The least numbers of an area.
pub const LEAST_AREA: usize = 16384;

// Document 01's number of a refusal, its text (1 catalog, 2 statement) and line; or 0 and how many cells the plan has.
#[repr(C)]
#[derive(Clone, Copy, Debug, PartialEq, Eq)]
pub struct Outcome {
    pub number: u32,
    pub text: u32,
    pub line: u32,
    pub count: u32,
}

// What came of planning: how many cells the plan has, or a refusal.
impl From<Result<u32, TextRefusal>> for Outcome {
    ghost from_gives = { λ planned outcome. outcome ≡ told planned };

    #[tactic(auto, unfolding(crate::specs::Outcomes::told))]
    fn from(planned: Result<u32, TextRefusal>) -> Outcome {
        match planned {
            Ok(n) => Outcome {
                number: 0,
                text: 0,
                line: 0,
                count: n,
            },
            Err(refusal) => Outcome {
                number: u32::from(refusal.reason),
                text: u32::from(refusal.text),
                line: refusal.line,
                count: 0,
            },
        }
    }
}

// Both texts read and planned, but that a refusal does not clear the area; `tables` has enough numbers for the catalog.
fn plan_with(texts: &Texts, tables: &mut [u32], area: &mut [u32]) -> Result<u32, TextRefusal>
    requires tables_room { numbers_for (length texts.now.catalog.now) ≤ length tables.old }
    requires area_room { least_area ≤ length area.old }
    ensures { Answers (outcome area.old (built_of texts.now.catalog.now texts.now.statement.now)) (told result)
        (cleared_by result area.new) }
{
    let mut cells = [0u32; CELL_NUMBERS];
    let mut froms = [0u32; FROM_NUMBERS];
    let mut parts = [0u32; PART_NUMBERS];
    read_texts(texts, tables, &mut cells, &mut froms, &mut parts)?;
    let planned = build(texts, tables, &mut cells, &froms, &parts, area);
    planned.map_err(|refusal| Text::Statement.refuses(refusal))
}

// The same with few numbers for the catalog, where they are enough.
fn plan_long(texts: &Texts, area: &mut [u32]) -> Result<u32, TextRefusal>
    requires { least_area ≤ length area.old }
    ensures { Answers (outcome area.old (built_of texts.now.catalog.now texts.now.statement.now)) (told result)
        (cleared_by result area.new) }
{
    if numbers_for(texts.catalog.len()) <= SMALL_NUMBERS {
        let mut small = [0u32; SMALL_NUMBERS];
        return plan_with(texts, &mut small, area);
    }
    let mut tables = [0u32; NUMBERS];
    plan_with(texts, &mut tables, area)
}

// The plan of the statement over the catalog, in the area, and how many cells it has: whatever the texts are, and whatever
// the area holds.
pub fn plan(texts: &Texts, area: &mut [u32]) -> Result<u32, TextRefusal>
    ensures { Answers (plan texts.now.catalog.now texts.now.statement.now area.old) (told result) area.new }
{
    if area.len() < LEAST_AREA {
        return Err(Text::Statement.refuses(Reason::ShortArea.at(0)));
    }
    let planned = plan_long(texts, area);
    if planned.is_err() {
        clear(area);
    }
    planned
}

// The same, as C has the two texts and the answer.
pub fn planner_plan(catalog: &[u8], statement: &[u8], area: &mut [u32]) -> Outcome
    ensures { Answers (plan catalog.now statement.now area.old) result area.new }
{
    Outcome::from(plan(&Texts { catalog, statement }, area))
}

// The number of the area's layout, which is the first of a plan's numbers.
pub fn planner_layout() -> u32
    ensures { result ≡ layout }
{
    LAYOUT
}

// The least numbers of an area.
pub fn planner_area_length() -> usize
    ensures { result ≡ least_area }
{
    LEAST_AREA
}

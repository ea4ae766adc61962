// The end of a plan: the header, the nodes and the statement's own numbers behind the cells, and zeros behind all.
ghost use Rattle.std.specs.Prelude.{◌≡◌, [], ◌∷◌, ◌+◌, ◌≤◌, length, replicate, MatchResult};
ghost use Rattle.std.proofs.lemmas.List.Edits.{sets};
ghost use Rattle.std.proofs.Math.Seq.{paste};
ghost use Rattle.rules.specs.Area.{layout, header_size};
ghost use Rattle.plan.specs.Layout.{plan_size, nodes_size, most_plan_cells};
ghost use Rattle.plan.specs.Kinds.{statement_number};
ghost use Rattle.plan.specs.declared.finish.Kind.{Kind};
ghost use Rattle.plan.specs.Finished.{cleared, finished};

use crate::nodes::Nodes;
use crate::steps::Step;
use crate::{CELL_SIZE, HEADER_SIZE};
use numbers::{UnknownNumber, put};

// The kinds of statement, by their numbers in the plan. (Their conversions stand beside those of `nodes::Kind`: each names its own
// kinds, and std derives none.)
#[derive(Clone, Copy, Debug, PartialEq, Eq)]
pub enum Kind {
    Select = 1,
    Create,
    Drop,
    Delete,
    Insert,
    Update,
}

impl From<Kind> for u32 {
    ghost from_gives = { λ kind number. number ≡ statement_number kind };

    fn from(kind: Kind) -> u32 {
        kind as u32
    }
}

impl TryFrom<u32> for Kind {
    type Error = UnknownNumber;

    ghost try_from_gives = { λ number r. MatchResult r (λ kind. number ≡ statement_number kind) (λ _. (kind : Kind) → number ≡ statement_number kind → ⊥) };

    fn try_from(number: u32) -> Result<Kind, UnknownNumber> {
        match number {
            1 => Ok(Kind::Select),
            2 => Ok(Kind::Create),
            3 => Ok(Kind::Drop),
            4 => Ok(Kind::Delete),
            5 => Ok(Kind::Insert),
            6 => Ok(Kind::Update),
            _ => Err(UnknownNumber),
        }
    }
}

// The number of this layout.
pub const LAYOUT: u32 = 1;

// The statement's kind, how many cells and nodes there are, where the own numbers start, and where all end.
fn put_header(area: &mut [u32], code: u32, cells: u32, nodes: u32, own: u32, all: u32)
    requires { header_size ≤ length area.old }
    ensures { area.new ≡ sets area.old 0 (layout ∷ code ∷ cells ∷ nodes ∷ own ∷ all ∷ []) }
{
    put(area, 0, [LAYOUT, code, cells, nodes, own, all]);
}

// The first n numbers of the nodes, from place i on. (By `copy_from_slice` the library would call `memmove`.)
fn copy(area: &mut [u32], i: usize, nodes: &[u32], n: usize)
    requires { (i + n ≤ length area.old) × (n ≤ length nodes.now) }
    ensures { area.new ≡ paste area.old i nodes.now n }
{
    for j in 0..n {
        area[i + j] = nodes[j];
    }
}

// All from place i on is zero.
fn clear_from(area: &mut [u32], i: usize)
    requires { i ≤ length area.old }
    ensures { area.new ≡ cleared i area.old }
{
    area[i..].fill(0);
}

// All is zero: the area after a refusal.
pub fn clear(area: &mut [u32])
    ensures { area.new ≡ replicate (length area.old) 0 }
{
    clear_from(area, 0);
}

// The plan of a statement of a kind, by its number: the cells and the nodes before a step, whose cells stand in the area, the
// first `end` of the nodes' numbers and, from place `own` of them on, the statement's own.
pub fn finish(area: &mut [u32], nodes: &[u32], code: u32, at: Step, own: usize, end: usize)
    requires { (plan_size ≤ length area.old) × (at.cell ≤ most_plan_cells) × (own ≤ end) × (end ≤ nodes_size)
        × (end ≤ length nodes.now) }
    ensures { area.new ≡ finished code at.cell at.node own end nodes.now area.old }
{
    let i = HEADER_SIZE + CELL_SIZE * (at.cell as usize);
    let all = i + end;
    put_header(area, code, at.cell, at.node, (i + own) as u32, all as u32);
    copy(area, i, nodes, end);
    clear_from(area, all);
}

impl Nodes<'_> {
    // The same of all the numbers that were pushed.
    pub fn finish(&self, area: &mut [u32], kind: Kind, at: Step, own: usize)
        requires { (plan_size ≤ length area.old) × (at.cell ≤ most_plan_cells) × (own ≤ self.now.used)
            × (self.now.used ≤ nodes_size) × (self.now.used ≤ length self.now.numbers.now) }
        ensures { area.new ≡ finished (statement_number kind) at.cell at.node own self.now.used self.now.numbers.now
            area.old }
    {
        finish(area, self.numbers, u32::from(kind), at, own, self.used);
    }
}

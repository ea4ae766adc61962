// The numbers of the nodes, and node records of a fixed length (docs/PLAN.md, "Nodes"): the kind, how many numbers follow, and
// those. A number that may be missing stands as one more than it, or 0.
#![tactic(auto, using(numbers::specs::Flags::byte_flag), unfolding(rules::specs::Area::record_numbers, rules::specs::Area::sized, rules::specs::Area::row_numbers, rules::specs::Area::halves, crate::specs::Records::rows_numbers))]

ghost use Rattle.std.specs.Prelude.{◌≡◌, [], ◌∷◌, ◌<◌, ◌^◌, MatchResult};
ghost use Rattle.std.proofs.Math.Option.{Option};
ghost use Rattle.rules.specs.Lines.{Word};
ghost use Rattle.rules.specs.Schema.{Table};
ghost use Rattle.rules.specs.Nodes.{scan, values, join, filter};
ghost use Rattle.rules.specs.Area.{span, option_span, option_number, record_numbers};
ghost use Rattle.numbers.specs.Options.{option_of};
ghost use Rattle.plan.specs.Layout.{record_head, scan_size, empty_row_size, join_size, filter_size, rows_size};
ghost use Rattle.plan.specs.Pushed.{NodeRoom, Pushed};
ghost use Rattle.plan.specs.Kinds.{node_number};
ghost use Rattle.plan.specs.declared.nodes.Kind.{Kind};
ghost use Rattle.plan.specs.Places.{place_numbers};
ghost use Rattle.text.specs.Places.{option_numbers};
ghost use Rattle.plan.specs.Records.{rows_numbers};

use numbers::halves::{high, low};
use numbers::options::number_of;
use numbers::{UnknownNumber, put};
use text::places::Place;

// A lent slice, and how many of its numbers are in use: those of the nodes, and behind them the statement's own.
// (Apart from `ast::buffer::Rows`, which lends what stands in it and may be full: all that one type for both could share is `push`.
// Apart from the area, since many functions take one without the other.)
#[derive(Drop)]
pub struct Nodes<'n> {
    pub numbers: &'n mut [u32],
    pub used: usize,
}

impl<'n> Nodes<'n> {
    pub fn push(&mut self, x: u32)
        requires { NodeRoom 1 self.old }
        ensures { Pushed (x ∷ []) self.old self.new }
    {
        self.numbers[self.used] = x;
        self.used += 1;
    }

    pub fn extend<const N: usize>(&mut self, numbers: [u32; N])
        requires { NodeRoom N self.old }
        ensures { Pushed numbers.entry self.old self.new }
    {
        put(self.numbers, self.used, numbers);
        self.used += N;
    }

    // The address and the length of a place, or two zeros for none.
    pub fn place(&mut self, place: Option<Place>)
        requires { NodeRoom 2 self.old }
        ensures { Pushed (option_numbers place) self.old self.new }
    {
        let (address, length) = Place::numbers(place);
        self.extend([address, length]);
    }
}

// The kinds of node, by their numbers in the plan.
#[derive(Clone, Copy, Debug, PartialEq, Eq)]
pub enum Kind {
    Scan = 1,
    Values,
    Join,
    Filter,
    Aggregate,
    Project,
    Order,
    Offset,
    Limit,
    Remap,
}

impl From<Kind> for u32 {
    ghost from_gives = { λ kind number. number ≡ node_number kind };

    fn from(kind: Kind) -> u32 {
        kind as u32
    }
}

impl TryFrom<u32> for Kind {
    type Error = UnknownNumber;

    ghost try_from_gives = { λ number r. MatchResult r (λ kind. number ≡ node_number kind) (λ _. (kind : Kind) → number ≡ node_number kind → ⊥) };

    fn try_from(number: u32) -> Result<Kind, UnknownNumber> {
        match number {
            1 => Ok(Kind::Scan),
            2 => Ok(Kind::Values),
            3 => Ok(Kind::Join),
            4 => Ok(Kind::Filter),
            5 => Ok(Kind::Aggregate),
            6 => Ok(Kind::Project),
            7 => Ok(Kind::Order),
            8 => Ok(Kind::Offset),
            9 => Ok(Kind::Limit),
            10 => Ok(Kind::Remap),
            _ => Err(UnknownNumber),
        }
    }
}

// How many numbers follow a node's kind and length.
const SCAN_LENGTH: u32 = 5;

const EMPTY_ROW_LENGTH: u32 = 1;

const JOIN_LENGTH: u32 = 4;

const FILTER_LENGTH: u32 = 2;

const ROWS_LENGTH: u32 = 3;

// The head of a record: its kind, and how many numbers follow.
pub fn head(nodes: &mut Nodes, kind: Kind, count: u32)
    requires { NodeRoom record_head nodes.old }
    ensures { Pushed (node_number kind ∷ count ∷ []) nodes.old nodes.new }
{
    nodes.extend([u32::from(kind), count]);
}

// The rows of a table by its name; its alias; its filter's root.
pub fn scan(nodes: &mut Nodes, name: Place, alias: Option<Place>, filter: Option<u32>)
    requires room { NodeRoom scan_size nodes.old }
    requires root { option_number (option_of filter) < 2 ^ 32 }
    ensures { (t : Table) (w : Option Word) → span t.name ≡ place_numbers name → option_span w ≡ option_numbers alias
        → Pushed (record_numbers (scan t w (option_of filter))) nodes.old nodes.new }
{
    head(nodes, Kind::Scan, SCAN_LENGTH);
    nodes.place(Some(name));
    nodes.push(number_of(filter));
    nodes.place(alias);
}

// One row of no columns: the source of a SELECT that has no FROM.
pub fn empty_row(nodes: &mut Nodes)
    requires { NodeRoom empty_row_size nodes.old }
    ensures { Pushed (record_numbers (values ([] ∷ []))) nodes.old nodes.new }
{
    head(nodes, Kind::Values, EMPTY_ROW_LENGTH);
    nodes.push(0);
}

// A join of two nodes, with its predicate's root.
pub fn join(nodes: &mut Nodes, left: u32, right: u32, outer: bool, predicate: Option<u32>)
    requires room { NodeRoom join_size nodes.old }
    requires root { option_number (option_of predicate) < 2 ^ 32 }
    ensures { Pushed (record_numbers (join left right (option_of predicate) outer)) nodes.old nodes.new }
{
    head(nodes, Kind::Join, JOIN_LENGTH);
    nodes.extend([left, right, u32::from(outer), number_of(predicate)]);
}

// The rows of a source for which a condition holds.
pub fn filter(nodes: &mut Nodes, source: u32, root: u32)
    requires { NodeRoom filter_size nodes.old }
    ensures { Pushed (record_numbers (filter source root)) nodes.old nodes.new }
{
    head(nodes, Kind::Filter, FILTER_LENGTH);
    nodes.extend([source, root]);
}

// All rows of a source but the first n, or the first n alone, by the kind; the low half of n first.
pub fn rows(nodes: &mut Nodes, kind: Kind, source: u32, n: u64)
    requires { NodeRoom rows_size nodes.old }
    ensures { Pushed (rows_numbers (node_number kind) source n) nodes.old nodes.new }
{
    head(nodes, kind, ROWS_LENGTH);
    nodes.extend([source, low(n), high(n)]);
}

// The scope (planner.rs, Scope): which columns are visible, under which names.
#![tactic(auto)]

mod endings;
pub mod expressions;
pub mod hidden;
pub mod labels;
pub mod lookup;
pub mod matched;
pub mod matches;
pub mod merging;
pub mod retain;
pub mod view;

ghost use Rattle.std.specs.Prelude.{◌≡◌, ◌+◌, ◌≤◌, ◌++◌, length, take, drop};
ghost use Rattle.scope.specs.AddAggregates.{Aggregable, AggregatesAdded};
ghost use Rattle.scope.specs.FromTable.{FromTable};
ghost use Rattle.scope.specs.Hide.{HiddenFits, HiddenAdded};
ghost use Rattle.scope.specs.Items.{ItemsFit, ItemsProjected};
ghost use Rattle.scope.specs.Merge.{Mergeable, Merged};
ghost use Rattle.scope.specs.New.{New};
ghost use Rattle.scope.specs.Project.{Projectable, Projected};
ghost use Rattle.scope.specs.Swap.{Swappable, Swapped};

use ast::Expressions;
use expressions::label_of;
use labels::{behind, label};
use matches::{match_number, new_match, pass_match};
use numbers::first;
use schema::{column_count, column_name};
use text::places::Place;
use view::View;

// The most columns of a scope, and the most tables.
pub const COLUMNS: usize = 256;

pub const TABLES: usize = 16;

// The columns: their labels, what is matched to each (0 nothing, or 1 + the row of an expression), and the tables they
// come from. The last `hidden` of them are not shown. A label too is 0 for none: with an Option labels and matches would each take twice
// the bytes, in every copy of a scope.
#[derive(Clone, Copy, Debug, PartialEq, Eq)]
pub struct Scope {
    pub labels: [u32; COLUMNS],
    pub matches: [u16; COLUMNS],
    pub tables: [u32; TABLES],
    pub width: u32,
    pub count: u32,
    pub hidden: u32,
}

// Numbers in the place of those from i on.
fn overwrite(s: &mut [u32], i: usize, xs: &[u32])
    requires { i + length xs.now ≤ length s.old }
    ensures { s.new ≡ take i s.old ++ (xs.now ++ drop (i + length xs.now) s.old) }
{
    s[i..i + xs.len()].copy_from_slice(xs);
}

// The first a numbers behind the b that follow them. (By `rotate_left` the library would call `memmove`.)
fn rotate_first(s: &mut [u32; COLUMNS], a: usize, b: usize)
    requires { a + b ≤ length s.old }
    ensures { s.new ≡ (drop a (take (a + b) s.old) ++ take a (take (a + b) s.old)) ++ drop (a + b) s.old }
{
    let from = *s;
    overwrite(s, 0, &from[a..a + b]);
    overwrite(s, b, &from[..a]);
}

impl Scope {
    // No columns and no tables.
    pub fn new() -> Scope
        ensures { New result }
    {
        Scope {
            labels: [0u32; COLUMNS],
            matches: [0u16; COLUMNS],
            tables: [0u32; TABLES],
            width: 0,
            count: 0,
            hidden: 0,
        }
    }

    // The columns of the catalog's i-th table, under a name.
    pub fn from_table(catalog: &[u32], i: u32, name: Place) -> Scope
        ensures { FromTable catalog.now i name.address name.length result }
    {
        let count = column_count(catalog, i);
        let width = count.min(COLUMNS as u32);
        let mut labels = [0u32; COLUMNS];
        let mut tables = [0u32; TABLES];
        tables[0] = label(0, name);
        for j in 0..width {
            labels[j as usize] = label(1, column_name(catalog, i, j));
        }
        Scope {
            labels,
            matches: [0u16; COLUMNS],
            tables,
            width,
            count: 1,
            hidden: 0,
        }
    }

    // A child scope of at most 256 groups and aggregates, by the rows of their expressions: each is matched to its row,
    // and has the label that it passes on.
    pub fn add_aggregates(&self, exprs: &Expressions, rows: &[usize]) -> Scope
        requires { Aggregable self.now exprs.now.table.now rows.now }
        ensures { AggregatesAdded exprs.now.texts.catalog.now exprs.now.texts.statement.now exprs.now.table.now self.now
            rows.now result }
    {
        let view = self.view();
        let mut labels = [0u32; COLUMNS];
        let mut matches = [0u16; COLUMNS];
        for (j, &r) in rows.iter().enumerate() {
            labels[j] = label_of(exprs, &view, r);
            matches[j] = match_number(r);
        }
        Scope {
            labels,
            matches,
            tables: self.tables,
            width: rows.len() as u32,
            count: self.count,
            hidden: 0,
        }
    }

    // What of it is in use.
    pub fn view(&self) -> View<'_>
        ensures labels { result.labels.now ≡ take self.now.width self.now.labels }
        ensures matches { result.matches.now ≡ take self.now.width self.now.matches }
        ensures tables { result.tables.now ≡ take self.now.count self.now.tables }
    {
        View {
            labels: first(&self.labels, self.width as usize),
            matches: first(&self.matches, self.width as usize),
            tables: first(&self.tables, self.count as usize),
        }
    }

    // Another scope's columns and tables behind its own.
    pub fn merge(mut self, other: &Scope) -> Scope
        requires { Mergeable self other.now }
        ensures { Merged self other.now result }
    {
        let w = self.width as usize;
        let t = self.count as usize;
        let n = other.count as usize;
        for (j, &x) in other.labels[..other.width as usize].iter().enumerate() {
            self.labels[w + j] = behind(x, self.count);
        }
        overwrite(&mut self.tables, t, &other.tables[..n]);
        self.width += other.width;
        self.count += other.count;
        self
    }

    // The first a columns behind the b ones that follow them.
    pub fn swap(mut self, a: u32, b: u32) -> Scope
        requires { Swappable self a b }
        ensures { Swapped self a b result }
    {
        rotate_first(&mut self.labels, a as usize, b as usize);
        self
    }

    // A projection's columns by their labels, over the same tables.
    pub fn project(mut self, labels: &[u32]) -> Scope
        requires { Projectable self labels.now }
        ensures { Projected self labels.now result }
    {
        overwrite(&mut self.labels, 0, labels);
        self.width = labels.len() as u32;
        self.hidden = 0;
        self
    }

    // A projection over groups and aggregates: its columns by their labels, the first of equal items matched to its row.
    pub fn project_items(mut self, exprs: &Expressions, labels: &[u32], rows: &[usize]) -> Scope
        requires { ItemsFit exprs.now.texts.catalog.now exprs.now.texts.statement.now exprs.now.table.now self labels.now
            rows.now }
        ensures { ItemsProjected exprs.now.texts.catalog.now exprs.now.texts.statement.now exprs.now.table.now self
            labels.now rows.now result }
    {
        overwrite(&mut self.labels, 0, labels);
        for (j, &r) in rows.iter().enumerate() {
            self.matches[j] = new_match(exprs, first(&self.matches, j), r);
        }
        self.width = rows.len() as u32;
        self.hidden = 0;
        self
    }

    // A column of the scope that was projected, with its label x and its match m, passed on behind the others and hidden.
    pub fn add_hidden(mut self, exprs: &Expressions, x: u32, m: u16) -> Scope
        requires { HiddenFits self exprs.now.table.now x }
        ensures { HiddenAdded exprs.now.texts.catalog.now exprs.now.texts.statement.now exprs.now.table.now self x m result }
    {
        let w = self.width as usize;
        let passed = pass_match(exprs, first(&self.matches, w), m);
        self.labels[w] = x;
        self.matches[w] = passed;
        self.width += 1;
        self.hidden += 1;
        self
    }
}

// The calls of functions, and walks over the expressions of the table (ast.rs, walk, contains, collect), for the aggregate functions.
ghost use Rattle.std.specs.Prelude.{◌≡◌};
ghost use Rattle.rules.specs.BuildAggregate.{walk_free, contains};
ghost use Rattle.ast.specs.Aggregates.{named_of};
ghost use Rattle.ast.specs.Called.{called_of, is_root_call};
ghost use Rattle.ast.specs.Table.{root_at};
ghost use Rattle.ast.specs.Expressions.{tree_in};
ghost use Rattle.ast.specs.Walk.{is_aggregate_call};
ghost use Rattle.ast.specs.Collect.{collect_rows};
ghost use Rattle.ast.specs.Listed.{ListedWithin};

use crate::Expressions;
use crate::aggregates::aggregate_named;
use crate::buffer::Rows;
use crate::row::{Kind, arguments, kind_of, name};
use crate::rows::{next, operands};
use numbers::aggregates::Aggregate;

// Which aggregate the record at a row calls, if any.
pub fn called(exprs: &Expressions, r: usize) -> Option<Aggregate>
    ensures { named_of result ≡ called_of (tree_in exprs.now r) }
{
    if kind_of(exprs.table, r) != Kind::Call {
        return None;
    }
    aggregate_named(&exprs.texts, name(exprs.table, r))
}

// Whether the record at a row is a call of an aggregate function.
pub fn is_aggregate_call(exprs: &Expressions, r: usize) -> bool
    ensures { result ≡ is_aggregate_call (root_at exprs.now.texts.catalog.now exprs.now.texts.statement.now
        exprs.now.table.now r) }
{
    called(exprs, r).is_some()
}

// Whether the record at a row, which is a call, is one of `sqrt` with one argument.
#[tactic(auto, unfolding(crate::specs::Called::is_root_call, rules::specs::Lines::bytes))]
pub fn is_root_call(exprs: &Expressions, r: usize) -> bool
    ensures { result ≡ is_root_call exprs.now.texts.catalog.now exprs.now.texts.statement.now exprs.now.table.now r }
{
    arguments(exprs.table, r) == 1 && exprs.texts.holds_at(name(exprs.table, r), b"sqrt")
}

// `walk` by a visitor that is false at an aggregate: whether it comes to the end. An operator's operands are walked until
// one walk answers false, a function's arguments until one answers true.
// (Each walk over operands has a loop of two lines more than its body: an iterator over their rows is no plainer, as
// `successors(Some(r + 1), |p| Some(next(exprs.table, *p))).take(operands)` or as a struct of our own with three fields and a `next`.)
pub fn walk_free(exprs: &Expressions, r: usize) -> bool
    ensures { result ≡ walk_free (tree_in exprs.now r) }
{
    if is_aggregate_call(exprs, r) {
        return false;
    }
    let any = kind_of(exprs.table, r) == Kind::Call;
    let operands = operands(exprs.table, r);
    if operands == 0 {
        return !any;
    }
    let mut p = r + 1;
    for _ in 0..operands {
        if walk_free(exprs, p) == any {
            return any;
        }
        p = next(exprs.table, p);
    }
    !any
}

// Whether the tree at a row contains an aggregate: whether that walk stops.
pub fn contains(exprs: &Expressions, r: usize) -> bool
    ensures { result ≡ contains (tree_in exprs.now r) }
{
    !walk_free(exprs, r)
}

// The rows of the aggregate calls in the tree at a row, left to right and not into one, listed behind others; none where the
// next has no room.
pub fn collect(exprs: &Expressions, r: usize, rows: &mut Rows) -> Option<()>
    ensures { ListedWithin (collect_rows exprs.now.texts.catalog.now exprs.now.texts.statement.now exprs.now.table.now r)
        rows.old result rows.new }
{
    if is_aggregate_call(exprs, r) {
        return rows.try_push(r);
    }
    let operands = operands(exprs.table, r);
    if operands == 0 {
        return Some(());
    }
    let mut p = r + 1;
    for _ in 0..operands {
        collect(exprs, p, rows)?;
        p = next(exprs.table, p);
    }
    Some(())
}

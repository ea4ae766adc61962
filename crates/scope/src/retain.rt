// The groups and aggregates that a child scope gets, each once (planner.rs, build_aggregate).
ghost use Rattle.std.specs.Prelude.{◌≡◌, ◌+◌, ◌≤◌, length};
ghost use Rattle.ast.specs.Expressions.{tree_in};
ghost use Rattle.ast.specs.Listed.{rows_in, Listed};
ghost use Rattle.scope.specs.Retain.{has_equal, retained};

use ast::Expressions;
use ast::buffer::Rows;
use ast::equality::equal;

// Whether one of the rows has an expression equal to that at row r.
fn has_equal(exprs: &Expressions, rows: &[usize], r: usize) -> bool
    ensures { result ≡ has_equal (tree_in exprs.now)
        rows.now
        (tree_in exprs.now r) }
{
    rows.iter().any(|k| equal(exprs, *k, r))
}

// The rows whose expressions are not among the kept ones, each once, kept behind them.
pub fn retain(exprs: &Expressions, rows: &[usize], kept: &mut Rows)
    requires { kept.old.used + length rows.now ≤ length kept.old.rows.now }
    ensures { Listed (retained (tree_in exprs.now) (rows_in kept.old) rows.now) kept.old kept.new }
{
    for r in rows {
        if !has_equal(exprs, kept.listed(), *r) {
            kept.push(*r);
        }
    }
}

// The columns that hold a whole expression: groups, aggregates, items (planner.rs, Scope::lookup_aggregate).
ghost use Rattle.std.specs.Prelude.{◌≡◌, ◌<◌, IfSome, length};
ghost use Rattle.rules.specs.Scope.{match_at};
ghost use Rattle.ast.specs.Expressions.{tree_in};
ghost use Rattle.scope.specs.Scopes.{matches_of};
ghost use Rattle.numbers.specs.Options.{option_of};
ghost use Rattle.scope.specs.NewMatch.{match_number, new_match, pass_match};

use super::view::View;
use ast::Expressions;
use ast::equality::equal;

// The first match that is equal to the expression at row r. Where the rows are of two kinds, `equal` goes no further.
fn matched(exprs: &Expressions, matches: &[u16], r: usize) -> Option<usize>
    ensures value { option_of result ≡ match_at (matches_of (tree_in exprs.now) 0 matches.now) (tree_in exprs.now r) }
    ensures below { IfSome result (λ i. i < length matches.now) }
{
    matches
        .iter()
        .position(|m| *m != 0 && equal(exprs, *m as usize - 1, r))
}

impl View<'_> {
    // The first column whose match is equal to the expression at row r.
    pub fn lookup_aggregate(&self, exprs: &Expressions, r: usize) -> Option<u32>
        ensures { option_of result ≡ match_at (matches_of (tree_in exprs.now) 0 self.now.matches.now) (tree_in exprs.now r) }
    {
        let i = matched(exprs, self.matches, r)?;
        Some(i as u32)
    }
}

// The last row that a match has room for.
const MOST_ROW: usize = 65534;

// A row as a match. A row past the last is past the table's end: what stands there is what stands at the last.
pub fn match_number(r: usize) -> u16
    ensures { result ≡ match_number r }
{
    r.min(MOST_ROW) as u16 + 1
}

// What is matched to a column behind those of `matches`: row r, or nothing where an equal expression is matched before.
pub fn new_match(exprs: &Expressions, matches: &[u16], r: usize) -> u16
    ensures { result ≡ new_match (tree_in exprs.now) matches.now r }
{
    match matched(exprs, matches, r) {
        Some(_) => 0,
        None => match_number(r),
    }
}

// What is matched to a column that is passed on behind those of `matches`: its match, or nothing where an equal expression is
// matched before.
pub fn pass_match(exprs: &Expressions, matches: &[u16], m: u16) -> u16
    ensures { result ≡ pass_match (tree_in exprs.now) matches.now m }
{
    if m == 0 {
        return 0;
    }
    new_match(exprs, matches, m as usize - 1)
}

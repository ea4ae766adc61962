// The column that a visited record calls for (planner.rs, build_select_hidden): the parent has it, by a match or else by
// a name, and the child lacks it.
ghost use Rattle.std.specs.Prelude.{◌≡◌};
ghost use Rattle.rules.specs.Places.{word_at};
ghost use Rattle.rules.specs.Scope.{match_at};
ghost use Rattle.rules.specs.Hidden as hidden;
ghost use Rattle.ast.specs.Expressions.{tree_in};
ghost use Rattle.scope.specs.Scopes.{matches_of};
ghost use Rattle.scope.specs.Lookup.{qualifier_of};
ghost use Rattle.numbers.specs.Options.{option_of};
ghost use Rattle.build_hidden.specs.Lacking.{NameLacking, ColumnLacking, Lacking};

use ast::Expressions;
use ast::row::{Kind, kind_of, name, qualifier};
use scope::view::View;
use text::places::{Place, Texts};

// The parent's column that the expression at row r is matched to, where the child matches it to none.
fn lacking_match(exprs: &Expressions, r: usize, parent: &View, child: &View) -> Option<u32>
    ensures { option_of result ≡ hidden.lacking
        (match_at (matches_of (tree_in exprs.now) 0
        parent.now.matches.now)
        (tree_in exprs.now r))
        (match_at (matches_of (tree_in exprs.now) 0
        child.now.matches.now)
        (tree_in exprs.now r)) }
{
    let i = parent.lookup_aggregate(exprs, r)?;
    child.lookup_aggregate(exprs, r).is_none().then_some(i)
}

// The parent's column that a name means, where it means none of the child's.
fn lacking_name(
    texts: &Texts,
    parent: &View,
    child: &View,
    qualifier: Option<Place>,
    name: Place,
) -> Option<u32>
    ensures { NameLacking texts.now.catalog.now texts.now.statement.now
        parent.now.labels.now parent.now.matches.now parent.now.tables.now
        child.now.labels.now child.now.matches.now child.now.tables.now
        (qualifier_of texts.now.catalog.now texts.now.statement.now qualifier)
        (word_at texts.now.catalog.now texts.now.statement.now name.address name.length) result }
{
    let i = parent.lookup(texts, qualifier, name).ok()?;
    child.lookup(texts, qualifier, name).is_err().then_some(i)
}

// The same of the expression at row r, where it is a column's name.
fn lacking_column(exprs: &Expressions, r: usize, parent: &View, child: &View) -> Option<u32>
    ensures { ColumnLacking exprs.now.texts.catalog.now exprs.now.texts.statement.now
        parent.now.labels.now parent.now.matches.now parent.now.tables.now
        child.now.labels.now child.now.matches.now child.now.tables.now
        (tree_in exprs.now r) result }
{
    let place = match kind_of(exprs.table, r) {
        Kind::Column => None,
        Kind::Qualified => Some(qualifier(exprs.table, r)),
        Kind::Star | Kind::Call | Kind::Unary | Kind::Binary | Kind::Is | Kind::Literal =>
            return None,
    };
    let sought = name(exprs.table, r);
    lacking_name(&exprs.texts, parent, child, place, sought)
}

// The parent's column to hide for the expression at row r. (By a match: `or` would look the name up where there is a match too, and a
// closure for `or_else` would have to repeat the clause of lacking_column.)
pub fn to_hide(exprs: &Expressions, r: usize, parent: &View, child: &View) -> Option<u32>
    ensures { Lacking exprs.now.texts.catalog.now exprs.now.texts.statement.now exprs.now.table.now
        parent.now.labels.now parent.now.matches.now parent.now.tables.now
        child.now.labels.now child.now.matches.now child.now.tables.now r result }
{
    let matched = lacking_match(exprs, r, parent, child);
    match matched {
        Some(i) => Some(i),
        None => lacking_column(exprs, r, parent, child),
    }
}

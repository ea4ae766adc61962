// The label that an expression passes on to a child scope (planner.rs, Scope::add_aggregate and Scope::project).
ghost use Rattle.rules.specs.Places.{word_at};
ghost use Rattle.ast.specs.Expressions.{tree_in};
ghost use Rattle.scope.specs.Lookup.{qualifier_of};
ghost use Rattle.scope.specs.LabelOf.{LabelFound, Passed};

use super::view::View;
use ast::Expressions;
use ast::row::{Kind, kind_of, name, qualifier};
use numbers::number;
use text::places::{Place, Texts};

// The label of the column that a name means, or 0.
fn label_found(texts: &Texts, scope: &View, qualifier: Option<Place>, name: Place) -> u32
    ensures { LabelFound texts.now.catalog.now texts.now.statement.now
        scope.now.labels.now scope.now.matches.now scope.now.tables.now
        (qualifier_of texts.now.catalog.now texts.now.statement.now qualifier)
        (word_at texts.now.catalog.now texts.now.statement.now name.address name.length) result }
{
    match scope.lookup(texts, qualifier, name) {
        Ok(i) => number(scope.labels, i as usize),
        Err(_) => 0,
    }
}

// The label that the expression at row r passes on: that of a column name, and 0 for anything else.
pub fn label_of(exprs: &Expressions, scope: &View, r: usize) -> u32
    ensures { Passed exprs.now.texts.catalog.now exprs.now.texts.statement.now
        scope.now.labels.now scope.now.matches.now scope.now.tables.now
        (tree_in exprs.now r) result }
{
    let place = match kind_of(exprs.table, r) {
        Kind::Column => None,
        Kind::Qualified => Some(qualifier(exprs.table, r)),
        _ => return 0,
    };
    label_found(&exprs.texts, scope, place, name(exprs.table, r))
}

// An expression that may be missing (the rules' build_option): a join's predicate, the filter of a DELETE or an UPDATE.
ghost use Rattle.std.specs.Prelude.{ℕ, ◌*◌};
ghost use Rattle.rules.specs.Sizes.{option_size};
ghost use Rattle.plan.specs.Cells.{Room};
ghost use Rattle.build_expression.specs.Builds.{scope_at};
ghost use Rattle.build_expression.specs.Options.{option_tree, OptionBuilt};

use crate::build_expression;
use ast::Expressions;
use numbers::refusals::Refusal;
use scope::view::View;

// The next cell, and the expression's root, where there is one.
#[derive(Clone, Copy, Debug, PartialEq, Eq)]
pub struct BuiltOption {
    pub cell: u32,
    pub root: Option<u32>,
}

// The cells of the tree at row r, where there is one, from the n-th on.
pub fn build_option(
    exprs: &Expressions,
    r: Option<usize>,
    scope: &View,
    area: &mut [u32],
    n: u32,
) -> Result<BuiltOption, Refusal>
    requires { Room n (3 * option_size (option_tree exprs.now.texts.catalog.now exprs.now.texts.statement.now
        exprs.now.table.now r)) area.old }
    ensures { (h : ℕ) → OptionBuilt (scope_at exprs.now.texts.catalog.now exprs.now.texts.statement.now
        exprs.now.table.now
        scope.now.labels.now scope.now.matches.now scope.now.tables.now h)
        (option_tree exprs.now.texts.catalog.now exprs.now.texts.statement.now exprs.now.table.now r)
        n area.old area.new result }
{
    let Some(r) = r else {
        return Ok(BuiltOption {
            cell: n,
            root: None,
        });
    };
    let cell = build_expression(exprs, r, scope, area, n)?;
    Ok(BuiltOption {
        cell,
        root: Some(cell - 1),
    })
}

// A join's predicate, built over the scope of both sides.
ghost use Rattle.std.specs.Prelude.{ℕ, ◌*◌};
ghost use Rattle.rules.specs.Sizes.{option_size};
ghost use Rattle.plan.specs.Cells.{Room};
ghost use Rattle.build_expression.specs.Builds.{scope_at};
ghost use Rattle.build_expression.specs.Options.{OptionBuilt};
ghost use Rattle.build_from.specs.Predicates.{predicate_in};

use ast::Expressions;
use build_expression::option::{BuiltOption, build_option};
use from::row;
use numbers::refusals::Refusal;
use scope::view::View;

// The predicate of the join in row r.
pub fn build_predicate(
    exprs: &Expressions,
    froms: &[u32],
    r: u32,
    scope: &View,
    area: &mut [u32],
    n: u32,
) -> Result<BuiltOption, Refusal>
    requires { Room n (3 * option_size (predicate_in exprs.now.texts.catalog.now exprs.now.texts.statement.now
        exprs.now.table.now froms.now r)) area.old }
    ensures { (h : ℕ) → OptionBuilt (scope_at exprs.now.texts.catalog.now exprs.now.texts.statement.now
        exprs.now.table.now
        scope.now.labels.now scope.now.matches.now scope.now.tables.now h)
        (predicate_in exprs.now.texts.catalog.now exprs.now.texts.statement.now exprs.now.table.now froms.now r)
        n area.old area.new result }
{
    let p = row::predicate_of(froms, r).map(|p| p as usize);
    build_option(exprs, p, scope, area, n)
}

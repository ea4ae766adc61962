// What a column is set to: the set's expression, or the column's default.
ghost use Rattle.std.specs.Prelude.{◌+◌, ◌*◌};
ghost use Rattle.rules.specs.Schema.{default_at};
ghost use Rattle.rules.specs.Sizes.{option_size};
ghost use Rattle.schema.specs.Layout.{table_at};
ghost use Rattle.statement.specs.EntryAccess.{given_of};
ghost use Rattle.plan.specs.Cells.{Room};
ghost use Rattle.plan.specs.Emits.{Emits};
ghost use Rattle.build_update.specs.Sets.{default_step, Values};

use ast::Expressions;
use build_expression::build_expression;
use numbers::refusals::{Reason, Refusal};
use plan::cells::constant;
use schema::default_at;
use scope::view::View;
use sections::entry::Entry;
use text::places::Texts;

// The default of the j-th column of the i-th table; refused at a line where there is none.
fn build_default(
    texts: &Texts,
    tables: &[u32],
    i: u32,
    j: u32,
    line: u32,
    area: &mut [u32],
    n: u32,
) -> Result<u32, Refusal>
    requires { Room n 1 area.old }
    ensures { Emits
        (default_step n line
        (default_at (table_at texts.now.catalog.now texts.now.statement.now tables.now i).columns j))
        n area.old area.new result }
{
    let Some(default) = default_at(tables, i, j) else {
        return Err(Reason::NoDefault.at(line));
    };
    constant(texts, area, n, default);
    Ok(n + 1)
}

// The set of the entry e, of the j-th column of the i-th table, over a scope.
pub fn build_set(
    exprs: &Expressions,
    tables: &[u32],
    i: u32,
    j: u32,
    e: Entry,
    scope: &View,
    area: &mut [u32],
    n: u32,
) -> Result<u32, Refusal>
    requires { Room n (3 * option_size (given_of exprs.now.texts.catalog.now exprs.now.texts.statement.now
        exprs.now.table.now e) + 1) area.old }
    ensures { Values exprs.now.texts.catalog.now exprs.now.texts.statement.now exprs.now.table.now
        scope.now.labels.now scope.now.matches.now scope.now.tables.now
        (table_at exprs.now.texts.catalog.now exprs.now.texts.statement.now tables.now i).columns
        j e n area.old area.new result }
{
    let Some(r) = e.first_row() else {
        return build_default(&exprs.texts, tables, i, j, e.line, area, n);
    };
    build_expression(exprs, r, scope, area, n)
}

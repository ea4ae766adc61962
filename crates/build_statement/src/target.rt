// The table that a statement names, and the filter of a DELETE or an UPDATE over it.
ghost use Rattle.build_statement.specs.Targets.{TargetReady, TargetBuilt};

use ast::Expressions;
use build_expression::option::{BuiltOption, build_option};
use entries::Section;
use numbers::refusals::Refusal;
use schema::find_table;
use scope::Scope;
use statement::access;
use text::places::Place;

// A table by its name's place and its position in the catalog, its scope, and its filter: its cells are the plan's first ones.
#[derive(Clone, Copy, Debug, PartialEq, Eq)]
pub struct Target {
    pub name: Place,
    pub table: u32,
    pub scope: Scope,
    pub filter: BuiltOption,
}

// The statement's table, and the cells of its filter: the plan's first ones.
pub fn build_target(
    exprs: &Expressions,
    tables: &[u32],
    parts: &[u32],
    area: &mut [u32],
) -> Result<Target, Refusal>
    requires { TargetReady exprs.now.texts.catalog.now exprs.now.texts.statement.now tables.now exprs.now.table.now
        parts.now area.old }
    ensures { TargetBuilt exprs.now.texts.catalog.now exprs.now.texts.statement.now tables.now exprs.now.table.now
        parts.now area.old area.new result }
{
    let name = access::name(parts);
    let table = find_table(&exprs.texts, tables, name, access::line(parts))?;
    let scope = Scope::from_table(tables, table, name);
    let clause = access::clause_at(parts, Section::Where);
    let row = clause.map(|clause| clause.row);
    let filter = build_option(exprs, row, &scope.view(), area, 0)?;
    Ok(Target {
        name,
        table,
        scope,
        filter,
    })
}

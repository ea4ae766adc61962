// UPDATE: one scan with its filter, then what the columns are set to.
ghost use Rattle.std.specs.Prelude.{ℕ, ◌≤◌, take};
ghost use Rattle.rules.specs.Area.{option_number};
ghost use Rattle.rules.specs.Ast as ast;
ghost use Rattle.rules.specs.BuildStatement.{set_built, build_update};
ghost use Rattle.appends.specs.Lists.Kinds.{emit_seconds};
ghost use Rattle.numbers.specs.Options.{option_of};
ghost use Rattle.schema.specs.Layout.{table_at, catalog_at};
ghost use Rattle.scope.specs.Scopes.{labels_of, table_numbers};
ghost use Rattle.build_expression.specs.Builds.{scope_at};
ghost use Rattle.build_statement.specs.Plans.{Plans};
ghost use Rattle.build_statement.specs.Kinds.{Free, ReadyFor, update_at};
ghost use Rattle.build_statement.specs.Tables.{table_named};
ghost use Rattle.build_update.specs.SoFar.{sets_at};
ghost use Rattle.build_update.specs.Updates.{FewSets, UpdateEnds};

use crate::sets::write_sets;
use ast::Expressions;
use build_statement::target::{Target, build_target};
use entries::Section;
use numbers::refusals::Refusal;
use plan::finish::Kind;
use plan::nodes::{Nodes, scan};
use plan::own;
use plan::steps::Step;
use schema::key;
use sections::entry;

// The plan of a table behind the cells of its filter: the scan, the sets and the end.
fn end_update(
    exprs: &Expressions,
    tables: &[u32],
    parts: &[u32],
    target: &Target,
    area: &mut [u32],
    nodes: &mut Nodes,
) -> Result<u32, Refusal>
    requires free { Free area.old nodes.old }
    requires few_sets { FewSets target.now.filter.cell (sets_at exprs.now.texts.catalog.now exprs.now.texts.statement.now exprs.now.table.now
        parts.now) }
    requires root_behind { option_number (option_of target.now.filter.root) ≤ target.now.filter.cell }
    ensures { (h : ℕ) → UpdateEnds
        (emit_seconds (set_built
        (scope_at exprs.now.texts.catalog.now exprs.now.texts.statement.now exprs.now.table.now
        (labels_of target.now.scope) (take target.now.scope.width target.now.scope.matches) (table_numbers target.now.scope) h)
        (table_at exprs.now.texts.catalog.now exprs.now.texts.statement.now tables.now target.now.table).columns)
        target.now.filter.cell
        (sets_at exprs.now.texts.catalog.now exprs.now.texts.statement.now exprs.now.table.now parts.now))
        (table_named exprs.now.texts.catalog.now exprs.now.texts.statement.now tables.now target.now.table
        target.now.name.address target.now.name.length)
        (option_of target.now.filter.root) target.now.filter.cell area.old area.new result }
{
    let texts = exprs.texts;
    let name = texts.clipped(target.name);
    scan(nodes, name, None, target.filter.root);
    let own = nodes.used;
    let sets = entry::count(parts, Section::Set);
    own::update(nodes, name, key(tables, target.table), sets);
    let view = target.scope.view();
    let written = write_sets(
        exprs,
        tables,
        parts,
        target.table,
        &view,
        area,
        nodes,
        target.filter.cell,
    )?;
    let at = Step {
        cell: written,
        node: 1,
    };
    nodes.finish(area, Kind::Update, at, own);
    Ok(written)
}

pub fn build_update(
    exprs: &Expressions,
    tables: &[u32],
    parts: &[u32],
    area: &mut [u32],
    nodes: &mut Nodes,
) -> Result<u32, Refusal>
    requires { ReadyFor exprs.now.texts.catalog.now exprs.now.texts.statement.now tables.now
        (ast.update (update_at exprs.now.texts.catalog.now exprs.now.texts.statement.now exprs.now.table.now parts.now))
        area.old nodes.old }
    ensures { Plans
        (build_update (catalog_at exprs.now.texts.catalog.now exprs.now.texts.statement.now tables.now)
        (update_at exprs.now.texts.catalog.now exprs.now.texts.statement.now exprs.now.table.now parts.now))
        area.old area.new result }
{
    let target = build_target(exprs, tables, parts, area)?;
    end_update(exprs, tables, parts, &target, area, nodes)
}

// DELETE: one scan, with its filter (planner.rs, build_delete).
ghost use Rattle.std.specs.Prelude.{◌≤◌};
ghost use Rattle.rules.specs.Area.{option_number};
ghost use Rattle.rules.specs.Ast as ast;
ghost use Rattle.rules.specs.BuildStatement.{build_delete};
ghost use Rattle.numbers.specs.Options.{option_of};
ghost use Rattle.schema.specs.Layout.{catalog_at};
ghost use Rattle.plan.specs.Layout.{most_plan_cells};
ghost use Rattle.build_statement.specs.Plans.{Plans};
ghost use Rattle.build_statement.specs.Kinds.{Free, ReadyFor, delete_at};
ghost use Rattle.build_statement.specs.Deletes.{DeleteEnds};

use crate::target::{Target, build_target};
use ast::Expressions;
use numbers::refusals::Refusal;
use plan::finish::Kind;
use plan::nodes::{Nodes, scan};
use plan::own;
use plan::steps::Step;
use schema::key;
use text::places::Texts;

// The plan of a table behind the cells of its filter.
fn end_delete(texts: &Texts, tables: &[u32], target: &Target, area: &mut [u32], nodes: &mut Nodes)
    requires free { Free area.old nodes.old }
    requires few_cells { target.now.filter.cell ≤ most_plan_cells }
    requires root_behind { option_number (option_of target.now.filter.root) ≤ target.now.filter.cell }
    ensures { DeleteEnds texts.now.catalog.now texts.now.statement.now tables.now target.now.table
        target.now.name.address target.now.name.length (option_of target.now.filter.root) target.now.filter.cell
        area.old area.new }
{
    let name = texts.clipped(target.name);
    scan(nodes, name, None, target.filter.root);
    let own = nodes.used;
    own::delete(nodes, name, key(tables, target.table));
    let at = Step {
        cell: target.filter.cell,
        node: 1,
    };
    nodes.finish(area, Kind::Delete, at, own);
}

pub fn build_delete(
    exprs: &Expressions,
    tables: &[u32],
    parts: &[u32],
    area: &mut [u32],
    nodes: &mut Nodes,
) -> Result<u32, Refusal>
    requires { ReadyFor exprs.now.texts.catalog.now exprs.now.texts.statement.now tables.now
        (ast.delete (delete_at exprs.now.texts.catalog.now exprs.now.texts.statement.now exprs.now.table.now parts.now))
        area.old nodes.old }
    ensures { Plans
        (build_delete (catalog_at exprs.now.texts.catalog.now exprs.now.texts.statement.now tables.now)
        (delete_at exprs.now.texts.catalog.now exprs.now.texts.statement.now exprs.now.table.now parts.now))
        area.old area.new result }
{
    let target = build_target(exprs, tables, parts, area)?;
    end_delete(&exprs.texts, tables, &target, area, nodes);
    Ok(target.filter.cell)
}

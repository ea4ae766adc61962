// The aggregate node (planner.rs, build_aggregate): groups, then functions, and the limit only when all of them are built.
ghost use Rattle.std.specs.Prelude.{◌≡◌, ◌+◌, ◌*◌, ◌≤◌, ◌<◌, ◌++◌, length, get_or};
ghost use Rattle.rules.specs.Ast.{size};
ghost use Rattle.rules.specs.Sizes.{total};
ghost use Rattle.ast.specs.Expressions.{tree_in};
ghost use Rattle.plan.specs.Layout.{nodes_size};
ghost use Rattle.plan.specs.Cells.{Room};
ghost use Rattle.build_aggregate.specs.Nodes.{record_end, NodeBuilt};

use crate::lists::{build_functions, build_groups};
use ast::{Expressions, row};
use numbers::refusals::{Reason, Refusal};
use plan::nodes::Nodes;
use plan::parts::{begin_aggregate, end, end_groups};
use scope::COLUMNS;
use scope::view::View;

// The i-th of the groups' and the functions' rows.
fn row_at(groups: &[usize], functions: &[usize], i: usize) -> usize
    requires { i < length groups.now + length functions.now }
    ensures { result ≡ get_or (groups.now ++ functions.now) i 0 }
{
    if i < groups.len() {
        return groups[i];
    }
    functions[i - groups.len()]
}

// The node over a source, by the rows of its groups and of its functions.
pub fn build_node(
    exprs: &Expressions,
    groups: &[usize],
    functions: &[usize],
    scope: &View,
    source: u32,
    area: &mut [u32],
    nodes: &mut Nodes,
    cell: u32,
) -> Result<u32, Refusal>
    requires room { Room cell (3 * (total (λ r. size (tree_in exprs.now r)) groups.now
        + total (λ r. size (tree_in exprs.now r)) functions.now)) area.old }
    requires nodes_room { record_end nodes.old.used (length groups.now) (length functions.now)
        ≤ length nodes.old.numbers.now }
    requires nodes_len_bound { length nodes.old.numbers.now ≤ nodes_size }
    ensures { NodeBuilt exprs.now.texts.catalog.now exprs.now.texts.statement.now exprs.now.table.now
        scope.now.labels.now scope.now.matches.now scope.now.tables.now
        groups.now functions.now source cell area.old area.new nodes.old nodes.new result }
{
    let start = nodes.used;
    begin_aggregate(nodes, source);
    let m = build_groups(exprs, groups, scope, area, nodes, cell)?;
    end_groups(nodes, start);
    let p = build_functions(exprs, functions, scope, area, nodes, m)?;
    if COLUMNS < groups.len() + functions.len() {
        let r = row_at(groups, functions, COLUMNS);
        return Err(Reason::LimitPassed.at(row::line(exprs.table, r)));
    }
    end(nodes, start);
    Ok(p)
}

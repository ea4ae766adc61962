// A join from its two built sides.
ghost use Rattle.build_from.specs.Joins.{JoinRoom, Joins};

use crate::Source;
use crate::merges::merge_scopes;
use crate::predicates::build_predicate;
use crate::remaps::push_remap;
use crate::rows::{is_outer, is_right};
use ast::Expressions;
use from::row;
use numbers::refusals::Refusal;
use plan::nodes::{self, Nodes};

// The join in row r of the sides a and b, a built before b: their scopes merged, its predicate over both, its record; the
// columns of a right join swapped back.
pub fn build_join(
    exprs: &Expressions,
    froms: &[u32],
    r: u32,
    a: Source,
    b: Source,
    area: &mut [u32],
    nodes: &mut Nodes,
) -> Result<Source, Refusal>
    requires { JoinRoom exprs.now.texts.catalog.now exprs.now.texts.statement.now exprs.now.table.now froms.now r a b
        area.old nodes.old }
    ensures { Joins exprs.now.texts.catalog.now exprs.now.texts.statement.now exprs.now.table.now froms.now r a b
        area.old nodes.old area.new nodes.new result }
{
    let first = a.scope.width;
    let second = b.scope.width;
    let s = merge_scopes(&exprs.texts, a.scope, &b.scope, b.line)?;
    let p = build_predicate(exprs, froms, r, &s.view(), area, b.at.cell)?;
    let line = row::line(froms, r);
    let outer = is_outer(froms, r);
    nodes::join(nodes, a.at.node - 1, b.at.node - 1, outer, p.root);
    let at = b.at.next(p.cell);
    if is_right(froms, r) {
        push_remap(nodes, b.at.node, first, second);
        return Ok(Source {
            scope: s.swap(first, second),
            line,
            at: at.next(p.cell),
        });
    }
    Ok(Source { scope: s, line, at })
}

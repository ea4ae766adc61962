// OFFSET and LIMIT: a number of rows behind the node before it. They add no cell.
ghost use Rattle.std.specs.Prelude.{ℕ};
ghost use Rattle.rules.specs.Nodes.{NodeRecord};
ghost use Rattle.rules.specs.Plan.{Built, Node};
ghost use Rattle.numbers.specs.Reasons.{reason_of};
ghost use Rattle.plan.specs.Layout.{rows_size};
ghost use Rattle.build_clauses.specs.Follows.{Follows};
ghost use Rattle.build_clauses.specs.Rows.{Counted, RowsNode, RowsBuilt, OffsetBuilt, LimitBuilt};

use ast::Expressions;
use expression::constants::build_constant_value;
use expression::planned::to_natural;
use numbers::refusals::{Reason, Refusal};
use plan::nodes::{Kind, Nodes, rows};
use plan::steps::Step;
use statement::access::Clause;

// The number of rows that the constant at row r is, or the clause's refusal where it is none.
fn row_count(exprs: &Expressions, r: usize, invalid: Refusal) -> Result<u64, Refusal>
    ensures { Counted (reason_of invalid.reason) invalid.line
        exprs.now.texts.catalog.now exprs.now.texts.statement.now exprs.now.table.now r result }
{
    let constant = build_constant_value(exprs, r)?;
    to_natural(constant).ok_or(invalid)
}

// A node of a kind for the clause's number of rows, which is refused by a reason where it is none.
fn build_rows(
    exprs: &Expressions,
    clause: Option<Clause>,
    kind: Kind,
    reason: Reason,
    nodes: &mut Nodes,
    at: Step,
) -> Result<Step, Refusal>
    requires { Follows rows_size at.node nodes.old }
    ensures { (f : ℕ → Node Built → Node Built) (v : ℕ → ℕ → NodeRecord) → RowsNode kind f v
        → RowsBuilt (reason_of reason) f
        exprs.now.texts.catalog.now exprs.now.texts.statement.now exprs.now.table.now
        clause at.cell at.node nodes.old nodes.new result }
{
    let Some(clause) = clause else {
        return Ok(at);
    };
    let count = row_count(exprs, clause.row, reason.at(clause.line))?;
    rows(nodes, kind, at.node - 1, count);
    Ok(at.next(at.cell))
}

// All rows but the first ones.
pub fn build_offset(
    exprs: &Expressions,
    clause: Option<Clause>,
    nodes: &mut Nodes,
    at: Step,
) -> Result<Step, Refusal>
    requires { Follows rows_size at.node nodes.old }
    ensures { OffsetBuilt exprs.now.texts.catalog.now exprs.now.texts.statement.now exprs.now.table.now clause at.cell
        at.node nodes.old nodes.new result }
{
    build_rows(
        exprs,
        clause,
        Kind::Offset,
        Reason::InvalidOffset,
        nodes,
        at,
    )
}

// The first rows.
pub fn build_limit(
    exprs: &Expressions,
    clause: Option<Clause>,
    nodes: &mut Nodes,
    at: Step,
) -> Result<Step, Refusal>
    requires { Follows rows_size at.node nodes.old }
    ensures { LimitBuilt exprs.now.texts.catalog.now exprs.now.texts.statement.now exprs.now.table.now clause at.cell
        at.node nodes.old nodes.new result }
{
    build_rows(exprs, clause, Kind::Limit, Reason::InvalidLimit, nodes, at)
}

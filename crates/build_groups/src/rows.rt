// The rows of a SELECT's groups, and of the aggregates in its items, HAVING and ORDER (planner.rs, collect_aggregates), listed
// behind others.
ghost use Rattle.std.specs.Prelude.{◌+◌, ◌≤◌, length};
ghost use Rattle.entries.specs.Sections.{number_of};
ghost use Rattle.sections.specs.Access.{group_kind};
ghost use Rattle.ast.specs.Listed.{Listed};
ghost use Rattle.build_groups.specs.Rows.{section_rows, collect_each_rows, function_rows};

use ast::Expressions;
use ast::buffer::Rows;
use ast::walk::collect;
use entries::Section;
use sections::entry::{count, entry_at};
use statement::access::clause_at;

// The groups.
pub fn group_rows(parts: &[u32], rows: &mut Rows)
    requires { rows.old.used + length (section_rows parts.now group_kind) ≤ length rows.old.rows.now }
    ensures { Listed (section_rows parts.now group_kind) rows.old rows.new }
{
    let n = count(parts, Section::Group);
    for i in 0..n {
        rows.push(entry_at(parts, Section::Group, i).expr_row());
    }
}

// The aggregates of a section's entries.
fn collect_section(exprs: &Expressions, parts: &[u32], kind: Section, rows: &mut Rows)
    requires { rows.old.used + length (collect_each_rows exprs.now.texts.catalog.now exprs.now.texts.statement.now
        exprs.now.table.now (section_rows parts.now (number_of kind))) ≤ length rows.old.rows.now }
    ensures { Listed (collect_each_rows exprs.now.texts.catalog.now exprs.now.texts.statement.now exprs.now.table.now
        (section_rows parts.now (number_of kind))) rows.old rows.new }
{
    let n = count(parts, kind);
    for i in 0..n {
        let r = entry_at(parts, kind, i).expr_row();
        // There is room, so none is lost.
        collect(exprs, r, rows);
    }
}

// The aggregates of the items, of HAVING and of ORDER.
pub fn function_rows(exprs: &Expressions, parts: &[u32], rows: &mut Rows)
    requires { rows.old.used + length (function_rows exprs.now.texts.catalog.now exprs.now.texts.statement.now
        exprs.now.table.now parts.now) ≤ length rows.old.rows.now }
    ensures { Listed (function_rows exprs.now.texts.catalog.now exprs.now.texts.statement.now exprs.now.table.now parts.now)
        rows.old rows.new }
{
    collect_section(exprs, parts, Section::Item, rows);
    if let Some(having) = clause_at(parts, Section::Having) {
        // There is room, so none is lost.
        collect(exprs, having.row, rows);
    }
    collect_section(exprs, parts, Section::Order, rows);
}

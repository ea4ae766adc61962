// CREATE (planner.rs, build_create_table): the primary key's position, then each column.
ghost use Rattle.std.specs.Prelude.{◌≡◌, ◌||◌, List, [], ℕ, ◌+◌, ◌*◌, ◌≤◌, length};
ghost use Rattle.std.proofs.Math.Option.{Option};
ghost use Rattle.rules.specs.Lists.{Bytes};
ghost use Rattle.rules.specs.Schema.{Value};
ghost use Rattle.rules.specs.BuildExpression.{each};
ghost use Rattle.rules.specs.BuildStatement.{default_value, made_column, build_create};
ghost use Rattle.rules.specs.Area.{default_numbers, made_numbers};
ghost use Rattle.sections.specs.Layout.{section_at};
ghost use Rattle.sections.specs.Access.{column_kind};
ghost use Rattle.expression.specs.Answers.{map_answer};
ghost use Rattle.statement.specs.Access.{name_word};
ghost use Rattle.statement.specs.EntryAccess.{given_of};
ghost use Rattle.plan.specs.Layout.{column_size, cell_size, own_head};
ghost use Rattle.plan.specs.Pushed.{NodeRoom, Pushed};
ghost use Rattle.plan.specs.Own.{column_numbers};
ghost use Rattle.build_statement.specs.Plans.{Plans};
ghost use Rattle.build_statement.specs.Pushes.{Pushes};
ghost use Rattle.build_statement.specs.Create as create;

use ast::Expressions;
use entries::{NewColumn, Section};
use expression::Constant;
use expression::constants::build_constant_value;
use expression::planned::of_value;
use literal::planned::in_plan;
use numbers::literals::Literal;
use numbers::refusals::{Reason, Refusal};
use plan::finish::Kind;
use plan::nodes::Nodes;
use plan::own;
use plan::steps::Step;
use sections::entry;
use sections::entry::{Entry, new_column};
use statement::access;
use text::places::Texts;
use value;

// The position of the first column from position k on that is given as primary key.
fn key_column(parts: &[u32], k: u32) -> Option<u32>
    ensures { (c q : Bytes) (cells : List ℕ) → create.Keys c q cells parts.now k result }
{
    let count = entry::count(parts, Section::Column);
    (k..count).find(|i| new_column(parts, *i).key)
}

// Whether a column may be null: as it is given, or else where it is no key.
fn is_nullable(column: NewColumn) -> bool
    ensures { result ≡ create.nullable_of column }
{
    column.nullable.unwrap_or(!column.key)
}

fn is_unique(column: NewColumn) -> bool
    ensures { result ≡ column.unique || column.key }
{
    column.unique || column.key
}

// Whether a column has an index: it is given, or it is unique or refers to a table; but no key has.
fn is_indexed(column: NewColumn) -> bool
    ensures { (c q : Bytes) → result ≡ create.index_of c q column }
{
    !column.key && (column.index || column.unique || column.reference.is_some())
}

// A column's default: the value of its expression; where there is none, a null if it may be null.
fn default_of(exprs: &Expressions, e: Entry, nullable: bool) -> Result<Option<Literal>, Refusal>
    ensures { create.default_of result ≡ map_answer default_numbers
        (default_value nullable (given_of exprs.now.texts.catalog.now exprs.now.texts.statement.now exprs.now.table.now e)) }
{
    let Some(row) = e.first_row() else {
        let null = of_value(&exprs.texts, value::Value::Null);
        return Ok(nullable.then_some(null));
    };
    let constant = build_constant_value(exprs, row)?;
    match constant {
        Constant::Literal(literal) => Ok(Some(in_plan(&exprs.texts, literal))),
        Constant::Value(v) => Ok(Some(of_value(&exprs.texts, v))),
    }
}

// A column but for its default.
fn put_column(texts: &Texts, e: Entry, new: NewColumn, nullable: bool, nodes: &mut Nodes)
    requires { NodeRoom column_size nodes.old }
    ensures { (d : Option Value) → Pushed
        (column_numbers (create.made_of texts.now.catalog.now texts.now.statement.now e new nullable d))
        nodes.old nodes.new }
{
    let name = texts.clipped(access::name_or(e.name));
    let reference = texts.clipped_option(new.reference);
    let unique = is_unique(new);
    let index = is_indexed(new);
    own::column(
        nodes,
        name,
        new.datatype,
        nullable,
        unique,
        index,
        reference,
    );
}

// A column and its default.
fn column(exprs: &Expressions, e: Entry, new: NewColumn, nodes: &mut Nodes) -> Result<(), Refusal>
    requires { nodes.old.used + column_size + cell_size ≤ length nodes.old.numbers.now }
    ensures { Pushes made_numbers
        (made_column (create.column_of exprs.now.texts.catalog.now exprs.now.texts.statement.now exprs.now.table.now e
        new))
        nodes.old nodes.new result }
{
    let nullable = is_nullable(new);
    let default = default_of(exprs, e, nullable)?;
    put_column(&exprs.texts, e, new, nullable, nodes);
    own::default_value(nodes, default);
    Ok(())
}

// All columns.
fn columns(exprs: &Expressions, parts: &[u32], nodes: &mut Nodes) -> Result<(), Refusal>
    requires { NodeRoom ((column_size + cell_size) * length
        (section_at exprs.now.texts.catalog.now exprs.now.texts.statement.now exprs.now.table.now parts.now column_kind))
        nodes.old }
    ensures { Pushes create.columns_numbers
        (each made_column (create.columns_at exprs.now.texts.catalog.now exprs.now.texts.statement.now exprs.now.table.now
        parts.now))
        nodes.old nodes.new result }
{
    let count = entry::count(parts, Section::Column);
    for i in 0..count {
        let e = entry::entry_at(parts, Section::Column, i);
        let new = new_column(parts, i);
        column(exprs, e, new, nodes)?;
    }
    Ok(())
}

// The table's name, the key's position and how many columns there are, then the columns.
fn table(exprs: &Expressions, parts: &[u32], key: u32, nodes: &mut Nodes) -> Result<(), Refusal>
    requires { nodes.old.used + own_head + (column_size + cell_size) * length
        (section_at exprs.now.texts.catalog.now exprs.now.texts.statement.now exprs.now.table.now parts.now column_kind) ≤
        length nodes.old.numbers.now }
    ensures { Pushes (create.table_numbers (name_word exprs.now.texts.catalog.now exprs.now.texts.statement.now
        exprs.now.table.now [] parts.now) key)
        (each made_column (create.columns_at exprs.now.texts.catalog.now exprs.now.texts.statement.now exprs.now.table.now
        parts.now))
        nodes.old nodes.new result }
{
    let texts = exprs.texts;
    let name = texts.clipped(access::name(parts));
    let count = entry::count(parts, Section::Column);
    own::create(nodes, name, key, count);
    columns(exprs, parts, nodes)
}

// The plan of a table with its one key.
fn create_table(
    exprs: &Expressions,
    parts: &[u32],
    key: u32,
    area: &mut [u32],
    nodes: &mut Nodes,
) -> Result<u32, Refusal>
    requires { create.CreateReady exprs.now.texts.catalog.now exprs.now.texts.statement.now exprs.now.table.now parts.now
        area.old nodes.old }
    ensures { Plans
        (create.with_key exprs.now.texts.catalog.now exprs.now.texts.statement.now exprs.now.table.now parts.now key)
        area.old area.new result }
{
    let own = nodes.used;
    table(exprs, parts, key, nodes)?;
    nodes.finish(area, Kind::Create, Step { cell: 0, node: 0 }, own);
    Ok(0)
}

// Refused at the statement's line without a primary key, and at the line of a second one.
pub fn build_create_table(
    exprs: &Expressions,
    parts: &[u32],
    area: &mut [u32],
    nodes: &mut Nodes,
) -> Result<u32, Refusal>
    requires { create.CreateReady exprs.now.texts.catalog.now exprs.now.texts.statement.now exprs.now.table.now parts.now
        area.old nodes.old }
    ensures { Plans
        (build_create (create.create_at exprs.now.texts.catalog.now exprs.now.texts.statement.now exprs.now.table.now
        parts.now))
        area.old area.new result }
{
    let Some(key) = key_column(parts, 0) else {
        return Err(Reason::NoPrimaryKey.at(access::line(parts)));
    };
    if let Some(j) = key_column(parts, key + 1) {
        let second = entry::entry_at(parts, Section::Column, j);
        return Err(Reason::MultiplePrimaryKeys.at(second.line));
    }
    create_table(exprs, parts, key, area, nodes)
}

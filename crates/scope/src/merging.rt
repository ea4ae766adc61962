// Whether two scopes may be merged.
ghost use Rattle.std.specs.Prelude.{◌≡◌, length};
ghost use Rattle.rules.specs.Equality.{same_name};
ghost use Rattle.rules.specs.Lists.{any};
ghost use Rattle.rules.specs.Places.{word_at};
ghost use Rattle.rules.specs.Scope.{shares};
ghost use Rattle.scope.specs.Labels.{tables_of};
ghost use Rattle.scope.specs.Merging.{MayMerge};

use super::COLUMNS;
use super::labels::place;
use super::lookup::has_table;
use super::view::View;
use numbers::refusals::Reason;
use text::places::{Place, Texts};

// Whether one of the tables has the name at a place.
fn has_table_at(texts: &Texts, tables: &[u32], name: Place) -> bool
    ensures { result ≡ any
        (same_name (word_at texts.now.catalog.now texts.now.statement.now name.address name.length))
        (tables_of texts.now.catalog.now texts.now.statement.now tables.now) }
{
    has_table(texts, tables, texts.bytes_at(name))
}

// Whether a table name is held by both.
fn shares_name(texts: &Texts, tables: &[u32], others: &[u32]) -> bool
    ensures { result ≡ shares
        (tables_of texts.now.catalog.now texts.now.statement.now tables.now)
        (tables_of texts.now.catalog.now texts.now.statement.now others.now) }
{
    others
        .iter()
        .any(|y| has_table_at(texts, tables, place(*y)))
}

// Of a scope, and another whose columns would come behind its own.
pub fn may_merge(texts: &Texts, scope: &View, other: &View) -> Result<(), Reason>
    ensures { MayMerge texts.now.catalog.now texts.now.statement.now
        scope.now.tables.now (length scope.now.labels.now) other.now.tables.now
        (length other.now.labels.now) result }
{
    if shares_name(texts, scope.tables, other.tables) {
        return Err(Reason::DuplicateTable);
    }
    if COLUMNS < scope.labels.len() + other.labels.len() {
        return Err(Reason::LimitPassed);
    }
    Ok(())
}

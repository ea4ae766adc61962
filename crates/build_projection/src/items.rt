// The items of a SELECT, each star replaced by FROM's columns (planner.rs, build_select).
ghost use Rattle.std.specs.Prelude.{◌≡◌, List, ℕ, [], ◌∷◌, ◌+◌, ◌≤◌, ◌<◌, map, length};
ghost use Rattle.rules.specs.Limits.{most_columns};
ghost use Rattle.rules.specs.Lists.{Bytes};
ghost use Rattle.rules.specs.Views.{as_star};
ghost use Rattle.rules.specs.Items.{plain_star};
ghost use Rattle.ast.specs.Table.{statement_rows, starred_rows, tree_at};
ghost use Rattle.numbers.specs.Options.{option_of};
ghost use Rattle.sections.specs.Access.{item_kind, numbers_at};
ghost use Rattle.scope.specs.Scopes.{up_to};
ghost use Rattle.build_projection.specs.Items.{entry_item, item_of, items_at, sought, single};
ghost use Rattle.build_projection.specs.Steps.{ItemListed};
ghost use Rattle.build_projection.specs.declared.items.Item.TheVariants.{Starred};
ghost use Rattle.build_projection.specs.Terms.{ItemsExpanded, ItemsBuilt};

use super::stars::put_columns;
use ast::row::{Kind, kind_of, line};
use ast::rows::{STATEMENT_ROWS, TABLE_SIZE};
use entries::Section;
use numbers::refusals::{Reason, Refusal};
use scope::COLUMNS;
use sections::entry::{Entry, count, entry_at};

// An item: an entry by its number, or a starred column by its row, which is behind the statement's rows.
#[derive(Clone, Copy, Debug, PartialEq, Eq)]
pub enum Item {
    Entry(u32),
    Starred(u32),
}

// A lent slice, how many items are listed in it so far, and how many of them are starred columns.
#[derive(Drop)]
struct Listed<'i> {
    items: &'i mut [Item],
    count: usize,
    starred: u32,
}

// The line of the star at row r, none where there is no star.
fn star_at(cells: &[u32], r: usize) -> Option<u32>
    ensures { (c q : Bytes) → option_of result ≡ as_star (tree_at c q cells.now r) }
{
    match kind_of(cells, r) {
        Kind::Star => Some(line(cells, r)),
        _ => None,
    }
}

// The star that entry k is, where it has no alias.
fn plain_entry(cells: &[u32], parts: &[u32], k: u32) -> Option<u32>
    ensures { (c q : Bytes) → option_of result ≡ plain_star (entry_item c q cells.now parts.now k ∷ []) }
{
    let e = entry_at(parts, Section::Item, k);
    match e.name {
        Some(_) => None,
        None => star_at(cells, e.expr_row()),
    }
}

// The star that item x is, where it has no alias.
pub fn plain_item(cells: &[u32], parts: &[u32], x: Item) -> Option<u32>
    ensures { (c q : Bytes) → option_of result ≡ plain_star (item_of c q cells.now parts.now x ∷ []) }
{
    match x {
        Item::Entry(k) => plain_entry(cells, parts, k),
        Item::Starred(r) => star_at(cells, r as usize),
    }
}

// The first star that has no alias.
fn plain_star(cells: &[u32; TABLE_SIZE], parts: &[u32]) -> Option<u32>
    ensures { (c q : Bytes) → option_of result ≡ plain_star (items_at c q cells.now parts.now) }
{
    let n = count(parts, Section::Item);
    (0..n).find_map(|k| plain_entry(cells, parts, k))
}

// The starred columns of the rows from first on, in each place.
fn put_rows(items: &mut [Item], first: u32)
    requires { first + length items.old ≤ statement_rows + starred_rows }
    ensures { items.new ≡ map Starred (up_to first (length items.old)) }
{
    for (i, item) in items.iter_mut().enumerate() {
        *item = Item::Starred(first + i as u32);
    }
}

// Behind the items listed so far: entry k, of a line, or the columns that its star stands for. Refused at the star or the
// item past the most.
fn list_item(
    cells: &mut [u32],
    tables: &[u32],
    labels: &[u32],
    k: u32,
    line: u32,
    star: Option<u32>,
    listed: &mut Listed,
) -> Result<(), Refusal>
    requires { (length listed.old.items.now ≡ most_columns) × (listed.old.starred ≤ listed.old.count)
        × (listed.old.count ≤ most_columns) }
    ensures { ItemListed cells.old cells.new tables.now labels.now k line star listed.old listed.new result }
{
    let n = listed.count;
    match star {
        None => {
            if COLUMNS <= n {
                return Err(Reason::LimitPassed.at(line));
            }
            listed.items[n] = Item::Entry(k);
            listed.count += 1;
            Ok(())
        }
        Some(star_line) => {
            let w = labels.len();
            if COLUMNS - n < w {
                return Err(Reason::LimitPassed.at(star_line));
            }
            put_columns(cells, tables, labels, listed.starred, star_line);
            put_rows(&mut listed.items[n..n + w], STATEMENT_ROWS + listed.starred);
            listed.count += w;
            listed.starred += w as u32;
            Ok(())
        }
    }
}

// The star that an entry is, where stars are expanded.
fn item_star(cells: &[u32], e: Entry, expand: bool) -> Option<u32>
    ensures { (parts : List ℕ) (k : ℕ) → e ≡ numbers_at parts item_kind k
        → (c q : Bytes) → option_of result ≡ sought expand (entry_item c q cells.now parts k) }
{
    if !expand {
        return None;
    }
    star_at(cells, e.expr_row())
}

// How many items there are, stars expanded or not.
fn expand_items(
    cells: &mut [u32; TABLE_SIZE],
    parts: &[u32],
    tables: &[u32],
    labels: &[u32],
    items: &mut [Item],
    expand: bool,
) -> Result<usize, Refusal>
    requires { length items.old ≡ most_columns }
    ensures { ItemsExpanded cells.old cells.new parts.now tables.now
        labels.now items.new expand result }
{
    let total = count(parts, Section::Item);
    let mut listed = Listed {
        items,
        count: 0,
        starred: 0,
    };
    for k in 0..total {
        let e = entry_at(parts, Section::Item, k);
        let star = item_star(cells, e, expand);
        list_item(cells, tables, labels, k, e.line, star, &mut listed)?;
    }
    Ok(listed.count)
}

// Whether there is one item and no group.
fn is_single(parts: &[u32]) -> bool
    ensures { result ≡ single parts.now }
{
    count(parts, Section::Item) == 1 && count(parts, Section::Group) == 0
}

// How many items there are over FROM's columns by their labels and tables. Refused too at a star that has no columns.
pub fn build_items(
    cells: &mut [u32; TABLE_SIZE],
    parts: &[u32],
    tables: &[u32],
    labels: &[u32],
    items: &mut [Item],
) -> Result<usize, Refusal>
    requires { length items.old ≡ most_columns }
    ensures { ItemsBuilt cells.old cells.new parts.now tables.now
        labels.now items.new result }
{
    match plain_star(cells, parts) {
        None => expand_items(cells, parts, tables, labels, items, false),
        Some(line) => {
            if labels.is_empty() {
                return Err(Reason::StarWithoutFrom.at(line));
            }
            let single = is_single(parts);
            expand_items(cells, parts, tables, labels, items, !single)
        }
    }
}

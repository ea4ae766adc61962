// A column by its name.
ghost use Rattle.std.specs.Prelude.{◌≡◌, List, ℕ, ◌<◌, ◌≤◌, length};
ghost use Rattle.std.proofs.Math.Option.{some};
ghost use Rattle.rules.specs.Lists.{any, positions};
ghost use Rattle.rules.specs.Lines.{Word};
ghost use Rattle.rules.specs.Equality.{same_name};
ghost use Rattle.rules.specs.Places.{word_at};
ghost use Rattle.rules.specs.Scope.{is_named, is_qualified, the_only, the_last};
ghost use Rattle.scope.specs.Endings.{ending_of};
ghost use Rattle.scope.specs.Labels.{label_at, tables_of, columns_of};
ghost use Rattle.scope.specs.Lookup.{qualifier_of, Sought, Looked};
ghost use Rattle.scope.specs.Search.{Missing};

use super::endings::{Ending, ending_of, may_end};
use super::labels::{has_name, slot};
use super::matched::has_match;
use super::view::View;
use numbers::number;
use numbers::refusals::Reason;
use text::places::{Place, Texts};

// Whether a label has a name of these bytes, which is of that ending.
fn is_named(texts: &Texts, x: u32, name: &[u8], ending: Ending) -> bool
    requires { ending.limit ≤ length texts.now.catalog.now }
    ensures { (ts : List ℕ) (w : Word) → w.bytes ≡ name.now → ending ≡ ending_of texts.now.catalog.now name.now
        → result ≡ is_named w (label_at texts.now.catalog.now texts.now.statement.now ts x) }
{
    if !may_end(texts.catalog, ending, x) {
        return false;
    }
    // 0 is asked last, of the few that are left: asked first it makes each step of a search longer
    has_name(texts, x, name) && x != 0
}

// Whether a label has a name and its table another.
fn is_qualified(
    texts: &Texts,
    tables: &[u32],
    x: u32,
    table: &[u8],
    name: &[u8],
    ending: Ending,
) -> bool
    requires { ending.limit ≤ length texts.now.catalog.now }
    ensures { (v w : Word) → v.bytes ≡ table.now → w.bytes ≡ name.now → ending ≡ ending_of texts.now.catalog.now name.now
        → result ≡ is_qualified v w (label_at texts.now.catalog.now texts.now.statement.now tables.now x) }
{
    if !may_end(texts.catalog, ending, x) {
        return false;
    }
    if !has_name(texts, x, name) {
        return false;
    }
    let k = slot(x);
    k != 0 && has_name(texts, number(tables, k as usize - 1), table)
}

// Whether one of the tables has a name.
pub fn has_table(texts: &Texts, tables: &[u32], name: &[u8]) -> bool
    ensures { (w : Word) → w.bytes ≡ name.now
        → result ≡ any (same_name w) (tables_of texts.now.catalog.now texts.now.statement.now tables.now) }
{
    tables.iter().any(|x| has_name(texts, *x, name))
}

// Why a name stands nowhere: it is not aggregated where something is matched, else there is no such column.
fn not_found(matches: &[u16]) -> Reason
    ensures { Missing matches.now result }
{
    if has_match(matches) {
        return Reason::NotAggregated;
    }
    Reason::UnknownColumn
}

impl View<'_> {
    // The only column of a name, or why there is none.
    fn only_named(&self, texts: &Texts, name: &[u8]) -> Result<u32, Reason>
        ensures { (ts : List ℕ) (w : Word) → w.bytes ≡ name.now → Sought the_only
            (positions (is_named w) 0
            (columns_of texts.now.catalog.now texts.now.statement.now ts self.now.labels.now))
            self.now.matches.now result }
    {
        let ending = ending_of(texts.catalog, name);
        let mut hit = None;
        for (i, &label) in self.labels.iter().enumerate() {
            if is_named(texts, label, name, ending) {
                if hit.is_some() {
                    return Err(Reason::AmbiguousColumn);
                }
                hit = Some(i as u32);
            }
        }
        hit.ok_or_else(|| not_found(self.matches))
    }

    // The last column of a name whose table has a name.
    fn last_qualified(&self, texts: &Texts, table: &[u8], name: &[u8]) -> Result<u32, Reason>
        ensures { (v w : Word) → v.bytes ≡ table.now → w.bytes ≡ name.now → Sought the_last
            (positions (is_qualified v w) 0
            (columns_of texts.now.catalog.now texts.now.statement.now self.now.tables.now self.now.labels.now))
            self.now.matches.now result }
    {
        let ending = ending_of(texts.catalog, name);
        // by a loop: std's lemmas on searches are about those from the front
        for i in (0..self.labels.len()).rev() {
            if is_qualified(texts, self.tables, self.labels[i], table, name, ending) {
                return Ok(i as u32);
            }
        }
        Err(not_found(self.matches))
    }

    // The column of a name whose table has a name, if there is such a table.
    fn lookup_qualified(&self, texts: &Texts, table: &[u8], name: &[u8]) -> Result<u32, Reason>
        requires { 0 < length self.now.labels.now }
        ensures { (v w : Word) → v.bytes ≡ table.now → w.bytes ≡ name.now → Looked
            texts.now.catalog.now texts.now.statement.now self.now.labels.now self.now.matches.now
            self.now.tables.now (some v) w result }
    {
        if !has_table(texts, self.tables, table) {
            return Err(Reason::UnknownQualifier);
        }
        self.last_qualified(texts, table, name)
    }

    // The column that a name means under the table name at a place, if one is given.
    pub fn lookup(
        &self,
        texts: &Texts,
        qualifier: Option<Place>,
        name: Place,
    ) -> Result<u32, Reason>
        ensures { Looked texts.now.catalog.now texts.now.statement.now
            self.now.labels.now self.now.matches.now self.now.tables.now
            (qualifier_of texts.now.catalog.now texts.now.statement.now qualifier)
            (word_at texts.now.catalog.now texts.now.statement.now name.address name.length) result }
    {
        if self.labels.is_empty() {
            return Err(Reason::ConstantOnly);
        }
        let sought = texts.bytes_at(name);
        match qualifier {
            None => self.only_named(texts, sought),
            Some(place) => self.lookup_qualified(texts, texts.bytes_at(place), sought),
        }
    }
}

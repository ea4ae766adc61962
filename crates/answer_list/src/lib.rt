// The fixed list of answers (host/answers/README.md): records of a catalog, a statement and the text that is printed of them.
#![tactic(auto)]

ghost use Rattle.std.specs.Prelude.{◌≡◌};
ghost use Rattle.std.proofs.Math.Option.{some};
ghost use Rattle.answer_list.specs.Records.{sized, record_at};

use text::{decimal, equal, fields};

// A record: where its catalog starts, and how many bytes its catalog, its statement and its answer have, which stand there
// one behind the other. Numbers, as the line has them: as slices they would be four splits in `whole` and the end as a field, to
// save the two sums in `replay`.
#[derive(Clone, Copy, Debug, PartialEq, Eq)]
pub struct Record {
    pub start: usize,
    pub catalog: usize,
    pub statement: usize,
    pub answer: usize,
}

// The record whose three texts start at a position, if the list has as many bytes.
fn whole(list: &[u8], start: usize, catalog: u64, statement: u64, answer: u64) -> Option<Record>
    ensures { result ≡ sized list.now start (some (catalog, statement, answer)) }
{
    let room = list.len().saturating_sub(start) as u64;
    let behind = room.checked_sub(catalog)?;
    let left = behind.checked_sub(statement)?;
    left.checked_sub(answer)?;
    Some(Record {
        start,
        catalog: catalog as usize,
        statement: statement as usize,
        answer: answer as usize,
    })
}

// The record at a position.
pub fn record_at(list: &[u8], at: usize) -> Option<Record>
    ensures { result ≡ record_at list.now at }
{
    let line = fields(list, at);
    if line.count != 4 {
        return None;
    }
    if !equal(line.field(list, 0), b"case") {
        return None;
    }
    let catalog = decimal(line.field(list, 1), u64::MAX)?;
    let statement = decimal(line.field(list, 2), u64::MAX)?;
    let answer = decimal(line.field(list, 3), u64::MAX)?;
    whole(list, line.next, catalog, statement, answer)
}

// Keywords: as the numbers that `packed` makes of them, the word's bytes, the first one lowest, below a 1; and tables of words with values.
ghost use Rattle.std.specs.Prelude.{◌≡◌};
ghost use Rattle.std.specs.Option.{option_map};
ghost use Rattle.rules.specs.Lists.{named};
ghost use Rattle.rules.specs.ReadColumn.{datatypes};
ghost use Rattle.numbers.specs.Datatypes.{type_of};
ghost use Rattle.numbers.specs.Options.{option_of};
ghost use Rattle.text.specs.Beside.{beside};

use numbers::datatypes::DataType;

// Expressions that are no literals.
pub const OP: u64 = 0x1706f;

pub const COL: u64 = 0x16c6f63;

pub const FN: u64 = 0x16e66;

pub const STAR: u64 = 0x172617473;

// Types and literals.
pub const NULL: u64 = 0x16c6c756e;

pub const BOOL: u64 = 0x16c6f6f62;

pub const INT: u64 = 0x1746e69;

pub const FLOAT: u64 = 0x174616f6c66;

pub const TEXT: u64 = 0x174786574;

// What a column may be.
pub const NOTNULL: u64 = 0x16c6c756e746f6e;

// Operators.
pub const AND: u64 = 0x1646e61;

pub const NOT: u64 = 0x1746f6e;

pub const OR: u64 = 0x1726f;

pub const EQ: u64 = 0x17165;

pub const GT: u64 = 0x17467;

pub const GE: u64 = 0x16567;

pub const IS: u64 = 0x17369;

pub const LT: u64 = 0x1746c;

pub const LE: u64 = 0x1656c;

pub const NE: u64 = 0x1656e;

pub const ADD: u64 = 0x1646461;

pub const DIV: u64 = 0x1766964;

pub const POW: u64 = 0x1776f70;

pub const FACT: u64 = 0x174636166;

pub const IDENT: u64 = 0x1746e656469;

pub const MUL: u64 = 0x16c756d;

pub const NEG: u64 = 0x167656e;

pub const REM: u64 = 0x16d6572;

pub const SUB: u64 = 0x1627573;

pub const LIKE: u64 = 0x1656b696c;

// Parts of a statement.
pub const ITEM: u64 = 0x16d657469;

pub const WHERE: u64 = 0x16572656877;

pub const GROUP: u64 = 0x170756f7267;

pub const HAVING: u64 = 0x1676e69766168;

pub const ORDER: u64 = 0x1726564726f;

pub const OFFSET: u64 = 0x174657366666f;

pub const LIMIT: u64 = 0x174696d696c;

pub const COLUMNS: u64 = 0x1736e6d756c6f63;

pub const NAME: u64 = 0x1656d616e;

pub const ROW: u64 = 0x1776f72;

pub const SET: u64 = 0x1746573;

pub const COLUMN: u64 = 0x16e6d756c6f63;

// The value beside a word in a table, if the word stands there.
pub fn beside<T: Copy>(table: &[(&[u8], T)], word: &[u8]) -> Option<T>
    ensures { result ≡ beside table.now word.now }
{
    let entry = table.iter().find(|entry| crate::equal(entry.0, word))?;
    Some(entry.1)
}

// The type of a column that a word names.
pub fn datatype(word: &[u8]) -> Option<DataType>
    ensures { option_of (option_map type_of result) ≡ named datatypes word.now }
{
    match crate::packed(word) {
        BOOL => Some(DataType::Boolean),
        INT => Some(DataType::Integer),
        FLOAT => Some(DataType::Float),
        TEXT => Some(DataType::String),
        _ => None,
    }
}

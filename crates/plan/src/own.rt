// The statement's own numbers (docs/PLAN.md), behind those of its nodes. Some functions have the same shape: one for several
// statements would be no plainer, as each says whose numbers it appends.
#![tactic(auto, using(numbers::specs::Flags::byte_flag), unfolding(rules::specs::Area::own_numbers, rules::specs::Area::mapping_numbers, rules::specs::Area::set_numbers, crate::specs::Own::inserting, crate::specs::Own::updating, crate::specs::Own::creating, rules::specs::Lists::concat))]

ghost use Rattle.std.specs.Prelude.{◌≡◌, [], ◌∷◌, ℕ, ◌<◌, ◌^◌};
ghost use Rattle.std.proofs.Math.Option.{Option};
ghost use Rattle.rules.specs.Lines.{Word};
ghost use Rattle.rules.specs.Schema.{Value, Table};
ghost use Rattle.rules.specs.Plan.{Node, cindex, vindex, Made, delete};
ghost use Rattle.rules.specs.Plan as plan;
ghost use Rattle.rules.specs.Area.{span, option_span, option_number, mapping_numbers, set_numbers, default_numbers, own_numbers};
ghost use Rattle.numbers.specs.Options.{option_of};
ghost use Rattle.numbers.specs.Datatypes.{type_of};
ghost use Rattle.numbers.specs.Literals.{given_numbers};
ghost use Rattle.plan.specs.Layout.{cell_size, own_size, own_head, set_size, mapping_size, column_size};
ghost use Rattle.plan.specs.Pushed.{NodeRoom, Pushed};
ghost use Rattle.plan.specs.Places.{place_numbers};
ghost use Rattle.text.specs.Places.{option_numbers};
ghost use Rattle.plan.specs.Own.{inserting, updating, creating, column_numbers};

use crate::CELL_SIZE;
use crate::nodes::Nodes;
use numbers::datatypes::DataType;
use numbers::literals::{Literal, put_given};
use numbers::options::number_of;
use text::places::Place;

// A name and a number.
fn named(nodes: &mut Nodes, name: Place, x: u32)
    requires { NodeRoom own_size nodes.old }
    ensures { Pushed (name.address ∷ name.length ∷ x ∷ []) nodes.old nodes.new }
{
    nodes.extend([name.address, name.length, x]);
}

pub fn drop(nodes: &mut Nodes, name: Place, exists: bool)
    requires { NodeRoom own_size nodes.old }
    ensures { (w : Word) → span w ≡ place_numbers name → Pushed (own_numbers
        (plan.drop w exists)) nodes.old nodes.new }
{
    named(nodes, name, u32::from(exists));
}

pub fn delete(nodes: &mut Nodes, name: Place, key: u32)
    requires { NodeRoom own_size nodes.old }
    ensures { (t : Table) (p : Node ℕ) → span t.name ≡ place_numbers name → t.key ≡ key
        → Pushed (own_numbers (delete t p)) nodes.old nodes.new }
{
    named(nodes, name, key);
}

// INSERT: 0 for no column map, or one more than its length; then the map.
pub fn insert(nodes: &mut Nodes, name: Place, columns: Option<u32>)
    requires room { NodeRoom own_size nodes.old }
    requires columns { option_number (option_of columns) < 2 ^ 32 }
    ensures { (t : Table) → span t.name ≡ place_numbers name → Pushed
        (inserting t (option_number (option_of columns)) []) nodes.old nodes.new }
{
    named(nodes, name, number_of(columns));
}

pub fn mapping(nodes: &mut Nodes, column: u32, value: u32)
    requires { NodeRoom mapping_size nodes.old }
    ensures { Pushed (mapping_numbers (record { column = cindex column; value = vindex value })) nodes.old
        nodes.new }
{
    nodes.extend([column, value]);
}

// UPDATE: the table, and how many sets there are; then each set's column and root.
pub fn update(nodes: &mut Nodes, name: Place, key: u32, sets: u32)
    requires { NodeRoom own_head nodes.old }
    ensures { (t : Table) → span t.name ≡ place_numbers name → t.key ≡ key
        → Pushed (updating t sets []) nodes.old nodes.new }
{
    nodes.extend([name.address, name.length, key, sets]);
}

pub fn set(nodes: &mut Nodes, column: u32, root: u32)
    requires { NodeRoom set_size nodes.old }
    ensures { Pushed (set_numbers ((column, root) ∷ [])) nodes.old nodes.new }
{
    nodes.extend([column, root]);
}

// CREATE: the table, and how many columns it has; then each column and its default.
pub fn create(nodes: &mut Nodes, name: Place, key: u32, columns: u32)
    requires { NodeRoom own_head nodes.old }
    ensures { (w : Word) → span w ≡ place_numbers name → Pushed (creating w key columns []) nodes.old nodes.new }
{
    nodes.extend([name.address, name.length, key, columns]);
}

// A column by its name, its type, and the name of the table that it refers to.
pub fn column(
    nodes: &mut Nodes,
    name: Place,
    datatype: DataType,
    nullable: bool,
    unique: bool,
    index: bool,
    reference: Option<Place>,
)
    requires { NodeRoom column_size nodes.old }
    ensures { (c : Made) → span c.name ≡ place_numbers name → c.type ≡ type_of datatype → c.nullable ≡ nullable
        → c.unique ≡ unique → c.index ≡ index → option_span c.reference ≡ option_numbers reference
        → Pushed (column_numbers c) nodes.old nodes.new }
{
    nodes.extend([
        name.address,
        name.length,
        u32::from(datatype),
        u32::from(nullable),
        u32::from(unique),
        u32::from(index),
    ]);
    nodes.place(reference);
}

// A column's default: its numbers, all 0 for none.
pub fn default_value(nodes: &mut Nodes, default: Option<Literal>)
    requires { NodeRoom cell_size nodes.old }
    ensures { (d : Option Value) → default_numbers d ≡ given_numbers default
        → Pushed (default_numbers d) nodes.old nodes.new }
{
    put_given(nodes.numbers, nodes.used, default);
    nodes.used += CELL_SIZE;
}

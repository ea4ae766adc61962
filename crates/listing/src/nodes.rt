// The lines of an area's nodes: the kind, how many numbers follow, and those.
ghost use Rattle.std.specs.Prelude.{◌≡◌, ◌+◌, get_or, drop};
ghost use Rattle.listing.specs.Fields.{Fields, FieldsIn};
ghost use Rattle.listing.specs.Lines.{LinesIn};
ghost use Rattle.listing.specs.Nodes.{scan_fields, join_fields, filter_fields, aggregate_fields, project_fields};
ghost use Rattle.listing.specs.Nodes.{order_fields, limit_fields, remap_fields, node_rest, node_named, node_fields, node_line};
ghost use Rattle.listing.specs.Nodes.{node_lines};
ghost use Rattle.plan.specs.Kinds.{node_number};

use crate::cells::{optional_place_at, place_at, tail};
use crate::put::Writer;
use numbers::halves::joined;
use numbers::options::of_number;
use numbers::{first, number};
use plan::nodes::Kind;
use plan::{CELL_SIZE, HEADER_SIZE};

// The numbers behind a node's own.
fn behind(s: &[u32]) -> &[u32]
    ensures { result.now ≡ drop (2 + get_or s.now 1 0) s.now }
{
    tail(s, 2 + number(s, 1) as usize)
}

// The word of a node's kind.
#[tactic(auto, unfolding(crate::specs::Nodes::node_named, rules::specs::Lines::bytes))]
fn kind_word(kind: Kind) -> &'static [u8]
    ensures { result.now ≡ node_named kind }
{
    match kind {
        Kind::Scan => b"scan",
        Kind::Values => b"values",
        Kind::Join => b"join",
        Kind::Filter => b"filter",
        Kind::Aggregate => b"aggregate",
        Kind::Project => b"project",
        Kind::Order => b"order",
        Kind::Offset => b"offset",
        Kind::Limit => b"limit",
        Kind::Remap => b"remap",
    }
}

impl<'a> Writer<'a> {
    fn scan(&mut self, s: &[u32])
        ensures { FieldsIn self.old self.new (λ c q. scan_fields c q s.now) }
    {
        self.place(place_at(s, 0));
        self.alias(optional_place_at(s, 3));
        self.given(of_number(number(s, 2)));
    }

    fn join(&mut self, s: &[u32])
        ensures { Fields self.old self.new (join_fields s.now) }
    {
        self.number(number(s, 0));
        self.number(number(s, 1));
        self.word(&[b"inner", b"outer"], number(s, 2));
        self.given(of_number(number(s, 3)));
    }

    fn filter(&mut self, s: &[u32])
        ensures { Fields self.old self.new (filter_fields s.now) }
    {
        self.number(number(s, 0));
        self.number(number(s, 1));
    }

    fn aggregate(&mut self, s: &[u32])
        ensures { Fields self.old self.new (aggregate_fields s.now) }
    {
        let n = number(s, 1);
        self.number(number(s, 0));
        self.numbers(n, tail(s, 2));
        self.functions(tail(s, 2 + n as usize));
    }

    fn project(&mut self, s: &[u32])
        ensures { FieldsIn self.old self.new (λ c q. project_fields c q s.now) }
    {
        self.number(number(s, 0));
        self.items(tail(s, 1));
    }

    fn order(&mut self, s: &[u32])
        ensures { Fields self.old self.new (order_fields s.now) }
    {
        self.number(number(s, 0));
        self.keys(tail(s, 1));
    }

    // An offset or a limit.
    fn limit(&mut self, s: &[u32])
        ensures { Fields self.old self.new (limit_fields s.now) }
    {
        self.number(number(s, 0));
        self.long(joined(number(s, 1), number(s, 2)));
    }

    fn remap(&mut self, s: &[u32])
        ensures { Fields self.old self.new (remap_fields s.now) }
    {
        self.number(number(s, 0));
        self.targets(tail(s, 1));
    }

    // What stands behind a node's kind, from the node's numbers.
    #[tactic(auto, unfolding(crate::specs::Nodes::node_rest, crate::specs::Choices::choose))]
    fn node_rest(&mut self, kind: Kind, s: &[u32])
        ensures { FieldsIn self.old self.new (λ c q. node_rest c q (node_number kind) s.now) }
    {
        match kind {
            Kind::Scan => self.scan(s),
            Kind::Values => self.rows(s),
            Kind::Join => self.join(s),
            Kind::Filter => self.filter(s),
            Kind::Aggregate => self.aggregate(s),
            Kind::Project => self.project(s),
            Kind::Order => self.order(s),
            Kind::Offset | Kind::Limit => self.limit(s),
            Kind::Remap => self.remap(s),
        }
    }

    // The fields of a node, from its kind on; an empty word where its number is no kind's.
    fn node_fields(&mut self, s: &[u32])
        ensures { FieldsIn self.old self.new (λ c q. node_fields c q s.now) }
    {
        let Ok(kind) = Kind::try_from(number(s, 0)) else {
            return self.field(b"");
        };
        self.field(kind_word(kind));
        self.node_rest(kind, first(tail(s, 2), number(s, 1) as usize));
    }

    // The line of node i.
    fn node(&mut self, i: u32, s: &[u32])
        ensures { LinesIn self.old self.new (λ c q. node_line c q i s.now) }
    {
        self.bytes(b"node");
        self.number(i);
        self.node_fields(s);
        self.byte(b'\n');
    }

    // The lines of the nodes of an area.
    pub fn nodes(&mut self, area: &[u32])
        ensures { LinesIn self.old self.new (λ c q. node_lines c q area.now) }
    {
        let mut rest = tail(area, HEADER_SIZE + number(area, 2) as usize * CELL_SIZE);
        for i in 0..number(area, 3) {
            self.node(i, rest);
            rest = behind(rest);
        }
    }
}

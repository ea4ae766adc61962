// DROP TABLE: no cells, no nodes; the table need not exist.
ghost use Rattle.std.specs.Prelude.{Ok};
ghost use Rattle.rules.specs.Refusals.{ok};
ghost use Rattle.rules.specs.Plan as plan;
ghost use Rattle.numbers.specs.Values.{is_one};
ghost use Rattle.statement.specs.Access.{drop_flag};
ghost use Rattle.build_statement.specs.Plans.{Plans};
ghost use Rattle.build_statement.specs.Kinds.{Free, name_of};

use plan::finish::Kind;
use plan::nodes::Nodes;
use plan::own;
use plan::steps::Step;
use statement::access;
use text::places::Texts;

pub fn build_drop_table(texts: &Texts, parts: &[u32], area: &mut [u32], nodes: &mut Nodes)
    requires { Free area.old nodes.old }
    ensures { Plans
        (ok (plan.drop (name_of texts.now.catalog.now texts.now.statement.now parts.now)
        (is_one (drop_flag parts.now))))
        area.old area.new (Ok 0) }
{
    let name = texts.clipped(access::name(parts));
    let own = nodes.used;
    own::drop(nodes, name, access::if_exists(parts));
    nodes.finish(area, Kind::Drop, Step { cell: 0, node: 0 }, own);
}

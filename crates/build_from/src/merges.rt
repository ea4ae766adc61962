// The scopes of a join's sides, merged.
ghost use Rattle.build_from.specs.Merges.{TwoScopes, Merges};

use numbers::refusals::Refusal;
use scope::Scope;
use scope::merging::may_merge;
use text::places::Texts;

// The scope of both, refused at a line.
pub fn merge_scopes(texts: &Texts, a: Scope, b: &Scope, line: u32) -> Result<Scope, Refusal>
    requires { TwoScopes a b.now }
    ensures { Merges texts.now.catalog.now texts.now.statement.now a b.now line result }
{
    may_merge(texts, &a.view(), &b.view()).map_err(|reason| reason.at(line))?;
    Ok(a.merge(b))
}

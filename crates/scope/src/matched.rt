// Whether something is matched to a scope's columns.
ghost use Rattle.std.specs.Prelude.{◌≡◌, not, ℕ};
ghost use Rattle.rules.specs.Ast.{Expr};
ghost use Rattle.rules.specs.Lists.{is_empty};
ghost use Rattle.scope.specs.Scopes.{matches_of};
ghost use Rattle.scope.specs.UsedMatches.{some_match, used_matches};

use super::view::View;

pub fn has_match(matches: &[u16]) -> bool
    ensures { result ≡ some_match matches.now }
{
    // no way out of the loop, so that several are compared at once
    let mut found = false;
    for m in matches {
        found = found | (*m != 0);
    }
    found
}

impl<'s> View<'s> {
    // The same, with no matches where nothing is matched to any column.
    pub fn used(&self) -> View<'s>
        ensures labels { result.labels.now ≡ self.now.labels.now }
        ensures matches { result.matches.now ≡ used_matches self.now.matches.now }
        ensures tables { result.tables.now ≡ self.now.tables.now }
    {
        if has_match(self.matches) {
            return *self;
        }
        View {
            labels: self.labels,
            matches: &self.matches[..0],
            tables: self.tables,
        }
    }

    // Whether something is matched to one of the columns.
    pub fn is_matched(&self) -> bool
        ensures { (e : ℕ → Expr) → result ≡ not (is_empty (matches_of e 0 self.now.matches.now)) }
    {
        has_match(self.matches)
    }
}

// Rows of the table, listed in a slice that is lent.
ghost use Rattle.std.specs.Prelude.{◌≡◌, [], ◌∷◌, ◌+◌, ◌≤◌, length};
ghost use Rattle.ast.specs.Listed.{rows_in, Listed, ListedWithin};

// A lent slice, and how many rows stand in it.
#[derive(Drop)]
pub struct Rows<'r> {
    pub rows: &'r mut [usize],
    pub used: usize,
}

impl<'r> Rows<'r> {
    // None stand in it.
    pub fn new(rows: &'r mut [usize]) -> Rows<'r>
        ensures used { result.used ≡ 0 }
        ensures rows { result.rows.now ≡ rows.old }
        ensures same { result.rows.ghost_name ≡ rows.entry.ghost_name }
    {
        Rows { rows, used: 0 }
    }

    pub fn push(&mut self, r: usize)
        requires { self.old.used + 1 ≤ length self.old.rows.now }
        ensures { Listed (r ∷ []) self.old self.new }
    {
        self.rows[self.used] = r;
        self.used += 1;
    }

    // None where there is no room. (`Option<()>`, which a caller hands on as it is: a Result would have an error of one value.)
    pub fn try_push(&mut self, r: usize) -> Option<()>
        ensures { ListedWithin (r ∷ []) self.old result self.new }
    {
        if self.used < self.rows.len() {
            self.push(r);
            return Some(());
        }
        None
    }

    // Those that stand in it.
    pub fn listed(&self) -> &[usize]
        requires { self.now.used ≤ length self.now.rows.now }
        ensures { result.now ≡ rows_in self.now }
    {
        &self.rows[..self.used]
    }
}

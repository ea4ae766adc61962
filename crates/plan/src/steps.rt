// How far building came.
ghost use Rattle.std.specs.Prelude.{◌≡◌, ◌+◌, ◌<◌, ◌^◌};

// Behind a node of a SELECT: the next cell and the next node.
#[derive(Clone, Copy, Debug, PartialEq, Eq)]
pub struct Step {
    pub cell: u32,
    pub node: u32,
}

impl Step {
    // One node more, and this the next cell.
    pub fn next(self, cell: u32) -> Step
        requires { self.node + 1 < 2 ^ 32 }
        ensures { result ≡ record { cell = cell; node = self.node + 1 } }
    {
        Step {
            cell,
            node: self.node + 1,
        }
    }
}

ghost use Rattle.std.specs.Prelude.{◌≡◌, ◌+◌, min};

/// How much work a run has done. A count that reaches 2^64 - 1 stands still there.
#[derive(Clone, Copy, Debug, PartialEq, Eq)]
pub struct Steps {
    /// Modules that were interpreted.
    pub compiles: u64,
    /// Tokens that were read.
    pub tokens: u64,
}

impl Steps {
    pub fn new() -> Steps
        ensures { result ≡ record { compiles = 0; tokens = 0 } }
    {
        Steps {
            compiles: 0,
            tokens: 0,
        }
    }

    pub fn tick_compile(&mut self)
        ensures { self.new ≡ record self.old { compiles = min (self.old.compiles + 1) u64.MAX } }
    {
        self.compiles = self.compiles.saturating_add(1);
    }

    pub fn add_tokens(&mut self, n: u64)
        ensures { self.new ≡ record self.old { tokens = min (self.old.tokens + n) u64.MAX } }
    {
        self.tokens = self.tokens.saturating_add(n);
    }
}

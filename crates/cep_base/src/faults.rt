ghost use Rattle.std.specs.Prelude.{◌≡◌};
ghost use Rattle.cep_base.specs.Faults.{Rose, count_up};

use std::marker::Model;

/// How often something outside failed: from 0 to 2^64 - 1, where it stays.
#[derive(Drop)]
pub struct FaultCount {
    count: u64,
}

impl Model for FaultCount {
    ghost use Rattle.std.specs.Prelude.{ℕ};

    ghost Value = { ℕ };

    ghost view = { λ faults. faults.count };
}

impl FaultCount {
    /// No failure yet.
    pub fn new() -> FaultCount
        ensures { result ≡ 0 }
    {
        FaultCount { count: 0 }
    }

    /// Counts one more failure.
    pub fn rise(&mut self)
        ensures counted { self.new ≡ count_up self.old }
        ensures rose { Rose self.old self.new }
    {
        self.count = self.count.saturating_add(1);
    }
}

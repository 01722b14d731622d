ghost use Rattle.std.specs.Prelude.{◌≡◌, ◌≤◌};
ghost use Rattle.pir_io.specs.Plan.{is_listed, one_more};
ghost use Rattle.pir_io.specs.PlanOf.{call_plan};

/// The calls that are to fail, by their numbers, and what was counted so far.
#[derive(Drop)]
pub(crate) struct Plan {
    pub(crate) fail: Vec<u64>,
    pub(crate) calls: u64,
    pub(crate) faults: u64,
}

impl Plan {
    /// No call was made yet.
    pub(crate) fn new(fail: Vec<u64>) -> Self
        ensures listed { result.fail.items ≡ fail.items }
        ensures calls { result.calls ≡ 0 }
        ensures faults { result.faults ≡ 0 }
    {
        Plan {
            fail,
            calls: 0,
            faults: 0,
        }
    }

    /// Whether the next call is to fail.
    pub(crate) fn is_next_listed(&self) -> bool
        ensures { result ≡ is_listed (call_plan self.now) }
    {
        self.fail.contains(&self.calls)
    }

    /// Counts a call that succeeded.
    pub(crate) fn count_success(&mut self)
        ensures { self.new ≡ record self.old { calls = one_more self.old.calls } }
    {
        self.calls = self.calls.saturating_add(1);
    }

    /// Counts a call that failed.
    pub(crate) fn count_failure(&mut self)
        ensures counted { self.new ≡ record self.old { calls = one_more self.old.calls; faults = one_more self.old.faults } }
        ensures later { self.old.faults ≤ self.new.faults }
    {
        self.calls = self.calls.saturating_add(1);
        self.faults = self.faults.saturating_add(1);
    }
}

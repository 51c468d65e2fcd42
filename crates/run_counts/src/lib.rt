// The four counts of a run. "The four counts travel with the run and grow as it goes": they are lent to thin methods, one for each count, by which `array`
// counts.
#![tactic(auto)]

pub mod array;

ghost use Rattle.std.specs.Prelude.{◌≡◌, ◌+◌, ◌<◌};
ghost use Rattle.run_counts.specs.Counted.{round_counted, leaf_added, inner_counted, updates_set};

// How much a run has done so far, with the inner regions of one height.
#[derive(Clone, Copy)]
pub struct Counts {
    pub rounds: u64,
    pub leaves: u64,
    pub inner: u64,
    pub updates: u64,
}

impl Counts {
    // One round more.
    pub fn add_round(&mut self)
        requires { self.old.rounds + 1 < 18446744073709551616 }
        ensures { self.new ≡ round_counted self.old }
    {
        self.rounds += 1;
    }

    // One leaf more.
    pub fn add_leaf(&mut self)
        requires { self.old.leaves + 1 < 18446744073709551616 }
        ensures { self.new ≡ leaf_added self.old }
    {
        self.leaves += 1;
    }

    // One inner region more.
    pub fn add_inner(&mut self)
        requires { self.old.inner + 1 < 18446744073709551616 }
        ensures { self.new ≡ inner_counted self.old }
    {
        self.inner += 1;
    }

    // As many updates as an update counted on to.
    pub fn set_updates(&mut self, updates: u64)
        ensures { self.new ≡ updates_set self.old updates }
    {
        self.updates = updates;
    }
}

#![tactic(auto, unfolding(numbers::specs::Field::when, numbers::specs::Field::field))]
// Runs of equal values, merged to the fewest rows. The open run goes in by value with the next value and comes back.
ghost use Rattle.std.specs.Prelude.{◌≡◌};
ghost use Rattle.merging.specs.Merging.{fresh, closed_by, step_of, finish_of, open_of};

// The run that is not closed yet: so many of one value. One that counts 0 has no value yet.
#[derive(Clone, Copy)]
pub struct Open {
    pub count: u32,
    pub value: u32,
}

// What a value does to the open run: it makes it longer, or it closes it and opens another.
#[derive(Clone, Copy)]
pub enum Step {
    Longer(Open),
    Closed { run: Open, open: Open },
}

// The most that a row counts: its field has 32 bits.
pub const MOST: u32 = 0xFFFF_FFFF;

// The run is closed, and the value opens the next.
fn closed(run: Open, value: u32) -> Step
    ensures { result ≡ closed_by run value }
{
    Step::Closed {
        run,
        open: Open { count: 1, value },
    }
}

impl Open {
    // The run before the first value.
    pub fn fresh() -> Open
        ensures { result ≡ fresh }
    {
        Open { count: 0, value: 0 }
    }

    // The run, and one more value.
    pub fn next(self, value: u32) -> Step
        ensures { result ≡ step_of self value }
    {
        let count = self.count;
        let own = self.value;
        if count == 0 {
            return Step::Longer(Open { count: 1, value });
        }
        if value != own {
            return closed(self, value);
        }
        if MOST <= count {
            return closed(self, value);
        }
        Step::Longer(Open {
            count: count + 1,
            value,
        })
    }

    // The run after the last value: closed, where it counts any.
    pub fn finish(self) -> Step
        ensures { result ≡ finish_of self }
    {
        let counted = self.count;
        if counted == 0 {
            return Step::Longer(Open::fresh());
        }
        Step::Closed {
            run: self,
            open: Open::fresh(),
        }
    }
}

impl Step {
    // The run that is open after it.
    pub fn after(self) -> Open
        ensures { result ≡ open_of self }
    {
        match self {
            Step::Longer(run) => run,
            Step::Closed { run: _, open: run } => run,
        }
    }
}

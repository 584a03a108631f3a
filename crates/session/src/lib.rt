// One session per base station: its rules and how it lies in memory stand in specs/, the theorems over its runs in proofs/.
// `steps` takes the steps; here is only what a step answers.
#![tactic(auto)]

ghost use Rattle.std.specs.Prelude.{◌≡◌, ◌≤◌};
ghost use Rattle.session.specs.Happened.{happened_number};

// What happened in a step, as the host is told: the header has the same names and numbers.
#[derive(Clone, Copy, Debug, PartialEq, Eq)]
pub enum Happened {
    Begun = 1,
    Resumed = 2,
    Opened = 3,
    Started = 4,
    Completed = 5,
    Answered = 6,
    Issued = 7,
    Stored = 8,
    Nothing = 9,
}

impl Happened {
    // The header's number.
    pub fn number(self) -> u8
        ensures is { result ≡ happened_number self }
        ensures few { result ≤ 9 }
    {
        self as u8
    }
}

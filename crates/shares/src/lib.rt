// How many of a number of things agree: counted one by one, and printed as `agree of all`.
#![tactic(auto)]

ghost use Rattle.std.specs.Prelude.{Some};
ghost use Rattle.shares.specs.Shares.{text_of, CountPromise};

use std::fmt;

// How many there are, and how many of them agree.
#[derive(Clone, Copy, Debug, PartialEq, Eq)]
pub struct Share {
    pub agree: u64,
    pub all: u64,
}

impl Share {
    pub const NONE: Share = Share { agree: 0, all: 0 };

    // One more. Both numbers are counted modulo 2^64, to which no run comes.
    pub fn count(&mut self, agrees: bool)
        ensures { CountPromise self.old agrees self.new }
    {
        self.all = self.all.wrapping_add(1);
        self.agree = self.agree.wrapping_add(u64::from(agrees));
    }
}

impl fmt::Display for Share {
    ghost output = { λ s. Some (text_of s) };

    fn fmt<W: fmt::Write>(&self, f: &mut fmt::Formatter<W>) -> fmt::Result {
        let agree = self.agree;
        let all = self.all;
        write!(f, "{agree} of {all}")
    }
}

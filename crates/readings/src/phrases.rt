// What came of a step, in the phrases of documents 01 and 02. Every word of it is read off the result and the bench afterwards; what a row
// does not speak of is told only where it is not as it must be.
use crate::found::Held;
use crate::rows::{Row, Tell};
use memory::Address;
use std::fmt;
use steps::{Answer, StepResult};

// What a step answered and left: X0, how far PC went, whether the row's targets are as they were, and whether the other registers and X1 to
// SP are.
#[derive(Clone, Copy)]
pub struct Seen {
    pub result: StepResult,
    pub x0: u64,
    pub pc: u64,
    pub targets_kept: bool,
    pub rest_kept: bool,
}

// What came of a row.
#[derive(Clone, Copy)]
pub struct Came<'a> {
    pub row: Row,
    pub seen: Seen,
    pub held: Held<'a>,
}

// A place in memory, counted from X0.
#[derive(Clone, Copy)]
struct FromX0 {
    x0: u64,
    place: Option<Address>,
}

impl fmt::Display for FromX0 {
    fn fmt<W: fmt::Write>(&self, f: &mut fmt::Formatter<W>) -> fmt::Result {
        let Some(place) = self.place else {
            return write!(f, "no place");
        };
        let on = place.0.wrapping_sub(self.x0);
        let back = self.x0.wrapping_sub(place.0);
        if on == 0 {
            write!(f, "X0")
        } else if on < 0x8000_0000_0000_0000 {
            write!(f, "X0 + {on}")
        } else {
            write!(f, "X0 - {back}")
        }
    }
}

// Whether the lanes behind those told of are zero.
fn rest(zero: bool) -> &'static str {
    if zero { "rest zero" } else { "rest not zero" }
}

impl Came<'_> {
    // A place, counted from the row's X0.
    fn from_x0(self, place: Option<Address>) -> FromX0 {
        FromX0 {
            x0: self.row.x0,
            place,
        }
    }

    // A refusal: its number, what it carries where that is not all zero, and that the bench changed where it did.
    fn refused<W: fmt::Write>(self, f: &mut fmt::Formatter<W>) -> fmt::Result {
        let seen = self.seen;
        let answer = seen.result.answer;
        let number = answer.number();
        let lane = answer.element();
        let address = answer.address().0;
        let count = seen.result.count;
        write!(f, "answer {number}")?;
        if count != 0 || lane != 0 || address != 0 {
            write!(f, ", lane {lane}, address {address}, count {count}")?;
        }
        if seen.targets_kept && seen.rest_kept && seen.x0 == self.row.x0 && seen.pc == 0 {
            return Ok(());
        }
        write!(f, ", bench changed")
    }

    // Behind what a load that ran put into its targets: X0 where it changed, PC where it did not grow by 4, and any other change.
    fn ended<W: fmt::Write>(self, f: &mut fmt::Formatter<W>) -> fmt::Result {
        let Seen { x0, pc, .. } = self.seen;
        if x0 != self.row.x0 {
            write!(f, "; X0 = {x0}")?;
        }
        if pc != 4 {
            write!(f, "; PC + {pc}")?;
        }
        if self.seen.rest_kept {
            return Ok(());
        }
        write!(f, "; more changed")
    }

    // Where lane 0 is from.
    fn first<W: fmt::Write>(self, f: &mut fmt::Formatter<W>) -> fmt::Result {
        let place = self.from_x0(self.held.source(0));
        write!(f, "lane 0 at {place}")
    }

    // Four lanes, of which two and two are alike.
    fn pairs<W: fmt::Write>(self, f: &mut fmt::Formatter<W>) -> fmt::Result {
        let held = self.held;
        if held.lane(0, 64, 2) == held.lane(0, 64, 0) {
            let place = self.from_x0(held.source(0));
            write!(f, "lanes 0 and 2 at {place}")?;
        } else {
            write!(f, "lanes 0 and 2 differ")?;
        }
        let zero = held.lane(0, 64, 1) == Some(0) && held.lane(0, 64, 3) == Some(0);
        let others = if zero { "zero" } else { "not zero" };
        let count = self.seen.result.count;
        write!(f, ", 1 and 3 {others}; count {count}")
    }

    // The count, and lane 0 beside lanes that are zero.
    fn only<W: fmt::Write>(self, f: &mut fmt::Formatter<W>) -> fmt::Result {
        let count = self.seen.result.count;
        let place = self.from_x0(self.held.source(0));
        let rest = rest(self.held.zero_from(0, 64, 1));
        write!(f, "ran, count {count}; lane 0 at {place}, {rest}")
    }

    // How often the first 16 bytes stand in Z0, and where they are from. Lane 1 is told of where it is not from behind lane 0.
    fn blocks<W: fmt::Write>(self, f: &mut fmt::Formatter<W>) -> fmt::Result {
        let copies = self.held.repeated(0, 64, 2) / 2;
        let low = self.held.source(0);
        let high = self.held.source(1);
        let place = self.from_x0(low);
        write!(f, "{copies} copies of the 16 bytes at {place}")?;
        if low.map(|a| a.plus(8)) == high {
            return Ok(());
        }
        let place = self.from_x0(high);
        write!(f, " and {place}")
    }

    // How often Z0's first byte stands in it, and whether that is X0's byte of RAM.
    fn bytes<W: fmt::Write>(self, f: &mut fmt::Formatter<W>) -> fmt::Result {
        let filled = self.held.repeated(0, 8, 1);
        let from = self.held.is_ram_byte(0, Address(self.row.x0));
        let of = if from { "" } else { " of another byte" };
        let rest = rest(self.held.zero_from(0, 8, filled));
        write!(f, "{filled} copies{of}, {rest}")
    }

    // How often the first byte of register r stands in it, and whether that is RAM's byte so far on from X0.
    fn register<W: fmt::Write>(self, f: &mut fmt::Formatter<W>, r: u32) -> fmt::Result {
        let filled = self.held.repeated(r, 8, 1);
        let a = Address(self.row.x0).plus(u64::from(r));
        let place = self.from_x0(self.held.is_ram_byte(r, a).then_some(a));
        write!(f, "Z{r} {filled} at {place}")
    }

    // Z0 and Z1, each filled with a byte of its own up to a place, and the count.
    fn both<W: fmt::Write>(self, f: &mut fmt::Formatter<W>) -> fmt::Result {
        let held = self.held;
        self.register(f, 0)?;
        write!(f, ", ")?;
        self.register(f, 1)?;
        let low = held.zero_from(0, 8, held.repeated(0, 8, 1));
        let high = held.zero_from(1, 8, held.repeated(1, 8, 1));
        let rest = rest(low && high);
        let count = self.seen.result.count;
        write!(f, ", {rest}; count {count}")
    }
}

impl fmt::Display for Came<'_> {
    fn fmt<W: fmt::Write>(&self, f: &mut fmt::Formatter<W>) -> fmt::Result {
        let answer = self.seen.result.answer;
        if self.row.limit && !matches!(answer, Answer::SetUp) {
            write!(f, "taken: ")?;
        }
        if !matches!(answer, Answer::Ran) {
            return self.refused(f);
        }
        match self.row.tell {
            Tell::Pairs => self.pairs(f)?,
            Tell::First => self.first(f)?,
            Tell::Only => self.only(f)?,
            Tell::Blocks => self.blocks(f)?,
            Tell::Bytes => self.bytes(f)?,
            Tell::Both => self.both(f)?,
        }
        self.ended(f)
    }
}

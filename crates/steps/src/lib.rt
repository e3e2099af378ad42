// What a step is told in: the settings, what a load is about to do, and how a step ends.
#![tactic(auto)]

ghost use Rattle.std.specs.Prelude.{◌≡◌};
ghost use Rattle.steps.specs.Benches.{AllowedPromise};
ghost use Rattle.steps.specs.Answers.{fault_number, earned_by, AnswerNumberPromise, AnswerElementPromise, AnswerAddressPromise};

use ground::Size;
use memory::{Address, Fault, Map};
use words::NotALoad;

// The vector length in bits, and the switches.
#[derive(Clone, Copy)]
pub struct Settings {
    pub vl: u64,
    pub simd: bool,
    pub sve: bool,
    pub f64mm: bool,
}

// Whether a vector length is allowed.
pub fn allowed(vl: u64) -> bool
    ensures { AllowedPromise vl result }
{
    vl % 128 == 0 && (128..=2048).contains(&vl)
}

// How a step ended. A fault carries why, the first bad byte's address and its element's number.
#[derive(Clone, Copy, Debug, PartialEq, Eq)]
pub enum Answer {
    Ran,
    SetUp,
    Outside,
    Undefined,
    SwitchedOff,
    Stack,
    Faulted(Fault, Address, u64),
}

// A step's result: the count of element reads beside the answer.
#[derive(Clone, Copy, Debug, PartialEq, Eq)]
pub struct StepResult {
    pub count: u64,
    pub answer: Answer,
}

// The scope of work's number for a fault.
fn fault_number(fault: Fault) -> u64
    ensures { result ≡ fault_number fault }
{
    match fault {
        Fault::Nowhere => 6,
        Fault::Denied => 7,
    }
}

// What a word earns that is no load.
impl From<NotALoad> for Answer {
    ghost from_gives = { λ why answer. answer ≡ earned_by why };

    fn from(why: NotALoad) -> Answer {
        match why {
            NotALoad::Outside => Answer::Outside,
            NotALoad::Undefined => Answer::Undefined,
        }
    }
}

impl Answer {
    // The scope of work's number for the answer.
    pub fn number(self) -> u64
        ensures { AnswerNumberPromise self result }
    {
        match self {
            Answer::Ran => 0,
            Answer::SetUp => 1,
            Answer::Outside => 2,
            Answer::Undefined => 3,
            Answer::SwitchedOff => 4,
            Answer::Stack => 5,
            Answer::Faulted(fault, _, _) => fault_number(fault),
        }
    }

    // The element that a fault names, and the scope of work's 0 where there is none.
    pub fn element(self) -> u64
        ensures { AnswerElementPromise self result }
    {
        match self {
            Answer::Faulted(_, _, e) => e,
            _ => 0,
        }
    }

    // The address that a fault names, and 0 where there is none: the fault's other field, with a promise of its own.
    pub fn address(self) -> Address
        ensures { AnswerAddressPromise self result }
    {
        match self {
            Answer::Faulted(_, a, _) => a,
            _ => Address(0),
        }
    }
}

// What decides whether a lane takes its element, and whether an element is read.
// Always, as for LD1R to LD4R: every lane of destination j takes element j, and each element is read.
// LaneBit, as for LD1R by element: a lane takes the one element where its own bit is 1, and the element is read where some lane is active.
// ElementBit, as for the others: lane l takes element l mod `elements` where the bit of the lane with that number is 1, and only then is it read.
#[derive(Clone, Copy)]
pub enum Rule {
    Always,
    LaneBit,
    ElementBit,
}

// What a load is about to do, with no memory in sight. Element e is read at start + e × size. The destinations are registers from `target` on, 31
// followed by 0: one for each element where the rule is `Always`, and else one. In each, each of the first `filled` lanes takes its element where
// the rule says so, and every other lane becomes zero. The stack rule checks SP where one of the first `consulted` lanes is
// active; where the rule is `Always`, it checks in any case. `back` is what is added to the base, where it is written back. It is flat as its
// definition is, whose laws speak of each field by itself; so size, lane and sign stand in it, and not the instruction's `Dtype`.
#[derive(Clone, Copy)]
pub struct Plan {
    pub start: Address,
    pub size: Size,
    pub lane: Size,
    pub signed: bool,
    pub elements: u64,
    pub filled: u64,
    pub rule: Rule,
    pub consulted: u64,
    pub governing: Option<u32>,
    pub base: u32,
    pub target: u32,
    pub back: Option<u64>,
}

// What a caller lends and no step ever changes: the settings, the predicate file, where the areas start, flash, and the rights of both areas.
// RAM is not here: a step of another kind may write it.
#[derive(Clone, Copy)]
pub struct Lent<'a> {
    pub settings: Settings,
    pub predicates: &'a [u8],
    pub map: Map,
    pub flash: &'a [u8],
    pub flash_rights: &'a [u8],
    pub ram_rights: &'a [u8],
}

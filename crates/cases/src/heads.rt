// The head of a case, in the byte format of docs/CASES.md: what it says, and what is wrong with it.
ghost use Rattle.std.specs.Prelude.{if◌then◌else◌, ◌≡◌, ◌<◌, ◌≤◌, Ok, Err, IfOk, IfErr};
ghost use Rattle.cases.specs.Parts.{kind_in, carried, head_bytes, case_bytes};
ghost use Rattle.cases.specs.Heads.{strange_flag, strange_kind, numbers_of, question_of, head_of, limited, marked_of, HeadPromise};
ghost use Rattle.cases.specs.Inside.{Bounds, question_here};
ghost use Rattle.cases.specs.declared.heads.Refusal.TheVariants.{Kind, Long};

use crate::LONGEST_CASE;
use ground::number;
use memory::{Address, Map};
use steps::Settings;

// How many bytes the head of a step has, and the longer head of any other question.
pub const HEAD: usize = 96;

pub const LONGER_HEAD: usize = 136;

// KKJ1, lowest byte first.
const MAGIC: u64 = 0x314A_4B4B;

// What a window is asked: the numbers a0 to a3 that a case carries behind its lengths, and how long the blob behind its parts is.
#[derive(Clone, Copy)]
pub struct Numbers {
    pub a0: u64,
    pub a1: u64,
    pub a2: u64,
    pub a3: u64,
    pub blob: usize,
}

// What a case asks: one step, where an address lies, or what a lane holds.
#[derive(Clone, Copy)]
pub enum Question {
    Step,
    Address(Numbers),
    Lane(Numbers),
}

// What the head of a case says: the word and the settings, where the areas start, how long each part is, and what is asked.
#[derive(Clone, Copy)]
pub struct Case {
    pub word: u32,
    pub settings: Settings,
    pub map: Map,
    pub vectors: usize,
    pub predicates: usize,
    pub scalars: usize,
    pub flash: usize,
    pub flash_rights: usize,
    pub ram: usize,
    pub ram_rights: usize,
    pub question: Question,
}

// The parts behind the head, in their order.
#[derive(Clone, Copy, Debug, PartialEq, Eq)]
pub enum Part {
    Vectors,
    Predicates,
    Scalars,
    Flash,
    FlashRights,
    Ram,
    RamRights,
    Blob,
}

// Why a case is not answered. `Room` is the caller's own: too few bytes lent for the outcome.
#[derive(Clone, Copy, Debug, PartialEq, Eq)]
pub enum Refusal {
    Ends,
    Magic,
    Flags,
    Kind,
    Level,
    Long(Part),
    Room,
}

// A case that bytes open with, and how many of them it has, its head among them.
#[derive(Clone, Copy)]
pub struct Opened {
    pub case: Case,
    pub whole: usize,
}

impl Question {
    // How many bytes the head of a case has that asks it.
    #[tactic(auto, unfolding(crate::specs::Parts::head_bytes))]
    pub(crate) fn head_bytes(self) -> usize
        ensures exactly { result ≡ head_bytes (kind_in self) }
        ensures most { result ≤ 136 }
    {
        match self {
            Question::Step => HEAD,
            Question::Address(_) | Question::Lane(_) => LONGER_HEAD,
        }
    }

    // .. and the blob behind its parts.
    #[inline(always)]
    fn blob(self) -> usize
        ensures { result ≡ (carried self).blob }
    {
        match self {
            Question::Step => 0,
            Question::Address(n) | Question::Lane(n) => n.blob,
        }
    }
}

impl Case {
    // How many bytes the case has: its head and every part.
    #[inline(always)]
    fn whole(self) -> usize
        requires { Bounds self }
        ensures exactly { result ≡ case_bytes self }
        ensures most { result ≤ LONGEST_CASE }
    {
        let files = self.question.head_bytes() + self.vectors + self.predicates + 8 * self.scalars;
        let areas = self.flash + self.flash_rights + self.ram + self.ram_rights;
        files + areas + self.question.blob()
    }
}

// Whether a flag bit is set that means nothing.
#[tactic(auto, unfolding(crate::specs::Heads::strange_flag))]
fn strange_flag(flags: u64) -> bool
    ensures { result ≡ strange_flag flags }
{
    7 < flags % 256 || 65535 < flags
}

// The numbers behind the lengths.
#[inline(always)]
#[tactic(auto, unfolding(crate::specs::Heads::numbers_of))]
fn read_numbers(s: &[u8]) -> Numbers
    ensures { result ≡ numbers_of s.now }
{
    Numbers {
        a0: number(s, 96, 8),
        a1: number(s, 104, 8),
        a2: number(s, 112, 8),
        a3: number(s, 120, 8),
        blob: number(s, 128, 8) as usize,
    }
}

// What is asked, if its kind means something here. A step has no numbers: what lies behind its lengths are its parts.
#[inline(always)]
#[tactic(auto, unfolding(crate::specs::Heads::strange_kind, crate::specs::Heads::question_of))]
fn read_question(s: &[u8]) -> Result<Question, Refusal>
    ensures { result ≡ question_here s.now }
{
    match number(s, 8, 4) / 256 % 256 {
        0 => Ok(Question::Step),
        2 => Ok(Question::Address(read_numbers(s))),
        3 => Ok(Question::Lane(read_numbers(s))),
        _ => Err(Refusal::Kind),
    }
}

// What a head says, field by field.
#[inline(always)]
#[tactic(auto, using(crate::proofs::Flags::flags_masked), unfolding(crate::specs::Heads::head_of))]
fn read_head(s: &[u8], question: Question) -> Case
    requires { question ≡ question_of s.now }
    ensures { result ≡ head_of s.now }
{
    let flags = number(s, 8, 4);
    Case {
        word: number(s, 4, 4) as u32,
        settings: Settings {
            vl: number(s, 16, 8),
            simd: flags & 1 != 0,
            sve: flags & 2 != 0,
            f64mm: flags & 4 != 0,
        },
        map: Map {
            flash: Address(number(s, 24, 8)),
            ram: Address(number(s, 32, 8)),
        },
        vectors: number(s, 40, 8) as usize,
        predicates: number(s, 48, 8) as usize,
        scalars: number(s, 56, 8) as usize,
        flash: number(s, 64, 8) as usize,
        flash_rights: number(s, 72, 8) as usize,
        ram: number(s, 80, 8) as usize,
        ram_rights: number(s, 88, 8) as usize,
        question,
    }
}

// Refuses a part that is over its limit.
#[inline(always)]
fn short(length: usize, limit: usize, part: Part) -> Result<(), Refusal>
    ensures over { IfErr result (λ why. (why ≡ Long part) × (limit < length)) }
    ensures within { IfOk result (λ _. length ≤ limit) }
{
    if limit < length {
        return Err(Refusal::Long(part));
    }
    Ok(())
}

// The case, if no part of it is too long.
#[inline(always)]
#[tactic(auto, using(crate::proofs::Limits::all_short), unfolding(crate::specs::Heads::limited))]
fn within_limits(case: Case) -> Result<Opened, Refusal>
    ensures { result ≡ limited case }
{
    short(case.vectors, 65536, Part::Vectors)?;
    short(case.predicates, 4096, Part::Predicates)?;
    short(case.scalars, 128, Part::Scalars)?;
    short(case.flash, 131072, Part::Flash)?;
    short(case.flash_rights, 64, Part::FlashRights)?;
    short(case.ram, 131072, Part::Ram)?;
    short(case.ram_rights, 64, Part::RamRights)?;
    short(case.question.blob(), 65536, Part::Blob)?;
    Ok(Opened {
        case,
        whole: case.whole(),
    })
}

// How many bytes the head of a case of this kind has, if the kind means something here.
#[inline(always)]
#[tactic(auto, unfolding(crate::specs::Heads::strange_kind, crate::specs::Parts::head_bytes))]
fn head_of_kind(kind: u64) -> Result<usize, Refusal>
    ensures { result ≡ (if strange_kind kind then Err Kind else Ok (head_bytes kind)) }
{
    match kind {
        0 => Ok(HEAD),
        2 | 3 => Ok(LONGER_HEAD),
        _ => Err(Refusal::Kind),
    }
}

// What 96 bytes or more open with that begin with the magic. The numbers of a longer head are read once it is there, which the compiler then knows, as
// all that is called here is inlined: else a case goes from place to place, and a head takes half as long again.
#[inline(always)]
#[tactic(auto, using(crate::proofs::Opens::read_asked), unfolding(crate::specs::Heads::marked_of))]
fn marked(s: &[u8]) -> Result<Opened, Refusal>
    ensures { result ≡ marked_of s.now }
{
    let flags = number(s, 8, 4);
    if strange_flag(flags) {
        return Err(Refusal::Flags);
    }
    let head_bytes = head_of_kind(flags / 256 % 256)?;
    if 4 < number(s, 12, 4) {
        return Err(Refusal::Level);
    }
    if s.len() < head_bytes {
        return Err(Refusal::Ends);
    }
    let question = read_question(s)?;
    within_limits(read_head(s, question))
}

// What bytes open with: a case whose layout is here, or the first thing that is wrong.
#[tactic(auto, unfolding(crate::specs::Heads::opened_of))]
pub fn head(s: &[u8]) -> Result<Opened, Refusal>
    ensures { HeadPromise s.now result }
{
    if s.len() < 4 {
        return Err(Refusal::Ends);
    }
    if number(s, 0, 4) != MAGIC {
        return Err(Refusal::Magic);
    }
    if s.len() < HEAD {
        return Err(Refusal::Ends);
    }
    marked(s)
}

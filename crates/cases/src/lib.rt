// The byte format of docs/CASES.md: the bytes of a case to the bytes of its outcome, by one step of the bench or by one of its windows.
#![tactic(auto)]

mod heads;
mod outcomes;
mod parts;
mod windows;

ghost use Rattle.std.specs.Prelude.{◌≤◌, ◌≡◌, length};
ghost use Rattle.cases.specs.Parts.{case_bytes};
ghost use Rattle.cases.specs.Outcomes.{outcome_length};
ghost use Rattle.cases.specs.Inside.{Bounds};
ghost use Rattle.cases.specs.Answers.{outcome_in, AnswerPromise};

pub use heads::{Case, HEAD, LONGER_HEAD, Numbers, Opened, Part, Question, Refusal, head};
use outcomes::put_window;
use parts::{Parts, asked_step};
use windows::{asked_address, asked_lane};

// How many bytes the longest case and the longest outcome have: `longest_case` of proofs/Limits.antt holds both.
pub const LONGEST_CASE: usize = 398600;

pub const LONGEST_OUTCOME: usize = 66585;

// How a case was answered: so many bytes taken, and so many of its outcome written.
#[derive(Clone, Copy)]
pub struct Answered {
    pub taken: usize,
    pub given: usize,
}

// How many bytes the outcome of a case has.
fn outcome_bytes(case: Case) -> usize
    requires { Bounds case }
    ensures exactly { result ≡ outcome_length case }
    ensures most { result ≤ LONGEST_OUTCOME }
{
    match case.question {
        Question::Step => 25 + case.vectors + 8 * case.scalars,
        Question::Address(_) | Question::Lane(_) => 33,
    }
}

// Answers a case of which every byte is there: its outcome over the first bytes of what is lent for it.
#[tactic(auto, using(crate::proofs::Lends::vectors_lent, crate::proofs::Lends::areas_lent), unfolding(crate::specs::Answers::outcome_in))]
fn put_answer(out: &mut [u8], s: &[u8], case: Case)
    requires { Bounds case × (outcome_length case ≤ length out.old) × (case_bytes case ≤ length s.now) }
    ensures { out.new ≡ outcome_in s.now case out.old }
{
    let parts = Parts::of(case, s);
    match case.question {
        Question::Step => asked_step(out, case.word, parts),
        Question::Address(n) => put_window(out, asked_address(parts, n)),
        Question::Lane(n) => put_window(out, asked_lane(case.settings.vl, parts.vectors, n)),
    }
}

// Answers the case that bytes open with: its outcome is written over the first bytes of `out`, or nothing is.
#[tactic(auto, using(crate::proofs::Limits::opened_whole), unfolding(crate::specs::Answers::after_case, crate::specs::Answers::on_case))]
pub fn answer(s: &[u8], out: &mut [u8]) -> Result<Answered, Refusal>
    ensures { AnswerPromise s.now out.old result out.new }
{
    let Opened { case, whole } = head(s)?;
    let given = outcome_bytes(case);
    if s.len() < whole {
        return Err(Refusal::Ends);
    }
    if out.len() < given {
        return Err(Refusal::Room);
    }
    put_answer(out, s, case);
    Ok(Answered {
        taken: whole,
        given,
    })
}

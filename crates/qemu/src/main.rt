// Steps that other machines made and that were recorded: replayed here, and each outcome held to the recorded one. Standard input
// is a file that has a case and its recorded outcome (docs/CASES.md), one such pair after the other.
#![tactic(auto)]

ghost use Rattle.std.specs.Prelude.{◌≤◌, length, IfOk};

mod tally;

use cases::{LONGEST_CASE, LONGEST_OUTCOME, Refusal};
use std::io::{Print, Read};
use tally::Tally;

// What a line on standard error begins with.
const STEP: &[u8] = b"qemu: step ";

// The longest case with its outcome.
const LONGEST_STEP: usize = LONGEST_CASE + LONGEST_OUTCOME;

// Why the replay ends before a step. replay has a `Stop` too, for other ends; what both tell of a refusal is `telling`'s.
#[derive(Clone, Copy)]
enum Stop {
    End,
    Refused(Refusal),
    CutShort,
    Unread,
}

impl From<Refusal> for Stop {
    fn from(why: Refusal) -> Stop {
        Stop::Refused(why)
    }
}

// A step that was replayed: how many bytes it has with its recorded outcome, that outcome's answer, and whether the outcome here is the same.
#[derive(Clone, Copy)]
pub(crate) struct Step {
    bytes: usize,
    answer: u8,
    same: bool,
}

// Replays the step that bytes open with, and compares.
fn replayed(stream: &[u8], out: &mut [u8]) -> Result<Step, Stop>
    ensures { IfOk result (λ step. step.bytes ≤ length stream.now) }
{
    let answered = cases::answer(stream, out)?;
    let behind = stream.get(answered.taken..).ok_or(Stop::CutShort)?;
    let recorded = behind.get(..answered.given).ok_or(Stop::CutShort)?;
    let answer = *recorded.first().ok_or(Stop::CutShort)?;
    Ok(Step {
        bytes: answered.taken + answered.given,
        answer,
        same: out.get(..answered.given) == Some(recorded),
    })
}

// Reads until the room is full or the input ends, and answers how many bytes came. In place, by `read`: `read_to_end` into a Vec fills with zeros
// what it is about to read, and can run out of memory. The three programs that read have this loop each, beside their own `Stop`.
fn read_into(input: &mut impl Read, room: &mut [u8]) -> Result<usize, Stop>
    ensures { IfOk result (λ n. n ≤ length room.new) }
{
    let mut came = 0;
    // each turn brings a byte or is the last, so that these turns are enough
    for _ in 0..room.len() {
        match input.read(&mut room[came..]) {
            Ok(0) => return Ok(came),
            Ok(n) => came += n,
            Err(_) => return Err(Stop::Unread),
        }
        if came == room.len() {
            return Ok(came);
        }
    }
    Ok(came)
}

// Reads on behind the bytes that are read already, up to as many as a step can have, replays the step that they open with, and moves what lies behind
// it to the front. Answers how many bytes are read behind it, too.
fn next_step(
    input: &mut impl Read,
    stream: &mut [u8; LONGEST_STEP],
    read: usize,
    out: &mut [u8],
) -> Result<(Step, usize), Stop>
    requires { read ≤ length stream.old }
    ensures { IfOk result (λ next. next.1 ≤ length stream.new) }
{
    let read = read + read_into(input, &mut stream[read..])?;
    if read == 0 {
        return Err(Stop::End);
    }
    let step = replayed(&stream[..read], out)?;
    stream.copy_within(step.bytes..read, 0);
    Ok((step, read - step.bytes))
}

// Says why the replay ends: at the end of the file by the table, and else on standard error. How it ends is this program's own, as its `Stop` is;
// what it writes is `telling`'s, which has no output, and lies in a `Text`, which is bytes and a length.
fn tell(output: &impl Print, errors: &impl Print, tally: &Tally, number: u64, stop: Stop) {
    let line = match stop {
        Stop::End => {
            let _ = tally.write(output);
            return;
        }
        Stop::Refused(why) => telling::refused(STEP, number, why),
        Stop::CutShort => telling::line(STEP, number, b"the recorded outcome is cut short"),
        Stop::Unread => telling::line(STEP, number, b"standard input is no file that can be read"),
    };
    if let Some(bytes) = line.bytes.get(..line.n) {
        let _ = errors.write_all(bytes);
    }
}

fn main(rt: HostRuntime) {
    let mut stream = [0u8; LONGEST_STEP];
    let mut read = 0;
    let mut out = [0u8; LONGEST_OUTCOME];
    let mut tally = Tally::new();
    // a proved loop has to end, and nothing says that the input does: so it counts up to a number that no run comes to
    for number in 0..u64::MAX {
        match next_step(&mut rt.stdin(), &mut stream, read, &mut out) {
            Ok((step, behind)) => {
                tally.count(&rt, number, step);
                read = behind;
            }
            Err(stop) => {
                tell(&rt, &rt.stderr(), &tally, number, stop);
                return;
            }
        }
    }
}

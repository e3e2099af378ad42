// Cases in, outcomes out, in the format of docs/CASES.md: all that matters is `cases::answer`; here it is only read and written.
#![tactic(auto)]

ghost use Rattle.std.specs.Prelude.{◌≤◌, length, IfOk};

use cases::{HEAD, LONGER_HEAD, LONGEST_CASE, LONGEST_OUTCOME, Refusal};
use std::io::{Print, Read};

// What a line on standard error begins with.
const CASE: &[u8] = b"replay: case ";

// Why the run ends before a case. qemu has a `Stop` too, for other ends; what both tell of a refusal is `telling`'s.
#[derive(Clone, Copy)]
enum Stop {
    End,
    Refused(Refusal),
    Unread,
    Unwritten,
}

impl From<Refusal> for Stop {
    fn from(why: Refusal) -> Stop {
        Stop::Refused(why)
    }
}

// Reads until the room is full or the input ends, and answers how many bytes came. In place, by `read`: `read_to_end` into a Vec fills with zeros
// what it is about to read, and can run out of memory. The three programs that read have this loop each, beside their own `Stop`.
fn read_into(input: &mut impl Read, room: &mut [u8]) -> Result<usize, Stop>
    ensures { IfOk result (λ n. n ≤ length room.new) }
{
    let mut came = 0;
    // each turn brings a byte or is the last, so that these turns are enough
    for _ in 0..room.len() {
        match input.read(&mut room[came..]) {
            Ok(0) => return Ok(came),
            Ok(n) => came += n,
            Err(_) => return Err(Stop::Unread),
        }
        if came == room.len() {
            return Ok(came);
        }
    }
    Ok(came)
}

// Reads a case into the front of the buffer, which has room for every case: first its head, which says how long it is, and then the rest. Answers
// how many bytes came.
fn read_case(input: &mut impl Read, case: &mut [u8; LONGEST_CASE]) -> Result<usize, Stop>
    ensures { IfOk result (λ n. n ≤ LONGEST_CASE) }
{
    let mut came = read_into(input, &mut case[..HEAD])?;
    if came == 0 {
        return Err(Stop::End);
    }
    let whole = match cases::head(&case[..came]) {
        // of the bytes of a head, that they end too early is said exactly where it is longer
        Err(Refusal::Ends) if came == HEAD => {
            came += read_into(input, &mut case[HEAD..LONGER_HEAD])?;
            cases::head(&case[..came])?.whole
        }
        opened => opened?.whole,
    };
    if let Some(rest) = case.get_mut(came..whole) {
        came += read_into(input, rest)?;
    }
    Ok(came)
}

// Answers a case, and writes its outcome.
fn answered(output: &impl Print, case: &[u8], out: &mut [u8]) -> Result<(), Stop> {
    let answered = cases::answer(case, out)?;
    let outcome = out.get(..answered.given).ok_or(Stop::Unwritten)?;
    output.write_all(outcome).map_err(|_| Stop::Unwritten)
}

// Reads a case and answers it.
fn one_case(
    input: &mut impl Read,
    output: &impl Print,
    case: &mut [u8; LONGEST_CASE],
    out: &mut [u8],
) -> Result<(), Stop> {
    let came = read_case(input, case)?;
    answered(output, &case[..came], out)
}

// Says in one line why the run ends, but for where all cases are answered. How it ends is this program's own, as its `Stop` is; what it writes is
// `telling`'s, which has no output, and lies in a `Text`, which is bytes and a length.
fn tell(errors: &impl Print, number: u64, stop: Stop) {
    let line = match stop {
        Stop::End => return,
        Stop::Refused(why) => telling::refused(CASE, number, why),
        Stop::Unread => telling::line(CASE, number, b"standard input cannot be read"),
        Stop::Unwritten => telling::line(CASE, number, b"standard output cannot be written"),
    };
    if let Some(bytes) = line.bytes.get(..line.n) {
        let _ = errors.write_all(bytes);
    }
}

fn main(rt: HostRuntime) {
    let mut case = [0u8; LONGEST_CASE];
    let mut out = [0u8; LONGEST_OUTCOME];
    // a proved loop has to end, and nothing says that the input does: so it counts up to a number that no run comes to
    for number in 0..u64::MAX {
        if let Err(stop) = one_case(&mut rt.stdin(), &rt, &mut case, &mut out) {
            tell(&rt.stderr(), number, stop);
            return;
        }
    }
}

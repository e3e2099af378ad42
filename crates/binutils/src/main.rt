// Reads words with what binutils 2.40 prints for each, decodes each word, and counts where the two agree: where the word is a load, its
// text, made from the decoded fields, is binutils' text; where it is none of ours, binutils' text is none of them either.
#![tactic(auto)]

ghost use Rattle.std.specs.Prelude.{◌≤◌, length, IfOk};

mod lines;
mod printed;
mod table;

use memchr::memchr;
use printed::Load;
use std::fmt::Write;
use std::io::{Eprint, Print, Read};
use std::{fmt, io};
use table::{Row, Table};
use texts::Text;
use words::{Insn, NotALoad, Offset, Shape};

// How many bytes a line may have, with its end.
const LONGEST_LINE: usize = 128;

// Why the run ends before a line.
#[derive(Clone, Copy)]
enum Stop {
    End,
    Unread,
    NoEnd,
    Odd,
}

// Which of two rows: that of an immediate offset, or that of a scalar one.
fn either(offset: Offset, immediate: Row, scalar: Row) -> Row {
    match offset {
        Offset::Imm(_) => immediate,
        Offset::Reg(_) => scalar,
    }
}

// The row of LD1R to LD4R. A number of registers that is none of these has a text that agrees with no line, so it does not matter in which
// row it is counted.
fn replicated(registers: u32, back: Option<u32>) -> Row {
    match (registers, back) {
        (1, None) => Row::Ld1r,
        (1, Some(_)) => Row::Ld1rPost,
        (2, None) => Row::Ld2r,
        (2, Some(_)) => Row::Ld2rPost,
        (3, None) => Row::Ld3r,
        (3, Some(_)) => Row::Ld3rPost,
        (_, None) => Row::Ld4r,
        (_, Some(_)) => Row::Ld4rPost,
    }
}

// The row of a load: its family.
fn family(insn: Insn) -> Row {
    match insn.shape {
        Shape::Replicate { q: _, back } => replicated(insn.registers, back),
        Shape::ByElement { imm6: _ } => Row::ByElement,
        Shape::Contiguous { offset } => either(offset, Row::Immediate, Row::Scalar),
        Shape::Block { wide: true, offset } => either(offset, Row::WideImmediate, Row::WideScalar),
        Shape::Block { wide: _, offset } => either(offset, Row::BlockImmediate, Row::BlockScalar),
    }
}

// The row of a word.
fn row(decoded: Result<Insn, NotALoad>) -> Row {
    match decoded {
        Ok(insn) => family(insn),
        Err(NotALoad::Outside) => Row::Outside,
        Err(NotALoad::Undefined) => Row::Undefined,
    }
}

// The text of a load. A write to a Text never fails.
fn text_of(insn: Insn) -> Text {
    let mut text = Text::of(b"");
    let _ = write!(text, "{}", Load(insn));
    text
}

// What a word is, as a text.
fn as_text(decoded: Result<Insn, NotALoad>) -> Text {
    match decoded {
        Ok(insn) => text_of(insn),
        Err(NotALoad::Outside) => Text::of(b"outside"),
        Err(NotALoad::Undefined) => Text::of(b"undefined"),
    }
}

// Whether what a word is agrees with binutils' text. The text of a load must also pass `listed`, so that the loads test the test
// that the other words rest on.
fn agrees(decoded: Result<Insn, NotALoad>, text: &[u8]) -> bool {
    let listed = printed::listed(text);
    match decoded {
        Ok(insn) => listed && text_of(insn).same(text),
        Err(_) => !listed,
    }
}

// Writes a disagreement: the line, which has the word and binutils' text, and what the word is to us.
fn disagreement(rt: &impl Print, number: u64, line: &[u8], ours: Text) -> io::Result<()> {
    print!(rt; "line {number}: ")?;
    rt.write_all(line)?;
    print!(rt; " | ours: ")?;
    rt.write_all(ours.bytes.get(..ours.n).unwrap_or(&ours.bytes))?;
    println!(rt)
}

// Compares the word of a line with its text.
fn compare(rt: &impl Print, number: u64, line: &[u8], table: &mut Table) -> Result<(), Stop> {
    let read = lines::read(line).ok_or(Stop::Odd)?;
    let decoded = words::read(read.word);
    let same = agrees(decoded, read.text);
    if !same {
        let _ = disagreement(rt, number, line, as_text(decoded));
    }
    table.count(row(decoded), same);
    Ok(())
}

// Reads until the room is full or the input ends, and answers how many bytes came. In place, by `read`: `read_to_end` into a Vec fills with zeros
// what it is about to read, and can run out of memory. The three programs that read have this loop each, beside their own `Stop`.
fn read_into(input: &mut impl Read, room: &mut [u8]) -> Result<usize, Stop>
    ensures { IfOk result (λ n. n ≤ length room.new) }
{
    let mut came = 0;
    // each turn brings a byte or is the last, so that these turns are enough
    for _ in 0..room.len() {
        match input.read(&mut room[came..]) {
            Ok(0) => return Ok(came),
            Ok(n) => came += n,
            Err(_) => return Err(Stop::Unread),
        }
        if came == room.len() {
            return Ok(came);
        }
    }
    Ok(came)
}

// Reads on behind the bytes that are read already, up to as many as a line may have, compares the line that they open with, and moves what lies behind
// it to the front. Answers how many bytes are read behind it.
fn one_line(
    input: &mut impl Read,
    output: &impl Print,
    number: u64,
    window: &mut [u8; LONGEST_LINE],
    read: usize,
    table: &mut Table,
) -> Result<usize, Stop>
    requires { read ≤ length window.old }
    ensures { IfOk result (λ behind. behind ≤ length window.new) }
{
    let read = read + read_into(input, &mut window[read..])?;
    if read == 0 {
        return Err(Stop::End);
    }
    let end = memchr(b'\n', &window[..read]).ok_or(Stop::NoEnd)?;
    compare(output, number, &window[..end], table)?;
    window.copy_within(end + 1..read, 0);
    Ok(read - (end + 1))
}

// Says why the run ends: where all lines are compared by the table, and else on standard error.
fn tell(rt: &(impl Print + Eprint), table: &Table, number: u64, stop: Stop) {
    let why = match stop {
        Stop::End => {
            let _ = table.write(rt);
            return;
        }
        Stop::Unread => "cannot be read: standard input must be a file",
        Stop::NoEnd => "has no end within 128 bytes",
        Stop::Odd => "is not eight hexadecimal digits, a space and a text",
    };
    let _ = eprintln!(rt; "binutils: line {number} {why}");
}

fn main(rt: HostRuntime) {
    let mut window = [0u8; LONGEST_LINE];
    let mut read = 0;
    let mut table = Table::new();
    // a proved loop has to end, and nothing says that the input does: so it counts up to a number that no run comes to
    for number in 1..u64::MAX {
        match one_line(&mut rt.stdin(), &rt, number, &mut window, read, &mut table) {
            Ok(behind) => read = behind,
            Err(stop) => {
                tell(&rt, &table, number, stop);
                return;
            }
        }
    }
}

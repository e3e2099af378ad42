// How binutils prints the listed loads. The text of a load is made from its fields alone: its word is not in sight here.
ghost use Rattle.std.specs.Prelude.{◌<◌};

use ground::Size;
use memchr::memmem;
use std::fmt;
use std::fmt::Formatter;
use words::{Insn, Offset, Shape};

// A size by its logarithm k: 2^k bytes. A table, as `Size::bytes` is.
fn log(size: Size) -> u32
    ensures { result < 32 }
{
    match size {
        Size::B8 => 0,
        Size::B16 => 1,
        Size::B32 => 2,
        Size::B64 => 3,
    }
}

// The letter of a size. That of four bytes depends on what has the size.
fn letter(size: Size, four: char) -> char {
    match size {
        Size::B8 => 'b',
        Size::B16 => 'h',
        Size::B32 => four,
        Size::B64 => 'd',
    }
}

// A load, as binutils prints it.
#[derive(Clone, Copy)]
pub(crate) struct Load(pub(crate) Insn);

// The base register of a load.
#[derive(Clone, Copy)]
struct Base(u32);

impl fmt::Display for Base {
    fn fmt<W: fmt::Write>(&self, f: &mut Formatter<W>) -> fmt::Result {
        match self.0 {
            31 => write!(f, "sp"),
            n => write!(f, "x{n}"),
        }
    }
}

// A signed field of four bits, times the unit. Zero is not printed, nor what stands behind it. It is not the field as plans has it: this text is
// made apart from all but the decoder.
fn signed<W: fmt::Write>(f: &mut Formatter<W>, imm4: u32, unit: u8, behind: &str) -> fmt::Result {
    let field = i64::from(imm4 % 16);
    let n = if field < 8 { field } else { field - 16 };
    if n == 0 {
        return write!(f, "]");
    }
    let offset = n * i64::from(unit);
    write!(f, ", #{offset}{behind}")
}

impl Load {
    // What every load has behind its last target: the predicate where one governs it, and its base.
    fn based<W: fmt::Write>(self, f: &mut Formatter<W>) -> fmt::Result {
        write!(f, "}}")?;
        if let Some(pg) = self.0.governing {
            write!(f, ", p{pg}/z")?;
        }
        write!(f, ", [{}", Base(self.0.base))
    }

    // An SVE load of this name, up to its base.
    fn sve<W: fmt::Write>(self, f: &mut Formatter<W>, name: &str) -> fmt::Result {
        let Insn {
            element,
            target,
            ..
        } = self.0;
        let sign = if element.signed { "s" } else { "" };
        let memory = letter(element.memory, 'w');
        let lane = letter(element.lane, 's');
        write!(f, "{name}{sign}{memory} {{z{target}.{lane}")?;
        self.based(f)
    }

    // A v register. q chooses 16 bytes of lanes, or 8. How many lanes is told by the element's size in memory, and their letter by the lane's: so the
    // line tests both.
    fn vector<W: fmt::Write>(self, f: &mut Formatter<W>, register: u32, q: bool) -> fmt::Result {
        let element = self.0.element;
        let width = if q { 16u32 } else { 8 };
        let lanes = width >> log(element.memory);
        let lane = letter(element.lane, 's');
        write!(f, "v{register}.{lanes}{lane}")
    }

    // The v registers of a load. binutils prints three and more as the first and the last, but for a list that passes from 31 to 0: there, as where
    // there are two, each is printed.
    fn vectors<W: fmt::Write>(self, f: &mut Formatter<W>, q: bool) -> fmt::Result {
        let Insn {
            target,
            registers,
            ..
        } = self.0;
        let last = target.wrapping_add(registers).wrapping_sub(1);
        self.vector(f, target, q)?;
        if registers > 2 && last < 32 {
            write!(f, "-")?;
            return self.vector(f, last, q);
        }
        for i in 1..registers {
            write!(f, ", ")?;
            self.vector(f, target.wrapping_add(i) % 32, q)?;
        }
        Ok(())
    }

    // LD1R to LD4R. What they add to their base afterwards is a register, and 31 stands for the bytes that are read.
    fn replicated<W: fmt::Write>(
        self,
        f: &mut Formatter<W>,
        q: bool,
        back: Option<u32>,
    ) -> fmt::Result {
        let registers = self.0.registers;
        write!(f, "ld{registers}r {{")?;
        self.vectors(f, q)?;
        self.based(f)?;
        write!(f, "]")?;
        match back {
            None => Ok(()),
            Some(31) => {
                let bytes = registers << log(self.0.element.memory);
                write!(f, ", #{bytes}")
            }
            Some(rm) => write!(f, ", x{rm}"),
        }
    }

    // The offset of a load: a scalar counts elements, and an immediate is printed times the unit.
    fn placed<W: fmt::Write>(
        self,
        f: &mut Formatter<W>,
        offset: Offset,
        unit: u8,
        behind: &str,
    ) -> fmt::Result {
        let k = log(self.0.element.memory);
        match offset {
            Offset::Imm(imm4) => signed(f, imm4, unit, behind),
            Offset::Reg(rm) if k == 0 => write!(f, ", x{rm}]"),
            Offset::Reg(rm) => write!(f, ", x{rm}, lsl #{k}]"),
        }
    }
}

impl fmt::Display for Load {
    fn fmt<W: fmt::Write>(&self, f: &mut Formatter<W>) -> fmt::Result {
        match self.0.shape {
            Shape::Replicate { q, back } => self.replicated(f, q, back),
            // the field counts elements, and bytes are printed
            Shape::ByElement { imm6 } => {
                self.sve(f, "ld1r")?;
                if imm6 == 0 {
                    return write!(f, "]");
                }
                let bytes = imm6 << log(self.0.element.memory);
                write!(f, ", #{bytes}]")
            }
            // the immediate counts whole vectors, and is printed so
            Shape::Contiguous { offset } => {
                self.sve(f, "ld1")?;
                self.placed(f, offset, 1, ", mul vl]")
            }
            // the immediate counts blocks of 32 bytes, or of 16, and bytes are printed
            Shape::Block { wide, offset } => {
                let (name, unit) = if wide { ("ld1ro", 32) } else { ("ld1rq", 16) };
                self.sve(f, name)?;
                self.placed(f, offset, unit, "]")
            }
        }
    }
}

// Whether these bytes stand anywhere in others.
fn has(s: &[u8], these: &[u8]) -> bool {
    memmem::find(s, these).is_some()
}

// Whether a text that binutils prints is a listed load: LDnR of v registers, whatever n is; or one of these mnemonics, of one z register,
// with no vector in the brackets. Gathers and loads of a tile of ZA share mnemonics with LD1.
pub(crate) fn listed(text: &[u8]) -> bool {
    // joined, and no arrays of names: several of them in this order are listed too, though binutils never prints that
    let one =
        b"ld1b ld1h ld1w ld1d ld1sb ld1sh ld1sw ld1rb ld1rh ld1rw ld1rd ld1rsb ld1rsh ld1rsw ";
    let many = b"ld1rqb ld1rqh ld1rqw ld1rqd ld1rob ld1roh ld1row ld1rod ";
    if text.starts_with(b"ld") && text.get(3..).is_some_and(|rest| rest.starts_with(b"r {v")) {
        return true;
    }
    let Some(end) = memmem::find(text, b" {z") else {
        return false;
    };
    let name = &text[..end + 1];
    let vector = has(text, b"[z") || has(text, b", z") || has(text, b"{za");
    name.starts_with(b"ld1") && (has(one, name) || has(many, name)) && !vector
}

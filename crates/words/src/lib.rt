// Which word is which load: the family table of the scope of work.
#![tactic(auto)]

ghost use Rattle.std.specs.Prelude.{◌≡◌, ◌+◌, ◌≤◌, ◌<◌, true, false, Ok};
ghost use Rattle.words.specs.Dtypes.{plain_of, DtypePromise};
ghost use Rattle.words.specs.Families.{replicate_of, sve_of, by_element_of, contiguous_of, block_of, scalar_of, read_of, ReadPromise};
ghost use Rattle.ground.specs.Pieces.{bits};

use ground::Size;

// What an SVE load adds to its base: a field of four bits, signed, that counts blocks; or a scalar register.
#[derive(Clone, Copy, Debug, PartialEq, Eq)]
pub enum Offset {
    Imm(u32),
    Reg(u32),
}

// A row of the dtype table: an element's size in memory, its lane's, and whether its sign is extended.
#[derive(Clone, Copy, Debug, PartialEq, Eq)]
pub struct Dtype {
    pub memory: Size,
    pub lane: Size,
    pub signed: bool,
}

// What an instruction of one shape has beside what all have. Replicate is LD1R to LD4R, of all 128 bits where q, and back is Rm where it is
// post-index by Rm; Contiguous is LD1; Block is LD1RQ, and LD1RO where it is wide.
#[derive(Clone, Copy, Debug, PartialEq, Eq)]
pub enum Shape {
    Replicate { q: bool, back: Option<u32> },
    ByElement { imm6: u32 },
    Contiguous { offset: Offset },
    Block { wide: bool, offset: Offset },
}

// An instruction: what every load has, and its shape. It loads so many registers, from the target on; 31 is followed by 0. Governing is its
// predicate register: LD1R to LD4R have none.
#[derive(Clone, Copy, Debug, PartialEq, Eq)]
pub struct Insn {
    pub element: Dtype,
    pub base: u32,
    pub target: u32,
    pub registers: u32,
    pub governing: Option<u32>,
    pub shape: Shape,
}

// Why a word is no load: it fits no row, or fits one and is undefined. Undefined is what the word alone tells; F64MM and the vector length are the
// bench's.
#[derive(Clone, Copy, Debug, PartialEq, Eq)]
pub enum NotALoad {
    Outside,
    Undefined,
}

impl Dtype {
    // The row that a field of four bits names, by the table's own rule: the upper two bits name the memory size and the lower two the lane
    // size; where the upper ones are more, the sizes are 3 - upper and 3 - lower, and the sign is extended. A field over 15 is read as 15.
    #[tactic(auto, using(crate::proofs::DtypeRule::dtype_rule, crate::proofs::DtypeRule::dtype_past))]
    pub fn of(field: u32) -> Dtype
        ensures { DtypePromise field result }
    {
        let high = field / 4;
        let low = field % 4;
        if 3 < high {
            return Dtype::plain(Size::B64);
        }
        if high <= low {
            return Dtype {
                memory: Size::of(high),
                lane: Size::of(low),
                signed: false,
            };
        }
        Dtype {
            memory: Size::of(3 - high),
            lane: Size::of(3 - low),
            signed: true,
        }
    }

    // An element of one size, in memory as in its lane.
    fn plain(size: Size) -> Dtype
        ensures { result ≡ plain_of size }
    {
        Dtype {
            memory: size,
            lane: size,
            signed: false,
        }
    }
}

// Bits hi to lo of a word, as Arm writes word<hi:lo>: 31 bits at most.
fn bits(word: u32, hi: u32, lo: u32) -> u32
    requires { (lo ≤ hi) × (hi < lo + 31) × (lo < 32) }
    ensures { result ≡ bits word hi lo }
{
    (word >> lo) % (1 << (hi - lo + 1))
}

// LD1R to LD4R: L=0 or S=1 is undefined. No predicate governs them. The last bit of the opcode, then R, count the registers.
fn replicate(word: u32, back: Option<u32>) -> Result<Insn, NotALoad>
    ensures { result ≡ replicate_of back word }
{
    if bits(word, 22, 22) == 0 || bits(word, 12, 12) == 1 {
        return Err(NotALoad::Undefined);
    }
    Ok(Insn {
        element: Dtype::plain(Size::of(bits(word, 11, 10))),
        base: bits(word, 9, 5),
        target: bits(word, 4, 0),
        registers: bits(word, 13, 13) * 2 + bits(word, 21, 21) + 1,
        governing: None,
        shape: Shape::Replicate {
            q: bits(word, 30, 30) == 1,
            back,
        },
    })
}

// What every SVE word has: the registers, and a governing predicate.
fn sve(word: u32, element: Dtype, shape: Shape) -> Insn
    ensures { result ≡ sve_of word element shape }
{
    Insn {
        element,
        base: bits(word, 9, 5),
        target: bits(word, 4, 0),
        registers: 1,
        governing: Some(bits(word, 12, 10)),
        shape,
    }
}

fn by_element(word: u32) -> Insn
    ensures { result ≡ by_element_of word }
{
    let element = Dtype::of(bits(word, 24, 23) * 4 + bits(word, 14, 13));
    sve(
        word,
        element,
        Shape::ByElement {
            imm6: bits(word, 21, 16),
        },
    )
}

fn contiguous(word: u32, offset: Offset) -> Insn
    ensures { result ≡ contiguous_of offset word }
{
    sve(
        word,
        Dtype::of(bits(word, 24, 21)),
        Shape::Contiguous { offset },
    )
}

fn block(wide: bool, word: u32, offset: Offset) -> Insn
    ensures { result ≡ block_of wide offset word }
{
    let element = Dtype::plain(Size::of(bits(word, 24, 23)));
    sve(word, element, Shape::Block { wide, offset })
}

// An SVE scalar form of a load: Rm = 31 is undefined.
#[tactic(auto, unfolding(crate::specs::Families::scalar_of))]
fn scalar(word: u32, load: Insn) -> Result<Insn, NotALoad>
    ensures { result ≡ scalar_of word load }
{
    if bits(word, 20, 16) == 31 {
        return Err(NotALoad::Undefined);
    }
    Ok(load)
}

// The rows of LD1R to LD4R: bit 31 is 0 in these, and 1 in every other.
#[tactic(auto, unfolding(crate::specs::Families::read_of, crate::specs::Families::families))]
fn replicate_rows(word: u32) -> Result<Insn, NotALoad>
    requires { bits word 31 31 ≡ 0 }
    ensures { result ≡ read_of word }
{
    match bits(word, 29, 23) {
        0b0011010 if bits(word, 20, 14) == 0b0000011 => replicate(word, None),
        0b0011011 if bits(word, 15, 14) == 0b11 => replicate(word, Some(bits(word, 20, 16))),
        _ => Err(NotALoad::Outside),
    }
}

// The family table, row by row.
#[tactic(auto, unfolding(crate::specs::Families::read_of, crate::specs::Families::families))]
pub fn read(word: u32) -> Result<Insn, NotALoad>
    ensures { ReadPromise word result }
{
    if bits(word, 31, 31) == 0 {
        return replicate_rows(word);
    }
    let imm = Offset::Imm(bits(word, 19, 16));
    let reg = Offset::Reg(bits(word, 20, 16));
    match (bits(word, 31, 25), bits(word, 15, 13)) {
        (0b1000010, _) if bits(word, 22, 22) == 0b1 && bits(word, 15, 15) == 0b1 => {
            Ok(by_element(word))
        }
        (0b1010010, 0b101) if bits(word, 20, 20) == 0b0 => Ok(contiguous(word, imm)),
        (0b1010010, 0b010) => scalar(word, contiguous(word, reg)),
        (0b1010010, 0b001) if bits(word, 22, 20) == 0b000 => Ok(block(false, word, imm)),
        (0b1010010, 0b000) if bits(word, 22, 21) == 0b00 => scalar(word, block(false, word, reg)),
        (0b1010010, 0b001) if bits(word, 22, 20) == 0b010 => Ok(block(true, word, imm)),
        (0b1010010, 0b000) if bits(word, 22, 21) == 0b01 => scalar(word, block(true, word, reg)),
        _ => Err(NotALoad::Outside),
    }
}

// Lanes that are filled from a stretch of memory, chunk by chunk. A chunk is eight bytes of a register; one byte of the predicate says which of
// its lanes are filled; LD1R to LD4R, which have no predicate, fill every lane of a chunk with one element. The quick road fetches bytes of memory in
// `element` alone, which `Widening::lane` calls, for a lane that is on, and `spread`: no byte of an inactive lane is fetched.
ghost use Rattle.std.specs.Prelude.{if◌then◌else◌, ◌≡◌, ◌+◌, ◌*◌, ◌/◌, ◌%◌, ◌^◌, ◌<◌, ◌≤◌, false, [], ◌∷◌, length};
ghost use Rattle.ground.specs.Lists.{bytes_at};
ghost use Rattle.memory.specs.Addresses.{wrap};
ghost use Rattle.steps.specs.Outcomes.{extended};
ghost use Rattle.bench.specs.Inside.Quick.{ElementsIn, LanesOut, ChunksIn, ChunksOut, Spread};
ghost use Rattle.ground.proofs.Fills.{Filled};
ghost use Rattle.ground.specs.Sizes.{bytes_of};

use crate::{actives, fills};
use ground::Size::{self, B8, B16, B32, B64};

// The number of an element at a place.
fn element(stretch: &[u8], at: usize, size: Size) -> u64
    requires { at + bytes_of size ≤ length stretch.now }
    ensures value { result ≡ bytes_at stretch.now at (bytes_of size) }
    ensures few { result < 256 ^ bytes_of size }
{
    let n = size.bytes() as usize;
    ground::number(&stretch[at..at + n], 0, n)
}

// How lanes take their elements from a stretch: the size of an element and of a lane, whether the sign goes along, and how far apart the
// elements of neighbouring lanes lie. What is inlined below has the sizes and the sign as constants: without the sizes all loads mixed take
// twice the instructions, and without the sign up to 3 % more.
#[derive(Clone, Copy)]
pub(crate) struct Widening {
    pub(crate) size: Size,
    pub(crate) width: Size,
    pub(crate) signed: bool,
    pub(crate) stride: usize,
}

impl Widening {
    // What a lane becomes: where it is on, the element at a place, extended; and else zero, with no byte looked at.
    fn lane(self, on: bool, stretch: &[u8], at: usize) -> u64
        requires { at + bytes_of self.size ≤ length stretch.now }
        ensures { result ≡ (if on
            then wrap (extended self.signed (bytes_of self.size) 8 (bytes_at stretch.now at (bytes_of self.size)))
            else 0) }
    {
        if on {
            let v = element(stretch, at, self.size);
            return fills::extend(self.signed, self.size, B64, v);
        }
        0
    }

    // Fills a chunk: lane l takes the element at from + l × stride, if its bit of the byte is 1, and else is zero. Answers how many lanes are
    // on. Where no bit of the byte is 1, the chunk is zero at once.
    #[inline(always)]
    fn chunk(self, dst: &mut [u8], stretch: &[u8], from: usize, byte: u8) -> u64
        requires room { length dst.old ≡ 8 }
        requires inside { ElementsIn stretch.now from self.stride (bytes_of self.size) (8 / bytes_of self.width) }
        ensures { LanesOut stretch.now from (byte ∷ []) self.stride self.signed (bytes_of self.size) (bytes_of self.width)
            8 dst.new result (8 / bytes_of self.width) }
    {
        if byte == 0 {
            fills::zeros(dst, 0);
            return 0;
        }
        let bits = [byte];
        let width = self.width.bytes() as usize;
        let mut lanes_on = 0;
        for l in 0..8 / width {
            let at = l * width;
            let on = actives::bit_is_set(&bits, at as u64);
            let v = self.lane(on, stretch, from + l * self.stride);
            ground::put(&mut dst[at..at + width], v);
            lanes_on += u64::from(on);
        }
        lanes_on
    }

    // Fills as many chunks as there are bytes of bits, one after the other.
    #[inline(always)]
    fn chunks(self, dst: &mut [u8], stretch: &[u8], bits: &[u8]) -> u64
        requires { ChunksIn self stretch.now bits.now (length dst.old) }
        ensures { ChunksOut self stretch.now bits.now (length dst.old) dst.new result }
    {
        let lanes = 8 / self.width.bytes() as usize;
        let mut lanes_on = 0;
        for (c, byte) in bits.iter().enumerate() {
            let at = c * 8;
            let from = c * lanes * self.stride;
            lanes_on += self.chunk(&mut dst[at..at + 8], stretch, from, *byte);
        }
        lanes_on
    }

    // `ChunksIn` speaks of dst and stretch, which are lent, so it is asked here and in what follows, and is no fact of this type.
    // The same, with a call for each sign ..
    #[inline(always)]
    fn by_sign(self, dst: &mut [u8], stretch: &[u8], bits: &[u8]) -> u64
        requires { ChunksIn self stretch.now bits.now (length dst.old) }
        ensures { ChunksOut self stretch.now bits.now (length dst.old) dst.new result }
    {
        if self.signed {
            Widening {
                signed: true,
                ..self
            }
            .chunks(dst, stretch, bits)
        } else {
            Widening {
                signed: false,
                ..self
            }
            .chunks(dst, stretch, bits)
        }
    }

    // .. for each size of a lane ..
    #[inline(always)]
    fn by_width(self, dst: &mut [u8], stretch: &[u8], bits: &[u8]) -> u64
        requires { ChunksIn self stretch.now bits.now (length dst.old) }
        ensures { ChunksOut self stretch.now bits.now (length dst.old) dst.new result }
    {
        match self.width {
            B8 => Widening { width: B8, ..self }.by_sign(dst, stretch, bits),
            B16 => Widening { width: B16, ..self }.by_sign(dst, stretch, bits),
            B32 => Widening { width: B32, ..self }.by_sign(dst, stretch, bits),
            B64 => Widening { width: B64, ..self }.by_sign(dst, stretch, bits),
        }
    }

    // .. and for each size of an element, so that the compiler makes a loop for each row of sizes and sign.
    pub(crate) fn fill(self, dst: &mut [u8], stretch: &[u8], bits: &[u8]) -> u64
        requires { ChunksIn self stretch.now bits.now (length dst.old) }
        ensures { ChunksOut self stretch.now bits.now (length dst.old) dst.new result }
    {
        match self.size {
            B8 => Widening { size: B8, ..self }.by_width(dst, stretch, bits),
            B16 => Widening { size: B16, ..self }.by_width(dst, stretch, bits),
            B32 => Widening { size: B32, ..self }.by_width(dst, stretch, bits),
            B64 => Widening { size: B64, ..self }.by_width(dst, stretch, bits),
        }
    }
}

// A chunk of LD1R to LD4R as a number: the element at a place, over and over.
pub(crate) fn spread(stretch: &[u8], from: usize, size: Size) -> u64
    requires { from + bytes_of size ≤ length stretch.now }
    ensures { Spread (bytes_at stretch.now from (bytes_of size)) (bytes_of size) result }
{
    match size {
        B8 => element(stretch, from, B8) * 0x0101_0101_0101_0101,
        B16 => element(stretch, from, B16) * 0x0001_0001_0001_0001,
        B32 => element(stretch, from, B32) * 0x0000_0001_0000_0001,
        B64 => element(stretch, from, B64),
    }
}

// Puts a chunk into the first 64 bits, and where it is asked for twice into the next 64. In a loop LD1R would take 5 % more instructions.
pub(crate) fn repeat(dst: &mut [u8], chunk: u64, times: usize)
    requires { (1 ≤ times) × (times ≤ 2) × (times * 8 ≤ length dst.old) }
    ensures { Filled (λ i. chunk / 256 ^ (i % 8) % 256) 8 (length dst.old) dst.new times }
{
    ground::put(&mut dst[0..8], chunk);
    if times == 2 {
        ground::put(&mut dst[8..16], chunk);
    }
}

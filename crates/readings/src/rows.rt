// The rows of document 01's "Readings to reproduce" that carry no star, the sentence below them, and what document 02 says of its words: what is
// set up, and what the document says.
use crate::setups::ram_start;
use memory::PAGE_BYTES;

// What a row speaks of where the load ran.
#[derive(Clone, Copy, Debug, PartialEq, Eq)]
pub enum Tell {
    Pairs,
    First,
    Only,
    Blocks,
    Bytes,
    Both,
}

// A row: its set-up in words, what the document says, and what is set up: the word, the vector length, P0's first four bytes as a number, X0, how
// many bytes of each area are lent, and the rights of flash's page 1. Then whether the row asks if a set-up is accepted, and what it speaks of:
// two fields, as rows of either sort speak of `Only` and of `Blocks`.
#[derive(Clone, Copy)]
pub struct Row {
    pub setup: &'static str,
    pub says: &'static str,
    pub word: u32,
    pub vl: u32,
    pub p0: u32,
    pub x0: u64,
    pub flash: usize,
    pub ram: usize,
    pub page1: u8,
    pub limit: bool,
    pub tell: Tell,
}

impl Row {
    // How many bytes of the vector file the word may write, from Z0 on.
    pub(crate) fn targets(self) -> usize {
        let register = self.vl as usize / 8;
        match self.tell {
            Tell::Both => 2 * register,
            _ => register,
        }
    }
}

// Where the 01..08 of document 01's first row lie in flash: 504 bytes after the X0 that a row has unless it says otherwise.
pub(crate) const MARK: usize = 6648;

// The row of a word, set up as the head of the table says.
fn plain(word: u32, tell: Tell, setup: &'static str, says: &'static str) -> Row {
    Row {
        setup,
        says,
        word,
        vl: 256,
        p0: 0xffff_ffff,
        x0: 6144,
        flash: 8192,
        ram: PAGE_BYTES,
        page1: 0xff,
        limit: false,
        tell,
    }
}

// A word that is refused whatever is set up, with its answer.
fn refused(word: u32, says: &'static str) -> Row {
    plain(word, Tell::First, "VL 256", says)
}

// Only lane 0 is active: of the others' predicate groups every bit is set but the one that counts.
fn lane_0(setup: &'static str, says: &'static str) -> Row {
    Row {
        p0: 0xfefe_fe01,
        ..plain(0xA5E0_A000, Tell::Only, setup, says)
    }
}

// LD1R by element at its largest offset; the predicate has the two bits and no other.
fn by_element() -> Row {
    let says = "lanes 0 and 2 at X0 + 504, 1 and 3 zero; count 1";
    Row {
        p0: 0x0001_0001,
        ..plain(
            0x85FF_E000,
            Tell::Pairs,
            "01..08 at X0 + 504, P0 bits 0 and 16",
            says,
        )
    }
}

// LD1 immediate: the offset counts whole vectors.
fn immediate() -> Row {
    Row {
        vl: 128,
        ..plain(0xA5E7_A000, Tell::First, "VL 128", "lane 0 at X0 + 112")
    }
}

// LD1RQ fills the vector with its block.
fn block() -> Row {
    Row {
        vl: 512,
        ..plain(
            0xA580_2000,
            Tell::Blocks,
            "VL 512",
            "4 copies of the 16 bytes at X0",
        )
    }
}

// LD1R with Q = 0 from the last byte that there is, and the base goes on past it.
fn replicate() -> Row {
    Row {
        x0: u64::MAX,
        ..plain(
            0x0DDF_C000,
            Tell::Bytes,
            "X0 = 2^64 - 1, last page mapped",
            "8 copies, rest zero; X0 = 0",
        )
    }
}

// A forbidden page under inactive lanes does not fault.
fn denied() -> Row {
    Row {
        x0: 4084,
        page1: 0xfe,
        ..lane_0(
            "page 1 denied, X0 = 4084, only lane 0 active",
            "ran, count 1; lane 0 at X0, rest zero",
        )
    }
}

// The rows of the table, in its order.
pub(crate) fn table() -> [Row; 9] {
    [
        by_element(),
        immediate(),
        refused(0xA59F_0000, "answer 3"),
        block(),
        replicate(),
        refused(0xA5F0_A000, "answer 2"),
        refused(0xA5C0_2000, "answer 2"),
        refused(0x0000_0000, "answer 2"),
        denied(),
    ]
}

// Flash of n bytes, of which the last eight are read.
fn flash_of(n: usize, setup: &'static str, says: &'static str) -> Row {
    Row {
        limit: true,
        flash: n,
        x0: (n as u64).wrapping_sub(8),
        ..lane_0(setup, says)
    }
}

// RAM of n bytes, of which the last eight are read.
fn ram_of(n: usize, setup: &'static str, says: &'static str) -> Row {
    let end = ram_start(n).plus(n as u64);
    Row {
        limit: true,
        ram: n,
        x0: end.0.wrapping_sub(8),
        ..lane_0(setup, says)
    }
}

// A vector length, with files as long as it asks.
fn length_of(vl: u32, setup: &'static str, says: &'static str) -> Row {
    Row {
        limit: true,
        vl,
        ..plain(0xA580_2000, Tell::Blocks, setup, says)
    }
}

// The sentence below the table: the limits of an area and of the vector length.
pub(crate) fn limits() -> [Row; 7] {
    let area = "taken: ran, count 1; lane 0 at X0, rest zero";
    let vector = "taken: 16 copies of the 16 bytes at X0";
    let no = "answer 1";
    [
        flash_of(65536, "flash of 65536 bytes, X0 in its last 8", area),
        flash_of(65537, "flash of 65537 bytes, X0 in its last 8", no),
        ram_of(65536, "RAM of 65536 bytes, X0 in its last 8", area),
        ram_of(65537, "RAM of 65537 bytes, X0 in its last 8", no),
        length_of(2048, "VL 2048", vector),
        length_of(2176, "VL 2176", no),
        length_of(0, "VL 0", no),
    ]
}

// LD2R with Q = 1 from the last two bytes that there are: "4D60C000 was "outside" and now runs".
fn two() -> Row {
    Row {
        x0: u64::MAX - 1,
        ..plain(
            0x4D60_C000,
            Tell::Both,
            "X0 = 2^64 - 2, last page mapped",
            "Z0 16 at X0, Z1 16 at X0 + 1, rest zero; count 2",
        )
    }
}

// Request One of document 02: LD2R runs, and with L = 0 its word is undefined.
pub(crate) fn request_one() -> [Row; 2] {
    [two(), refused(0x4D20_C000, "answer 3")]
}

// The table that the program ends with: how many words of each family agree.
use shares::Share;
use std::io::{self, Print};

// How many rows there are, but for that of all words.
const ROWS: usize = 17;

// The rows of the table, in its order.
#[derive(Clone, Copy)]
pub(crate) enum Row {
    Ld1r,
    Ld1rPost,
    Ld2r,
    Ld2rPost,
    Ld3r,
    Ld3rPost,
    Ld4r,
    Ld4rPost,
    ByElement,
    Immediate,
    Scalar,
    BlockImmediate,
    BlockScalar,
    WideImmediate,
    WideScalar,
    Outside,
    Undefined,
}

impl Row {
    // In the table's order.
    const ALL: [Row; ROWS] = [
        Row::Ld1r,
        Row::Ld1rPost,
        Row::Ld2r,
        Row::Ld2rPost,
        Row::Ld3r,
        Row::Ld3rPost,
        Row::Ld4r,
        Row::Ld4rPost,
        Row::ByElement,
        Row::Immediate,
        Row::Scalar,
        Row::BlockImmediate,
        Row::BlockScalar,
        Row::WideImmediate,
        Row::WideScalar,
        Row::Outside,
        Row::Undefined,
    ];

    // What the row is called.
    fn name(self) -> &'static str {
        match self {
            Row::Ld1r => "LD1R no offset",
            Row::Ld1rPost => "LD1R post-index",
            Row::Ld2r => "LD2R no offset",
            Row::Ld2rPost => "LD2R post-index",
            Row::Ld3r => "LD3R no offset",
            Row::Ld3rPost => "LD3R post-index",
            Row::Ld4r => "LD4R no offset",
            Row::Ld4rPost => "LD4R post-index",
            Row::ByElement => "LD1R by element",
            Row::Immediate => "LD1 immediate",
            Row::Scalar => "LD1 scalar",
            Row::BlockImmediate => "LD1RQ immediate",
            Row::BlockScalar => "LD1RQ scalar",
            Row::WideImmediate => "LD1RO immediate",
            Row::WideScalar => "LD1RO scalar",
            Row::Outside => "outside",
            Row::Undefined => "undefined",
        }
    }
}

// The words of each row, and all words.
#[derive(Clone, Copy)]
pub(crate) struct Table {
    rows: [Share; ROWS],
    words: Share,
}

impl Table {
    pub(crate) fn new() -> Table {
        Table {
            rows: [Share::NONE; ROWS],
            words: Share::NONE,
        }
    }

    // One word more.
    pub(crate) fn count(&mut self, row: Row, agrees: bool) {
        self.rows[row as usize].count(agrees);
        self.words.count(agrees);
    }

    pub(crate) fn write(&self, rt: &impl Print) -> io::Result<()> {
        println!(rt; "family           agree")?;
        for row in Row::ALL {
            println!(rt; "{:<17}{}", row.name(), self.rows[row as usize])?;
        }
        let words = self.words;
        println!(rt; "\n{words} words agree with binutils 2.40")
    }
}

// Short texts, put together piece by piece.
#![tactic(auto)]

ghost use Rattle.std.specs.Prelude.{IsOk};
ghost use Rattle.texts.specs.Texts.{TextPromise, AndPromise, DecimalPromise, SamePromise};

use std::fmt;

// Up to 128 bytes, of which the first n are the text. Spaces stand behind it, so that a column is filled by writing more than the text has.
// It is no String, since a library here allocates nothing and these functions cannot fail.
#[derive(Clone, Copy)]
pub struct Text {
    pub bytes: [u8; 128],
    pub n: usize,
}

impl Text {
    // A text of these bytes.
    pub fn of(s: &[u8]) -> Text
        ensures { TextPromise s.now result }
    {
        let empty = Text {
            bytes: [b' '; 128],
            n: 0,
        };
        empty.and(s)
    }

    // The text with more behind it. What has no room is left out.
    #[tactic(auto, using(crate::proofs::Texts::full))]
    pub fn and(self, s: &[u8]) -> Text
        ensures { AndPromise self s.now result }
    {
        let Text { mut bytes, n } = self;
        if 128 <= n {
            return self;
        }
        let k = s.len().min(128 - n);
        bytes[n..n + k].copy_from_slice(&s[..k]);
        Text { bytes, n: n + k }
    }

    // The text with a number behind it, in decimal, by a function whose promise is the digits that it writes.
    #[tactic(auto, using(crate::proofs::Texts::decimal))]
    pub fn number(self, v: u64) -> Text
        ensures { DecimalPromise self v result }
    {
        let mut digits = [0; 20];
        let k = io::decimal(v, &mut digits);
        self.and(&digits[..k])
    }

    // Whether the text has these bytes and no other.
    pub fn same(self, s: &[u8]) -> bool
        ensures { SamePromise self s.now result }
    {
        let bytes = self.bytes;
        &bytes[..self.n.min(128)] == s
    }
}

// What is written to a text is put behind it: what has no room is left out, and no write fails.
impl fmt::Write for Text {
    ghost write_str_gives = { λ t bytes r. AndPromise t bytes r };

    fn write_str(&mut self, s: &str) -> fmt::Result
        ensures ok { IsOk result → AndPromise self.old s.now self.new }
        ensures never_fails { IsOk result }
    {
        *self = self.and(s.as_bytes());
        Ok(())
    }
}

// Why a run of a program over cases ends early, in one line: the program and what it counts, as `replay: case `, the number of the one that
// ends it, counted from 0, and why. The programs write it on standard error.
#![tactic(auto)]

ghost use Rattle.std.specs.Prelude.{◌≡◌, codes};
ghost use Rattle.telling.specs.Lines.{over_limit, reason_of, LinePromise, RefusedPromise};

use cases::{Part, Refusal};
use texts::Text;

// Such a line, its end included.
#[tactic(auto, using(crate::proofs::Lines::pieces))]
pub fn line(prefix: &[u8], number: u64, why: &[u8]) -> Text
    ensures { LinePromise prefix.now number why.now result }
{
    Text::of(prefix)
        .number(number)
        .and(b": ")
        .and(why)
        .and(b"\n")
}

// That a part is over its limit, in whole texts that a search for them finds. The limits are those of docs/CASES.md.
fn over_limit(part: Part) -> &'static str
    ensures { result.now ≡ codes (over_limit part) }
{
    match part {
        Part::Vectors => "z_len is over 65536",
        Part::Predicates => "p_len is over 4096",
        Part::Scalars => "x_count is over 128",
        Part::Flash => "flash_len is over 131072",
        Part::FlashRights => "flash_rights_len is over 64",
        Part::Ram => "ram_len is over 131072",
        Part::RamRights => "ram_rights_len is over 64",
        Part::Blob => "blob_len is over 65536",
    }
}

// Why a case is refused, in whole texts too.
fn reason(why: Refusal) -> &'static str
    ensures { result.now ≡ codes (reason_of why) }
{
    match why {
        Refusal::Ends => "the stream ends inside the case",
        Refusal::Magic => "it does not begin with the magic KKJ1",
        Refusal::Flags => "a flag bit is set that means nothing",
        Refusal::Kind => "its kind of question is not here; 0, 2 and 3 are",
        Refusal::Level => "the layout of its level is not here; that of 0 to 4 is",
        Refusal::Long(part) => over_limit(part),
        Refusal::Room => "its outcome is longer than the buffer",
    }
}

// The line of a case that is refused.
pub fn refused(prefix: &[u8], number: u64, why: Refusal) -> Text
    ensures { RefusedPromise prefix.now number why result }
{
    line(prefix, number, reason(why).as_bytes())
}

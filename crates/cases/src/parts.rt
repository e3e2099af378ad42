// The parts of a case, and one step of what they lend.
ghost use Rattle.std.specs.Prelude.{◌≡◌, ◌+◌, ◌*◌, ◌%◌, ◌≤◌, length};
ghost use Rattle.ground.specs.Lists.{listed, bytes_at};
ghost use Rattle.memory.specs.Areas.{areas_of};
ghost use Rattle.steps.specs.Benches.{lent_of};
ghost use Rattle.steps.specs.Step.{StepPromise};
ghost use Rattle.bench.specs.Lends.{bench_of};
ghost use Rattle.cases.specs.Parts.{case_bytes, lent_in, bench_in};
ghost use Rattle.cases.specs.Inside.{bench_by, areas_by, step_length, step_by};

use crate::heads::Case;
use crate::outcomes::{Told, put_numbers, put_report};
use ground::number;
use memory::{Area, Areas};
use steps::{Lent, StepResult};

// What a case lends, cut out of its bytes. The scalars are numbers of 8 bytes.
#[derive(Clone, Copy)]
pub struct Parts<'a> {
    pub vectors: &'a [u8],
    pub scalars: &'a [u8],
    pub ram: &'a [u8],
    pub lent: Lent<'a>,
}

impl<'a> Parts<'a> {
    // The parts of a case of which every byte is there, in their order.
    pub(crate) fn of(case: Case, s: &'a [u8]) -> Parts<'a>
        requires { case_bytes case ≤ length s.now }
        ensures lent { lent_of result.lent ≡ lent_in s.now case }
        ensures bench { bench_by result ≡ bench_in s.now case }
        ensures long { (length result.vectors.now ≡ case.vectors) × (length result.scalars.now ≡ 8 * case.scalars) }
    {
        let (_, rest) = s.split_at(case.question.head_bytes());
        let (vectors, rest) = rest.split_at(case.vectors);
        let (predicates, rest) = rest.split_at(case.predicates);
        let (scalars, rest) = rest.split_at(8 * case.scalars);
        let (flash, rest) = rest.split_at(case.flash);
        let (flash_rights, rest) = rest.split_at(case.flash_rights);
        let (ram, rest) = rest.split_at(case.ram);
        let (ram_rights, _) = rest.split_at(case.ram_rights);
        let lent = Lent {
            settings: case.settings,
            predicates,
            map: case.map,
            flash,
            flash_rights,
            ram_rights,
        };
        Parts {
            vectors,
            scalars,
            ram,
            lent,
        }
    }

    // The two areas, as bench makes them of what is lent to a step.
    pub(crate) fn areas(self) -> Areas<'a>
        ensures { areas_of result ≡ areas_by self.entry }
    {
        let Lent {
            map,
            flash,
            flash_rights,
            ram_rights,
            ..
        } = self.lent;
        Areas {
            flash: Area {
                start: map.flash,
                bytes: flash,
                rights: flash_rights,
            },
            ram: Area {
                start: map.ram,
                bytes: self.ram,
                rights: ram_rights,
            },
        }
    }
}

// Reads numbers of 8 bytes, each from its place: of what is written through a zip of `iter_mut` with `chunks_exact` the proof knows nothing.
fn numbers(x: &mut [u64], s: &[u8])
    requires { 8 * length x.old ≤ length s.now }
    ensures { x.new ≡ listed (λ i. bytes_at s.now (8 * i) 8) 0 (length x.old) }
{
    for (i, v) in x.iter_mut().enumerate() {
        *v = number(s, 8 * i, 8);
    }
}

// One step of what the parts lend. The vector file and the scalars are read into what is lent for them, apart as `bench::step` takes them, and left
// there.
fn stepped(z: &mut [u8], x: &mut [u64], word: u32, parts: Parts) -> StepResult
    requires { (length z.old ≡ length parts.vectors.now) × (8 * length x.old ≡ length parts.scalars.now) }
    ensures { let p = parts.entry in let l = lent_of p.lent in
        StepPromise l word (bench_by p) result l (bench_of z.new x.new p.ram.now) }
{
    z.copy_from_slice(parts.vectors);
    numbers(x, parts.scalars);
    bench::step(z, x, parts.ram, word, parts.lent)
}

// Writes the outcome of a step over the first bytes of what is lent for it. z is stepped where it lies in the outcome, so that
// the vector file is moved once; the scalars are stepped in x.
fn put_outcome(out: &mut [u8], x: &mut [u64], word: u32, parts: Parts)
    requires { (8 * length x.old ≡ length parts.scalars.now) × (step_length parts ≤ length out.old) }
    ensures { out.new ≡ step_by word parts.entry out.old }
{
    let end = 25 + parts.vectors.len();
    let last = end + 8 * x.len();
    let result = stepped(&mut out[25..end], x, word, parts);
    put_numbers(&mut out[end..last], x);
    put_report(out, Told::from(result));
}

// Kind 0: one step, as `put_outcome` makes it, with room for the scalars of any case: nothing is allocated, so that nothing can fail.
pub(crate) fn asked_step(out: &mut [u8], word: u32, parts: Parts)
    requires { (length parts.scalars.now ≤ 8 * 128) × (length parts.scalars.now % 8 ≡ 0) × (step_length parts ≤ length out.old) }
    ensures { out.new ≡ step_by word parts.entry out.old }
{
    let mut room = [0; 128];
    let n = parts.scalars.len() / 8;
    put_outcome(out, &mut room[..n], word, parts);
}

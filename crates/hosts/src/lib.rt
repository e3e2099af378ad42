// One step for a host in Rust or C, which owns the files and the areas: `bench::step` on numbers and slices, told in the scope of
// work's numbers.
#![tactic(auto)]

ghost use Rattle.std.specs.Prelude.{◌≡◌};
ghost use Rattle.steps.specs.Answers.{report_of};
ghost use Rattle.bench.specs.Lends.{lent_from, bench_of};
ghost use Rattle.hosts.specs.Hosts.{settings_of, map_of, report_in, HostPromise};

use memory::{Address, Map};
use steps::{Lent, Settings, StepResult};

// What a step tells a host: the answer's number, the count of element reads, and the element and address of a fault. This is C's layout, four numbers of
// 64 bits; `Told` of crates/cases has a byte for the answer, as the format has.
#[repr(C)]
#[derive(Clone, Copy, Debug, PartialEq, Eq)]
pub struct StepNumbers {
    pub number: u64,
    pub count: u64,
    pub element: u64,
    pub address: u64,
}

// A result in the scope of work's numbers.
impl From<StepResult> for StepNumbers {
    ghost from_gives = { λ res numbers. report_in numbers ≡ report_of res };

    fn from(res: StepResult) -> StepNumbers {
        let answer = res.answer;
        StepNumbers {
            number: answer.number(),
            count: res.count,
            element: answer.element(),
            address: answer.address().0,
        }
    }
}

// One step. What it may write is lent first, and RAM, to be read, beside that. The crate hosts_c exports it to C under this name, which
// is why it takes numbers and slices one by one, and no struct.
pub fn kjolvast_step<'a>(
    z: &mut [u8],
    x: &mut [u64],
    ram: &'a [u8],
    word: u32,
    vl: u64,
    simd: bool,
    sve: bool,
    f64mm: bool,
    p: &'a [u8],
    flash_start: u64,
    ram_start: u64,
    flash: &'a [u8],
    flash_rights: &'a [u8],
    ram_rights: &'a [u8],
) -> StepNumbers
    ensures { let l = lent_from (settings_of vl simd sve f64mm) p.now
        (map_of flash_start ram_start) flash.now flash_rights.now ram_rights.now in
        HostPromise l word (bench_of z.old x.old ram.now)
        result l (bench_of z.new x.new ram.now) }
{
    let lent = Lent {
        settings: Settings {
            vl,
            simd,
            sve,
            f64mm,
        },
        predicates: p,
        map: Map {
            flash: Address(flash_start),
            ram: Address(ram_start),
        },
        flash,
        flash_rights,
        ram_rights,
    };
    bench::step(z, x, ram, word, lent).into()
}

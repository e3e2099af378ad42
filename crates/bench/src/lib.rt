// One step of the bench: any word and any lent registers, predicates and memory, wrong sizes too, to one numbered answer.
#![tactic(auto)]

mod actives;
mod chunks;
mod fills;
mod quick;
mod reads;
mod roads;
mod stretches;

ghost use Rattle.std.specs.Prelude.{◌≡◌, ◌/◌, ◌^◌, length};
ghost use Rattle.ground.specs.Lists.{EachBelow};
ghost use Rattle.memory.specs.Areas.{areas_of, areas_from};
ghost use Rattle.steps.specs.Benches.{are_files_accepted, lent_of};
ghost use Rattle.steps.specs.Said.{Accepted};
ghost use Rattle.steps.specs.Inside.{PlanInRange};
ghost use Rattle.steps.specs.Step.{prepared_of, StepPromise};
ghost use Rattle.plans.specs.Inside.{Shaped};
ghost use Rattle.bench.specs.Lends.{bench_of};
ghost use Rattle.bench.specs.Inside.{stacked, AreBytes, EndsAs};

use actives::Lanes;
use memory::{Area, Areas, Map};
use reads::Load;
use steps::{Answer, Lent, Plan, StepResult};

// Whether the vector length is allowed, and the files are as long as it asks.
fn files_accepted(vl: u64, z: &[u8], predicates: &[u8], x: &[u64]) -> bool
    ensures accepted { result ≡ are_files_accepted vl (length z.now) (length predicates.now) (length x.now) }
    ensures in_types { (EachBelow 256 z.now) × (EachBelow 256 predicates.now) × EachBelow (2 ^ 64) x.now }
{
    steps::allowed(vl)
        && z.len() as u64 == 32 * (vl / 8)
        && predicates.len() as u64 == 16 * (vl / 64)
        && x.len() == 33
}

// The two areas, of bytes. `cases` and memory's window make them of what they have: a constructor for the three would be one more public
// function with a promise, for ten lines of names.
fn areas<'a>(
    map: Map,
    flash: &'a [u8],
    flash_rights: &'a [u8],
    ram: &'a [u8],
    ram_rights: &'a [u8],
) -> Areas<'a>
    ensures lent { areas_of result ≡ areas_from map flash.now flash_rights.now ram.now ram_rights.now }
    ensures in_types { AreBytes (areas_from map flash.now flash_rights.now ram.now ram_rights.now) }
{
    Areas {
        flash: Area {
            start: map.flash,
            bytes: flash,
            rights: flash_rights,
        },
        ram: Area {
            start: map.ram,
            bytes: ram,
            rights: ram_rights,
        },
    }
}

// Carries a plan out: the stack rule, then the load, and where that ran the base and PC. The governing predicate's part is taken here,
// once, and here what is known of the plan becomes a fact of a `Lanes`.
fn carry_out<'a>(
    z: &mut [u8],
    x: &mut [u64],
    ram: &'a [u8],
    lent: Lent<'a>,
    plan: Plan,
) -> StepResult
    requires accepted { Accepted (lent_of lent) (bench_of z.old x.old ram.now) }
    requires plan_in_range { (PlanInRange plan) × Shaped plan (lent.settings.vl / 8) }
    ensures { EndsAs (stacked plan) (lent_of lent.entry) (bench_of z.old x.old ram.now) result (bench_of z.new x.new ram.now) }
{
    let k = (lent.settings.vl / 64) as usize;
    let lanes = Lanes {
        plan,
        pred: actives::governing_bytes(lent.predicates, k, plan),
        register_bytes: (lent.settings.vl / 8) as usize,
    };
    if lanes.stack_fails(x) {
        return StepResult {
            count: 0,
            answer: Answer::Stack,
        };
    }
    let load = Load {
        lanes,
        areas: areas(
            lent.map,
            lent.flash,
            lent.flash_rights,
            ram,
            lent.ram_rights,
        ),
    };
    let found = load.run(z);
    if matches!(found.answer, Answer::Ran) {
        fills::scalars(x, plan);
    }
    found
}

// A step of an accepted set-up: what stops the word, or what its plan does.
fn accepted_step<'a>(
    z: &mut [u8],
    x: &mut [u64],
    ram: &'a [u8],
    word: u32,
    lent: Lent<'a>,
) -> StepResult
    requires { Accepted (lent_of lent) (bench_of z.old x.old ram.now) }
    ensures { EndsAs (λ l b. prepared_of l b.scalars word) (lent_of lent.entry) (bench_of z.old x.old ram.now) result (bench_of z.new x.new ram.now) }
{
    match plans::prepare(lent.settings, x, word) {
        Err(answer) => StepResult { count: 0, answer },
        Ok(plan) => carry_out(z, x, ram, lent, plan),
    }
}

// One step. The vector file and the scalars are lent to be written; RAM is lent beside them, to be read. They stay parameters of their own down to
// `carry_out`: of a struct of `&mut` slices the promise would have to speak by `.entry` and `.exit`, part by part.
pub fn step<'a>(z: &mut [u8], x: &mut [u64], ram: &'a [u8], word: u32, lent: Lent<'a>) -> StepResult
    ensures { let l = lent_of lent.entry in StepPromise l word (bench_of z.old x.old ram.now) result l (bench_of z.new x.new ram.now) }
{
    let areas = areas(
        lent.map,
        lent.flash,
        lent.flash_rights,
        ram,
        lent.ram_rights,
    );
    if files_accepted(lent.settings.vl, z, lent.predicates, x) && areas.accepted() {
        return accepted_step(z, x, ram, word, lent);
    }
    StepResult {
        count: 0,
        answer: Answer::SetUp,
    }
}

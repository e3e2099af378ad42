// What a word is about to do, from the settings and the scalars: an answer that stops it, or a plan. No predicate and no memory is in sight.
#![tactic(auto)]

mod families;

ghost use Rattle.plans.specs.Prepares.{PreparePromise};

use families::Load;
use steps::{Answer, Plan, Settings};

// What a word is about to do, for any settings and any scalars: where the vector length is not allowed, 1; then 2, or 3 from the word alone, or
// what its load does.
#[tactic(auto, using(crate::proofs::Bounds::few_registers), unfolding(crate::specs::Prepares::planned_for, steps::specs::Step::planned_of))]
pub fn prepare(settings: Settings, x: &[u64], word: u32) -> Result<Plan, Answer>
    ensures { PreparePromise settings x.now word result }
{
    if !steps::allowed(settings.vl) {
        return Err(Answer::SetUp);
    }
    let insn = words::read(word)?;
    Load { settings, x, insn }.planned()
}

// The two roads of a load past the stack rule: where all its elements lie together its destinations are filled from that stretch, and else
// it goes one by one through the elements that it asks for, and then through its destinations.
ghost use Rattle.std.specs.Prelude.{◌≡◌, ◌*◌, ◌<◌, ◌≤◌, length};
ghost use Rattle.memory.specs.Areas.{areas_of};
ghost use Rattle.memory.specs.Said.{AreasAccepted};
ghost use Rattle.steps.specs.Lanes.{destinations_in, destination_of};
ghost use Rattle.ground.specs.Sizes.{bytes_of};
ghost use Rattle.bench.specs.Inside.Loads.{survey_by, register_by, vectors_by, TargetedBy};
ghost use Rattle.bench.specs.Inside.Quick.{answers_from, DestinationOut, ReplicatesOut};
ghost use Rattle.bench.specs.Inside.Roads.{Targeted, RanWith};

use crate::actives::Lanes;
use crate::quick::Replicas;
use crate::reads::Load;
use crate::{fills, quick, stretches};
use steps::{Answer, Plan, Rule, StepResult};

// The register that destination j is: from the target on, 31 followed by 0. Both roads ask for it; j is a number as in `Load`.
#[tactic(auto, unfolding(steps::specs::Lanes::destination_of))]
fn destination(plan: Plan, j: u64) -> usize
    requires { j ≤ 256 }
    ensures is { result ≡ destination_of plan j }
    ensures in_file { result < 32 }
{
    ((plan.target as u64 + j) % 32) as usize
}

// How many destinations a load has: LD1R to LD4R have one for each element, and every other load has one.
#[tactic(auto, unfolding(steps::specs::Lanes::destinations_in))]
fn destinations_in(plan: Plan) -> u64
    ensures { result ≡ destinations_in plan }
{
    match plan.rule {
        Rule::Always => plan.elements,
        Rule::LaneBit => 1,
        Rule::ElementBit => 1,
    }
}

// That z is 32 registers long, and dst one, is asked with each: the prover covers no struct that keeps a fact beside a `&mut`.
impl<'a> Load<'a> {
    // What a load that ran writes into destination j, element by element: where it read nothing, zeros.
    fn written(self, dst: &mut [u8], j: u64, count: u64)
        requires j_bound { (j < destinations_in self.lanes.plan) × (length dst.old ≡ self.lanes.register_bytes) }
        requires ran_with { RanWith (survey_by self) count }
        ensures { dst.new ≡ register_by self.entry j (length dst.old) }
    {
        if count == 0 {
            fills::zeros(dst, 0)
        } else {
            self.fill(dst, j)
        }
    }

    // Every destination of a load that ran, one after the other, each a part of the vector file that is lent on to be written.
    #[tactic(auto, using(crate::proofs::Files::in_32))]
    fn destinations(self, z: &mut [u8], count: u64)
        requires z_len { length z.old ≡ 32 * self.lanes.register_bytes }
        requires ran_with { RanWith (survey_by self) count }
        ensures { z.new ≡ vectors_by self.entry z.old (destinations_in self.entry.lanes.plan) }
    {
        let n = self.lanes.register_bytes;
        for j in 0..destinations_in(self.lanes.plan) {
            let at = destination(self.lanes.plan, j) * n;
            self.written(&mut z[at..at + n], j, count);
        }
    }

    // One by one: first a survey that only reads; the destinations are filled only if it met no bad byte.
    fn one_by_one(self, z: &mut [u8]) -> StepResult
        requires { length z.old ≡ 32 * self.lanes.register_bytes }
        ensures { TargetedBy self.entry z.old result z.new }
    {
        let found = self.survey();
        if matches!(found.answer, Answer::Ran) {
            self.destinations(z, found.count);
        }
        found
    }

    // A load into the plan's destinations, in a vector file of 32 registers.
    pub(crate) fn run(self, z: &mut [u8]) -> StepResult
        requires areas_accepted { AreasAccepted (areas_of self.areas) }
        requires z_len { length z.old ≡ 32 * self.lanes.register_bytes }
        ensures { TargetedBy self.entry z.old result z.new }
    {
        let plan = self.lanes.plan;
        let all_bytes = (plan.elements * plan.size.bytes()) as usize;
        match stretches::find(self.areas, plan.start, all_bytes) {
            Some(stretch) => from_stretch(z, stretch, self.lanes),
            None => self.one_by_one(z),
        }
    }
}

impl<'a> Replicas<'a> {
    // Destination j, a middle part of the vector file, which is lent on to be filled from its own element.
    #[tactic(auto, using(crate::proofs::Files::in_32))]
    fn replicate_at(self, z: &mut [u8], j: u64)
        requires { (j < self.lanes.plan.elements) × (length z.old ≡ 32 * self.lanes.register_bytes) }
        ensures { DestinationOut self.entry.lanes.plan self.entry.stretch.now j self.entry.lanes.register_bytes z.old z.new }
    {
        let n = self.lanes.register_bytes;
        let at = destination(self.lanes.plan, j) * n;
        self.replicate(&mut z[at..at + n], j);
    }

    // Every destination. The first has a call of its own: LD1R has no other.
    fn replicates(self, z: &mut [u8])
        requires { length z.old ≡ 32 * self.lanes.register_bytes }
        ensures { ReplicatesOut self.entry.lanes.plan self.entry.stretch.now self.entry.lanes.register_bytes z.old z.new }
    {
        self.replicate_at(z, 0);
        for j in 1..self.lanes.plan.elements {
            self.replicate_at(z, j);
        }
    }
}

// A load whose elements all lie in a stretch. A destination is a middle part of the vector file, of 32 registers, and is lent on to be filled.
fn from_stretch<'a>(z: &mut [u8], stretch: &'a [u8], lanes: Lanes<'a>) -> StepResult
    requires { (length stretch.now ≡ lanes.plan.elements * bytes_of lanes.plan.size) × (length z.old ≡ 32 * lanes.register_bytes) }
    ensures { Targeted (answers_from stretch.now lanes.entry.plan) lanes.entry.plan lanes.entry.pred.now lanes.entry.register_bytes z.old result z.new }
{
    let plan = lanes.plan;
    let n = lanes.register_bytes;
    if quick::always(plan.rule) {
        let element_bytes = plan.size.bytes() as usize;
        let all = Replicas {
            lanes,
            stretch,
            element_bytes,
            end: plan.filled as usize * element_bytes,
        };
        all.replicates(z);
        return StepResult {
            count: plan.elements,
            answer: Answer::Ran,
        };
    }
    let at = plan.target as usize * n;
    let count = quick::fill(&mut z[at..at + n], stretch, lanes);
    StepResult {
        count,
        answer: Answer::Ran,
    }
}

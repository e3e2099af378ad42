// Which lanes are active, which elements a load asks for and which lane takes one. No memory is in sight.
ghost use Rattle.std.specs.Prelude.{◌≡◌, ◌*◌, ◌≤◌, length};
ghost use Rattle.ground.specs.Lists.{any_below};
ghost use Rattle.steps.specs.Lanes.{predicate_of, bit_of, is_active, wanted, may_take_by, lane_takes, checks_stack, lane_element};
ghost use Rattle.steps.specs.Inside.{PlanInRange};
ghost use Rattle.steps.specs.Step.{stack_fails};
ghost use Rattle.bench.specs.Inside.Plans.{FillFits-prop};
ghost use Rattle.bench.specs.Inside.Quick.{FillFits};

use steps::{Plan, Rule};

// The bytes of the governing predicate, where there is one: a register of n bytes in a file of 16. They are asked for before there is a `Lanes`,
// which is made of them, so what is known of its plan is asked here.
pub(crate) fn governing_bytes<'p>(predicates: &'p [u8], n: usize, plan: Plan) -> &'p [u8]
    requires plan_in_range { PlanInRange plan }
    requires n_bound { (n ≤ 32) × (length predicates.now ≡ 16 * n) }
    ensures { result.now ≡ predicate_of n predicates.now plan.governing }
{
    match plan.governing {
        None => &[],
        Some(g) => &predicates[g as usize * n..][..n],
    }
}

// Whether a bit of a predicate register is 1, lowest bit of each byte first. Past its end there is none.
#[tactic(auto, unfolding(steps::specs::Lanes::bit_of))]
pub(crate) fn bit_is_set(pred: &[u8], bit: u64) -> bool
    ensures { result ≡ bit_of pred.now bit }
{
    match pred.get((bit / 8) as usize) {
        Some(byte) => (byte >> (bit % 8)) % 2 == 1,
        None => false,
    }
}

// A plan, over registers of so many bytes, with the bytes of the predicate that governs it. The numbers of lanes and elements that its methods take
// stay numbers, bounded where they come in: a type for them would be unwrapped in each line.
#[derive(Clone, Copy)]
pub(crate) struct Lanes<'a> {
    pub plan: Plan,
    pub pred: &'a [u8],
    pub register_bytes: usize,
    ghost fits: { FillFits plan pred.now register_bytes } by { FillFits-prop plan pred.now register_bytes },
}

impl<'a> Lanes<'a> {
    // Whether lane l is active: one bit of its group decides, the lowest.
    #[tactic(auto, unfolding(steps::specs::Lanes::is_active))]
    fn lane_active(self, l: u64) -> bool
        requires { l ≤ 256 }
        ensures { result ≡ is_active self.entry.plan self.entry.pred.now l }
    {
        bit_is_set(self.pred, l * self.plan.lane.bytes())
    }

    // Whether one of the first n lanes is active. Of `any` over the lanes a proof would need two lemmas more.
    fn some_active(self, n: u64) -> bool
        requires { n ≤ 256 }
        ensures { result ≡ any_below (is_active self.entry.plan self.entry.pred.now) n }
    {
        for l in 0..n {
            if self.lane_active(l) {
                return true;
            }
        }
        false
    }

    // Whether element e is asked for.
    #[tactic(auto, unfolding(steps::specs::Lanes::wanted))]
    pub(crate) fn asks(self, e: u64) -> bool
        requires { e ≤ 256 }
        ensures { result ≡ wanted self.entry.plan self.entry.pred.now e }
    {
        match self.plan.rule {
            Rule::Always => true,
            Rule::LaneBit => self.some_active(self.plan.filled),
            Rule::ElementBit => self.lane_active(e),
        }
    }

    // Whether the SP check is made: for LD1R to LD4R always, else where one of the lanes that it consults is active.
    #[tactic(auto, unfolding(steps::specs::Lanes::checks_stack))]
    fn checks_stack(self) -> bool
        ensures { result ≡ checks_stack self.entry.plan self.entry.pred.now }
    {
        match self.plan.rule {
            Rule::Always => true,
            Rule::LaneBit | Rule::ElementBit => self.some_active(self.plan.consulted),
        }
    }

    // Whether the SP check is made and fails. SP is looked at before the lanes, which are many.
    #[tactic(auto, unfolding(steps::specs::Step::stack_fails))]
    pub(crate) fn stack_fails(self, x: &[u64]) -> bool
        requires { length x.now ≡ 33 }
        ensures { result ≡ stack_fails x.now self.entry.plan self.entry.pred.now }
    {
        self.plan.base == 31 && x[31] % 16 != 0 && self.checks_stack()
    }

    // Whether the rule lets lane l take its element.
    fn may_take(self, l: u64) -> bool
        requires { l ≤ 256 }
        ensures { result ≡ may_take_by self.entry.plan self.entry.pred.now self.entry.plan.rule l }
    {
        match self.plan.rule {
            Rule::Always => true,
            Rule::LaneBit => self.lane_active(l),
            Rule::ElementBit => self.lane_active(l % self.plan.elements),
        }
    }

    // The element of lane l of destination j.
    #[tactic(auto, unfolding(steps::specs::Lanes::lane_element))]
    pub(crate) fn lane_element(self, j: u64, l: u64) -> u64
        ensures { result ≡ lane_element self.entry.plan j l }
    {
        match self.plan.rule {
            Rule::Always => j,
            Rule::LaneBit => 0,
            Rule::ElementBit => l % self.plan.elements,
        }
    }

    // Whether lane l takes its element.
    #[tactic(auto, unfolding(steps::specs::Lanes::lane_takes))]
    pub(crate) fn takes_element(self, l: u64) -> bool
        requires { l ≤ 256 }
        ensures { result ≡ lane_takes self.entry.plan self.entry.pred.now l }
    {
        l < self.plan.filled && self.may_take(l)
    }
}

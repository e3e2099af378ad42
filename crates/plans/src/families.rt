// What a load is about to do: what stops it, or its plan, family by family: where element 0 lies, its elements, and the lanes that take one.
ghost use Rattle.std.specs.Prelude.{◌≡◌, ◌*◌, ◌^◌, ◌≤◌, not, unsigned_abs};
ghost use Rattle.ground.specs.Sizes.{bytes_of};
ghost use Rattle.words.specs.declared.Shape.TheVariants.{ByElement, Contiguous, Block};
ghost use Rattle.steps.specs.Terms as Terms;
ghost use Rattle.steps.specs.Plans.{start_of, added_of, lanes_of, replicated, spread_of, plan_of};
ghost use Rattle.steps.specs.Step.{is_wide, switched_on, planned_load};

use memory::Address;
use steps::{Answer, Plan, Rule, Settings};
use words::{Insn, Offset, Shape};

// What a load's shape decides of its plan: where element 0 lies, its elements, the lanes that take one, what decides, the lanes that the
// stack rule consults, and what is added to the base where it is written back.
#[derive(Clone, Copy)]
struct Spread {
    start: Address,
    elements: u64,
    filled: u64,
    rule: Rule,
    consulted: u64,
    back: Option<u64>,
}

// A field of four bits as a signed number, from -8 to 7.
#[tactic(auto, unfolding(steps::specs::Terms::signed4))]
fn signed(field: u32) -> i64
    ensures value { result ≡ Terms.signed4 field }
    ensures near { unsigned_abs result ≤ 2 ^ 32 }
{
    let number = i64::from(field);
    if field < 8 { number } else { number - 16 }
}

// A load that is about to be planned: the settings, at an allowed vector length, the scalars, and the instruction.
#[derive(Clone, Copy)]
pub(crate) struct Load<'a> {
    pub settings: Settings,
    pub x: &'a [u64],
    pub insn: Insn,
    ghost short: { settings.vl ≤ 2048 },
    ghost few: { insn.registers ≤ 4 },
}

impl<'a> Load<'a> {
    ghost use Rattle.plans.specs.Spreads.{spread_by};

    // A scalar by its number: X0 to X30, SP, PC. Where there is none, 0.
    fn scalar(self, n: u32) -> u64
        ensures { result ≡ Terms.scalar self.entry.x.now n }
    {
        self.x.get(n as usize).copied().unwrap_or(0)
    }

    // N, the lanes of a register.
    fn lanes(self) -> u64
        ensures { let l = self.entry in result ≡ lanes_of l.settings.vl l.insn.element.lane }
    {
        self.settings.vl / (8 * self.insn.element.lane.bytes())
    }

    // Where element 0 lies: an immediate counts blocks of so many bytes, a scalar counts elements.
    #[tactic(auto, using(crate::proofs::Bounds::product_fits, crate::proofs::Bounds::product, crate::proofs::Bounds::wrap_once))]
    fn start(self, block: u64, offset: Offset) -> Address
        requires { block ≤ 2048 }
        ensures { let l = self.entry in result.0 ≡ start_of l.x.now l.insn.base l.insn.element.memory block offset }
    {
        let base = Address(self.scalar(self.insn.base));
        match offset {
            Offset::Imm(field) => base.moved(signed(field) * block as i64),
            Offset::Reg(rm) => base.plus(
                self.scalar(rm)
                    .wrapping_mul(self.insn.element.memory.bytes()),
            ),
        }
    }

    // What is added to the base where it is written back: the sum of the reads, one for each register, where Rm is 31, else Xm.
    #[tactic(auto, using(ground::proofs::Sizes::bytes_few))]
    fn added(self, back: Option<u32>) -> Option<u64>
        ensures { let l = self.entry in result ≡ added_of l.x.now (l.insn.registers * bytes_of l.insn.element.memory) back }
    {
        match back? {
            31 => Some(u64::from(self.insn.registers) * self.insn.element.memory.bytes()),
            rm => Some(self.scalar(rm)),
        }
    }

    // LD1R to LD4R: a read for each register, over 64 bits where Q is 0, else over 128.
    fn replicate(self, q: bool, back: Option<u32>) -> Spread
        ensures { let l = self.entry in spread_by result ≡ replicated l.x.now l.insn q back }
    {
        let bytes = if q { 16 } else { 8 };
        Spread {
            start: Address(self.scalar(self.insn.base)),
            elements: u64::from(self.insn.registers),
            filled: bytes / self.insn.element.lane.bytes(),
            rule: Rule::Always,
            consulted: 0,
            back: self.added(back),
        }
    }

    // LD1R by element: one read, imm6 elements on, and the lanes by their own bits.
    #[tactic(auto, using(crate::proofs::Bounds::wrap_once), unfolding(steps::specs::Plans::spread_of))]
    fn by_element(self, imm6: u32) -> Spread
        ensures { let l = self.entry in spread_by result ≡ spread_of l.settings.vl l.x.now l.insn (ByElement imm6) }
    {
        let n = self.lanes();
        let base = Address(self.scalar(self.insn.base));
        Spread {
            start: base.plus(u64::from(imm6) * self.insn.element.memory.bytes()),
            elements: 1,
            filled: n,
            rule: Rule::LaneBit,
            consulted: n,
            back: None,
        }
    }

    // LD1: a read for each lane; the immediate counts vectors, as they lie in memory.
    #[tactic(auto, unfolding(steps::specs::Plans::spread_of))]
    fn contiguous(self, offset: Offset) -> Spread
        ensures { let l = self.entry in spread_by result ≡ spread_of l.settings.vl l.x.now l.insn (Contiguous offset) }
    {
        let n = self.lanes();
        Spread {
            start: self.start(n * self.insn.element.memory.bytes(), offset),
            elements: n,
            filled: n,
            rule: Rule::ElementBit,
            consulted: n,
            back: None,
        }
    }

    // LD1RQ and, where it is wide, LD1RO: a block, repeated as often as it goes into the register; the immediate counts blocks. The block's lanes
    // are read, and the stack rule consults every lane of the register.
    #[tactic(auto, unfolding(steps::specs::Plans::spread_of))]
    fn block(self, wide: bool, offset: Offset) -> Spread
        ensures { let l = self.entry in spread_by result ≡ spread_of l.settings.vl l.x.now l.insn (Block wide offset) }
    {
        let bytes = if wide { 32 } else { 16 };
        let k = bytes / self.insn.element.lane.bytes();
        Spread {
            start: self.start(bytes, offset),
            elements: k,
            filled: self.settings.vl / (8 * bytes) * k,
            rule: Rule::ElementBit,
            consulted: self.lanes(),
            back: None,
        }
    }

    // What the load's shape decides, family by family.
    #[tactic(auto, unfolding(steps::specs::Plans::spread_of))]
    fn spread(self) -> Spread
        ensures { let l = self.entry in spread_by result ≡ spread_of l.settings.vl l.x.now l.insn l.insn.shape }
    {
        match self.insn.shape {
            Shape::Replicate { q, back } => self.replicate(q, back),
            Shape::ByElement { imm6 } => self.by_element(imm6),
            Shape::Contiguous { offset } => self.contiguous(offset),
            Shape::Block { wide, offset } => self.block(wide, offset),
        }
    }

    // The plan: what the instruction has, and what its shape decides.
    fn plan(self) -> Plan
        ensures { let l = self.entry in result ≡ plan_of l.settings.vl l.x.now l.insn }
    {
        let insn = self.insn;
        let spread = self.spread();
        Plan {
            start: spread.start,
            size: insn.element.memory,
            lane: insn.element.lane,
            signed: insn.element.signed,
            elements: spread.elements,
            filled: spread.filled,
            rule: spread.rule,
            consulted: spread.consulted,
            governing: insn.governing,
            base: insn.base,
            target: insn.target,
            back: spread.back,
        }
    }

    // Whether the load is LD1RO.
    fn is_wide(self) -> bool
        ensures { result ≡ is_wide self.entry.insn.shape }
    {
        matches!(self.insn.shape, Shape::Block { wide: true, .. })
    }

    // Whether the switch that the load asks is off: SIMD for LD1R to LD4R, SVE for any other.
    fn switched_off(self) -> bool
        ensures { let l = self.entry in result ≡ not (switched_on l.settings l.insn.shape) }
    {
        match self.insn.shape {
            Shape::Replicate { .. } => !self.settings.simd,
            _ => !self.settings.sve,
        }
    }

    // What the load is about to do: 3 for want of F64MM, 4, 3 for short VL, or its plan.
    #[tactic(auto, unfolding(steps::specs::Step::planned_load, steps::specs::Step::refusals))]
    pub(crate) fn planned(self) -> Result<Plan, Answer>
        ensures { let l = self.entry in result ≡ planned_load l.settings l.x.now l.insn }
    {
        if self.is_wide() && !self.settings.f64mm {
            return Err(Answer::Undefined);
        }
        if self.switched_off() {
            return Err(Answer::SwitchedOff);
        }
        if self.is_wide() && self.settings.vl < 256 {
            return Err(Answer::Undefined);
        }
        Ok(self.plan())
    }
}

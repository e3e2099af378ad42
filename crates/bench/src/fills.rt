// What a load that ran writes: a destination register, the base and PC.
ghost use Rattle.std.specs.Prelude.{◌≡◌, ◌+◌, ◌-◌, ◌*◌, ◌%◌, ◌^◌, ◌<◌, ◌≤◌, length};
ghost use Rattle.ground.specs.Sizes.{bytes_of};
ghost use Rattle.memory.specs.Addresses.{wrap};
ghost use Rattle.steps.specs.Outcomes.{value_of, extended, base_after, scalars_after};
ghost use Rattle.bench.specs.Inside.{Zeroed};
ghost use Rattle.bench.specs.Inside.Loads.{answers_to, lane_by, register_by};

use crate::reads::Load;
use ground::Size;
use steps::Plan;

// The largest number of a size. A table, as `Size::bytes` is: 2^64 - 1 shifted by what is missing to 64 bits would say less.
fn largest(size: Size) -> u64
    ensures { result ≡ 2 ^ (8 * bytes_of size) - 1 }
{
    match size {
        Size::B8 => 0xff,
        Size::B16 => 0xffff,
        Size::B32 => 0xffff_ffff,
        Size::B64 => 0xffff_ffff_ffff_ffff,
    }
}

// A number of one size in a lane of another: with its sign, or with zeros. Modulo 2^64, which no lane outgrows.
pub(crate) fn extend(signed: bool, size: Size, lane: Size, v: u64) -> u64
    requires { bytes_of size ≤ bytes_of lane }
    ensures { result ≡ wrap (extended signed (bytes_of size) (bytes_of lane) v) }
{
    let most = largest(size);
    if signed && most / 2 < v {
        return v.wrapping_add(largest(lane) - most);
    }
    v
}

impl<'a> Load<'a> {
    // The value of element e. Where it cannot be read there is none, and no such load comes to be filled.
    fn value(self, e: u64) -> u64
        requires { e ≤ 256 }
        ensures { result ≡ value_of (answers_to self.entry e) }
    {
        self.element(e).unwrap_or(0)
    }

    // What lane l of destination j becomes: the element that it takes, extended, or zero. A lane that takes none looks at no memory.
    #[tactic(auto, unfolding(steps::specs::Outcomes::lane_value))]
    fn lane_value(self, j: u64, l: u64) -> u64
        requires { (j ≤ 256) × (l ≤ 256) }
        ensures { result ≡ wrap (lane_by self.entry j l) }
    {
        if self.lanes.takes_element(l) {
            let plan = self.lanes.plan;
            let value = self.value(self.lanes.lane_element(j, l));
            return extend(plan.signed, plan.size, plan.lane, value);
        }
        0
    }

    // Fills destination j, a register of whole lanes, each lane's element read by itself.
    #[tactic(auto, unfolding(steps::specs::Outcomes::register_of))]
    pub(crate) fn fill(self, dst: &mut [u8], j: u64)
        requires { (j ≤ 256) × (length dst.old ≡ self.lanes.register_bytes) }
        ensures { dst.new ≡ register_by self.entry j (length dst.old) }
    {
        let width = self.lanes.plan.lane.bytes() as usize;
        for l in 0..dst.len() / width {
            let at = l * width;
            ground::put(&mut dst[at..at + width], self.lane_value(j, l as u64));
        }
    }
}

// Zeros from a place on.
pub(crate) fn zeros(dst: &mut [u8], from: usize)
    requires { from ≤ length dst.old }
    ensures { Zeroed dst.old dst.new from }
{
    dst[from..].fill(0);
}

// Writes the base back where the plan says so.
#[tactic(auto, unfolding(steps::specs::Outcomes::base_after))]
fn base(x: &mut [u64], plan: Plan)
    requires { plan.base < length x.old }
    ensures { x.new ≡ base_after plan x.old }
{
    if let Some(n) = plan.back {
        let at = plan.base as usize;
        x[at] = x[at].wrapping_add(n);
    }
}

// Writes the base back and moves PC on. The base is X0 to X30 or SP, and so never PC.
#[tactic(auto, unfolding(steps::specs::Outcomes::scalars_after))]
pub(crate) fn scalars(x: &mut [u64], plan: Plan)
    requires { (plan.base < 32) × (length x.old ≡ 33) }
    ensures { x.new ≡ scalars_after plan x.old }
{
    let pc = x[32].wrapping_add(4);
    base(x, plan);
    x[32] = pc;
}

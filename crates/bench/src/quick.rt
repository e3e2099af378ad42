// The quick road: a load whose elements all lie together in a stretch of memory. The destination is filled from it and the reads are
// counted, in one go.
ghost use Rattle.std.specs.Prelude.{◌≡◌, ◌*◌, ◌<◌, ◌≤◌, false, length};
ghost use Rattle.ground.specs.Sizes.{bytes_of};
ghost use Rattle.bench.specs.Inside.Quick.{Copied, is_always, stride_of, count_of, own_in, FillOut, ReplicasFound, ReplicateOut};
ghost use Rattle.bench.specs.Inside.Plans.{ReplicasFound-prop};

use crate::actives::Lanes;
use crate::chunks::{self, Widening};
use crate::fills;
use steps::{Plan, Rule};

// Repeats the first `block` bytes of a register up to byte `end`.
fn copies(dst: &mut [u8], block: usize, end: usize)
    requires { (0 < block) × (end ≤ length dst.old) }
    ensures { Copied dst.old dst.new block end }
{
    for i in block..end {
        dst[i] = dst[i - block];
    }
}

// The same. LD1RQ's block is a constant in its call, which the compiler makes the quicker loop for: without it, all loads mixed take 4 to 15 %
// more instructions.
fn blocks(dst: &mut [u8], block: usize, end: usize)
    requires { (0 < block) × (end ≤ length dst.old) }
    ensures { Copied dst.old dst.new block end }
{
    match block {
        16 => copies(dst, 16, end),
        _ => copies(dst, block, end),
    }
}

// Whether the rule is that of LD1R to LD4R: the definitions' test of it, by name.
pub(crate) fn always(rule: Rule) -> bool
    ensures { result ≡ is_always rule }
{
    matches!(rule, Rule::Always)
}

// What of a register is its own, filled from the stretch; the rest is copies of it and zeros.
#[derive(Clone, Copy)]
struct Own {
    chunks: usize,
    // how far apart the elements of neighbouring lanes lie: LD1R by element has one element for all of them
    stride: usize,
}

// By the rule. LD1R to LD4R, which `replicate` fills, ask for none of it.
fn own_of(plan: Plan) -> Own
    requires { (plan.elements ≤ 256) × (plan.filled ≤ 256) }
    ensures { (result.chunks ≡ own_in plan) × (result.stride ≡ stride_of plan.rule (bytes_of plan.size)) }
{
    let width = plan.lane.bytes();
    match plan.rule {
        Rule::Always => Own {
            chunks: 1,
            stride: 0,
        },
        Rule::LaneBit => Own {
            chunks: (plan.filled * width / 8) as usize,
            stride: 0,
        },
        Rule::ElementBit => Own {
            chunks: (plan.elements * width / 8) as usize,
            stride: plan.size.bytes() as usize,
        },
    }
}

// The count of reads, of so many lanes that are on.
fn counted(rule: Rule, lanes_on: u64) -> u64
    ensures { result ≡ count_of rule lanes_on }
{
    match rule {
        Rule::Always => 1,
        Rule::LaneBit => u64::from(0 < lanes_on),
        Rule::ElementBit => lanes_on,
    }
}

// LD1R to LD4R over a stretch that has every element, with the bytes of an element and of the lanes that take it, found once for all destinations.
#[derive(Clone, Copy)]
pub(crate) struct Replicas<'a> {
    pub lanes: Lanes<'a>,
    pub stretch: &'a [u8],
    pub element_bytes: usize,
    pub end: usize,
    ghost found: { ReplicasFound lanes.plan stretch.now element_bytes end } by { ReplicasFound-prop lanes.plan stretch.now element_bytes end },
}

impl<'a> Replicas<'a> {
    // Fills destination j: chunks of its own element up to byte `end`, then zeros.
    pub(crate) fn replicate(self, dst: &mut [u8], j: u64)
        requires { (j < self.lanes.plan.elements) × (length dst.old ≡ self.lanes.register_bytes) }
        ensures { ReplicateOut self.entry.lanes.plan self.entry.stretch.now j (length dst.old) dst.new }
    {
        let from = j as usize * self.element_bytes;
        let chunk = chunks::spread(self.stretch, from, self.lanes.plan.size);
        chunks::repeat(dst, chunk, self.end / 8);
        fills::zeros(dst, self.end);
    }
}

// Fills the one destination of any other load from such a stretch, and counts the reads: its own chunks, then their copies, then zeros.
// Nothing can fault.
pub(crate) fn fill(dst: &mut [u8], stretch: &[u8], lanes: Lanes) -> u64
    requires asks { is_always lanes.plan.rule ≡ false }
    requires lengths { (length stretch.now ≡ lanes.plan.elements * bytes_of lanes.plan.size) × (length dst.old ≡ lanes.register_bytes) }
    ensures { FillOut lanes.entry.plan lanes.entry.pred.now stretch.now (length dst.old) dst.new result }
{
    let plan = lanes.plan;
    let own = own_of(plan);
    let widening = Widening {
        size: plan.size,
        width: plan.lane,
        signed: plan.signed,
        stride: own.stride,
    };
    let lanes_on = widening.fill(dst, stretch, &lanes.pred[..own.chunks]);
    let end = (plan.filled * plan.lane.bytes()) as usize;
    blocks(dst, own.chunks * 8, end);
    fills::zeros(dst, end);
    counted(plan.rule, lanes_on)
}

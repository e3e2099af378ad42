// The lane window: what a lane of the lent vector file holds, as the operator asks for it.
#![tactic(auto)]

ghost use Rattle.std.specs.Prelude.{◌≡◌, true, false, MatchOption, Some, length};
ghost use Rattle.lanes.specs.Lanes.{width_fits, lane_there, lane_at, shown_as, ShowPromise};
ghost use Rattle.lanes.specs.Inside.{Fitting};

use steps::allowed;

// How a lane is asked for.
#[derive(Clone, Copy, Debug, PartialEq, Eq)]
pub enum Kind {
    Whole,
    Single,
    Double,
}

impl Kind {
    // Whether a lane of this width can be asked for so.
    fn fits(self, width: u32) -> bool
        ensures { result ≡ width_fits self width }
    {
        match self {
            Kind::Whole => matches!(width, 8 | 16 | 32 | 64),
            Kind::Single => width == 32,
            Kind::Double => width == 64,
        }
    }
}

// What a lane holds, as asked. The language makes no float of a NaN's bits, so a NaN is a whole number with exactly its bits.
#[derive(Clone, Copy, Debug, PartialEq)]
pub enum Shown {
    Single(f32),
    Double(f64),
    Whole(u64),
}

// The sign bit of a single and of a double, and the bits of infinity, above which, whatever the sign, lie those of a NaN.
const SIGN_32: u64 = 0x8000_0000;

const INFINITY_32: u64 = 0x7f80_0000;

const SIGN_64: u64 = 0x8000_0000_0000_0000;

const INFINITY_64: u64 = 0x7ff0_0000_0000_0000;

// A lane that is asked for: any vector length, register, width and number.
#[derive(Clone, Copy)]
struct Asked {
    vl: u64,
    register: u32,
    kind: Kind,
    width: u32,
    lane: u64,
}

impl Asked {
    // Whether a file has the lane. The first two tests come first because without them a product may wrap and a width be 0.
    #[tactic(auto, unfolding(crate::specs::Lanes::lane_there))]
    fn is_there(self, z: &[u8]) -> bool
        ensures { result ≡ lane_there self.vl (length z.now) self.register self.kind self.width self.lane }
    {
        allowed(self.vl)
            && self.kind.fits(self.width)
            && z.len() as u64 == 32 * (self.vl / 8)
            && self.register <= 31
            && self.lane < self.vl / u64::from(self.width)
    }

    // Where the lane starts in a file that has it: register 0 comes first, and in a register lane 0.
    #[tactic(auto, using(crate::proofs::Places::reached))]
    fn place(self, z: &[u8]) -> Option<usize>
        ensures { MatchOption result
            (lane_there self.vl (length z.now) self.register self.kind self.width self.lane ≡ false)
            (λ at. (lane_there self.vl (length z.now) self.register self.kind self.width self.lane ≡ true)
            × (at ≡ lane_at self.vl self.register self.width self.lane)) }
    {
        if !self.is_there(z) {
            return None;
        }
        Some(
            (u64::from(self.register) * (self.vl / 8)
                + self.lane * u64::from(self.width / 8)) as usize,
        )
    }

    // The lane's bits, as asked.
    fn shown(self, bits: u64) -> Shown
        requires { Fitting self.kind self.width bits }
        ensures { Some result ≡ shown_as self.kind bits }
    {
        match self.kind {
            Kind::Single if bits % SIGN_32 <= INFINITY_32 => {
                Shown::Single(f32::from_bits(bits as u32))
            }
            Kind::Double if bits % SIGN_64 <= INFINITY_64 => Shown::Double(f64::from_bits(bits)),
            _ => Shown::Whole(bits),
        }
    }
}

// What does a lane hold? Any file, register, width and lane may be asked for.
pub fn show(vl: u64, z: &[u8], register: u32, kind: Kind, width: u32, lane: u64) -> Option<Shown>
    ensures { ShowPromise vl z.now register kind width lane result }
{
    let asked = Asked {
        vl,
        register,
        kind,
        width,
        lane,
    };
    let at = asked.place(z)?;
    let bits = ground::number(z, at, width as usize / 8);
    Some(asked.shown(bits))
}

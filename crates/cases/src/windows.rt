// The windows for the operator, asked by a case: where an address lies, and what a lane holds.
ghost use Rattle.std.specs.Prelude.{◌≡◌};
ghost use Rattle.lanes.specs.Said.{NoNan};
ghost use Rattle.cases.specs.Windows.{address_told, asked_of, lane_told};
ghost use Rattle.cases.specs.Inside.{lane_kind, report_in, areas_by};

use crate::heads::Numbers;
use crate::outcomes::Told;
use crate::parts::Parts;
use lanes::{Kind, Shown};
use memory::{Address, Areas, Place};

// Kind 2: where an address lies in the areas that a case lends. How long the part is, the window itself says.
#[tactic(auto, using(crate::proofs::Shown::rest))]
pub(crate) fn asked_address(parts: Parts, n: Numbers) -> Told
    ensures { report_in result ≡ address_told (areas_by parts.entry) n }
{
    let a = Address(n.a0);
    let areas = parts.areas();
    let Areas { flash, ram } = areas;
    let part = memory::window_beside(
        parts.lent.map,
        flash.bytes,
        flash.rights,
        ram.bytes,
        ram.rights,
        a,
    );
    let (number, k) = match areas.shown_place(a) {
        Some(Place::Flash(k)) => (1, k),
        Some(Place::Ram(k)) => (2, k),
        None => return Told::default(),
    };
    Told {
        number,
        count: k as u64,
        element: part.len() as u64,
        address: 0,
    }
}

// How a lane is asked for: whole, as a single or as a double.
fn lane_kind(number: u64) -> Option<Kind>
    ensures { result ≡ lane_kind number }
{
    match number {
        0 => Some(Kind::Whole),
        1 => Some(Kind::Single),
        2 => Some(Kind::Double),
        _ => None,
    }
}

// The lane that is asked for. One of a register or of a width with so large a number is none.
#[tactic(auto, using(crate::proofs::Shown::lanes_asked))]
fn shown(vl: u64, z: &[u8], n: Numbers) -> Option<Shown>
    ensures exactly { result ≡ asked_of vl z.now n }
    ensures no_nan { NoNan result }
{
    let kind = lane_kind(n.a1)?;
    let register = u32::try_from(n.a0).ok()?;
    let width = u32::try_from(n.a2).ok()?;
    lanes::show(vl, z, register, kind, width, n.a3)
}

// Kind 3: which a lane of the vector file is shown as, and its bits.
#[tactic(auto, unfolding(lanes::specs::Lanes::bits_of))]
pub(crate) fn asked_lane(vl: u64, z: &[u8], n: Numbers) -> Told
    ensures { report_in result ≡ lane_told vl z.now n }
{
    let (number, count) = match shown(vl, z, n) {
        Some(Shown::Whole(bits)) => (1, bits),
        Some(Shown::Single(x)) => (2, u64::from(x.to_bits())),
        Some(Shown::Double(x)) => (3, x.to_bits()),
        None => (0, 0),
    };
    Told {
        number,
        count,
        ..Told::default()
    }
}

// What a bench holds after a step: what Z0 and Z1 have, by the lane window, and where in the lent areas that lies.
use crate::setups::ram_start;
use lanes::{Kind, Shown};
use memory::Address;

// The vector file at its vector length, and the areas that were lent: flash, which starts at 0, and RAM.
#[derive(Clone, Copy)]
pub struct Held<'a> {
    pub vl: u32,
    pub z: &'a [u8],
    pub flash: &'a [u8],
    pub ram: &'a [u8],
}

// Where in an area a number of 64 bits lies, lowest byte first. The patterns have each at one place only, mostly near the end, so it is looked for from there.
fn find(area: &[u8], bits: u64) -> Option<usize> {
    let bytes = bits.to_le_bytes();
    area.windows(8).rposition(|eight| eight == bytes.as_slice())
}

impl Held<'_> {
    // Lane e of register r.
    pub(crate) fn lane(self, r: u32, width: u32, e: u64) -> Option<u64> {
        match lanes::show(u64::from(self.vl), self.z, r, Kind::Whole, width, e)? {
            Shown::Whole(bits) => Some(bits),
            Shown::Single(_) | Shown::Double(_) => None,
        }
    }

    // How many lanes of a width a register has.
    fn lanes(self, width: u32) -> u64 {
        u64::from(self.vl.checked_div(width).unwrap_or(0))
    }

    // How many lanes of register r the first `unit` and their copies fill: up to the first lane that differs from the one `unit` before it.
    pub(crate) fn repeated(self, r: u32, width: u32, unit: u64) -> u64 {
        let n = self.lanes(width);
        (unit..n)
            .find(|e| self.lane(r, width, *e) != self.lane(r, width, *e - unit))
            .unwrap_or(n)
    }

    // Whether lane `first` of register r and those after it are zero.
    pub(crate) fn zero_from(self, r: u32, width: u32, first: u64) -> bool {
        (first..self.lanes(width)).all(|e| self.lane(r, width, e) == Some(0))
    }

    // Where in flash or in RAM a number of 64 bits lies.
    pub(crate) fn place(self, bits: u64) -> Option<Address> {
        match find(self.flash, bits) {
            Some(k) => Some(Address(k as u64)),
            None => find(self.ram, bits).map(|k| ram_start(self.ram.len()).plus(k as u64)),
        }
    }

    // Where lane e of Z0, of 64 bits, is from.
    pub(crate) fn source(self, e: u64) -> Option<Address> {
        self.place(self.lane(0, 64, e)?)
    }

    // Whether lane 0 of register r, of eight bits, is RAM's byte at an address.
    pub(crate) fn is_ram_byte(self, r: u32, a: Address) -> bool {
        let start = ram_start(self.ram.len());
        match self.ram.get(a.0.wrapping_sub(start.0) as usize) {
            Some(byte) => self.lane(r, 8, 0) == Some(u64::from(*byte)),
            None => false,
        }
    }
}

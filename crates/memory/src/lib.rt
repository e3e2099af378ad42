// The memory of the bench: two areas with a rights byte for each page begun, read byte by byte.
#![tactic(auto)]

ghost use Rattle.std.specs.Prelude.{◌≡◌, ◌<◌, length};
ghost use Rattle.memory.specs.Addresses.{PlusPromise, MovedPromise};
ghost use Rattle.memory.specs.Areas.{area_of, areas_from, areas_of, end_of, is_area_accepted, share_none, AreasAcceptedPromise, offset_in, place_in};
ghost use Rattle.memory.specs.Bytes.{judged, BytePromise};
ghost use Rattle.memory.specs.Elements.{ElementPromise};
ghost use Rattle.memory.specs.Windows.{PlacePromise, WindowPromise};

use ground::Size;

// The most bytes of an area, and the bytes of a page.
pub const AREA_LIMIT: usize = 65536;

pub const PAGE_BYTES: usize = 4096;

// An address, so that it is mixed with no lane number and no offset. Its arithmetic is modulo 2^64.
#[derive(Clone, Copy, Debug, PartialEq, Eq)]
pub struct Address(pub u64);

impl Address {
    // The address n bytes on.
    pub fn plus(self, n: u64) -> Address
        ensures { PlusPromise self.0 n result }
    {
        Address(self.0.wrapping_add(n))
    }

    // The address d bytes on, or back.
    pub fn moved(self, d: i64) -> Address
        ensures { MovedPromise self.0 d result }
    {
        Address(self.0.wrapping_add_signed(d))
    }
}

// Where the two areas start.
#[derive(Clone, Copy)]
pub struct Map {
    pub flash: Address,
    pub ram: Address,
}

// Where an address lies: so many bytes into which area.
#[derive(Clone, Copy, Debug, PartialEq, Eq)]
pub enum Place {
    Flash(usize),
    Ram(usize),
}

// Why a byte cannot be read: neither area holds it, or its page has no read right.
#[derive(Clone, Copy, Debug, PartialEq, Eq)]
pub enum Fault {
    Nowhere,
    Denied,
}

// A byte that cannot be read: why, and its address.
#[derive(Clone, Copy, Debug, PartialEq, Eq)]
pub struct BadByte {
    pub fault: Fault,
    pub at: Address,
}

// Where an area starts, its bytes, and a rights byte for each page begun.
#[derive(Clone, Copy)]
pub struct Area<'a> {
    pub start: Address,
    pub bytes: &'a [u8],
    pub rights: &'a [u8],
}

impl<'a> Area<'a> {
    // The first address beyond the area. It can be 2^64, which no Address is.
    fn end(self) -> u128
        ensures { let r = area_of self.entry in result ≡ end_of r.start (length r.bytes) }
    {
        u128::from(self.start.0) + self.bytes.len() as u128
    }

    // Whether the area is accepted by itself: its limit, rights, start and end.
    #[tactic(auto, unfolding(crate::specs::Areas::is_area_accepted))]
    fn accepted(self) -> bool
        ensures { let r = area_of self.entry in result ≡ is_area_accepted r.start (length r.bytes) (length r.rights) }
    {
        self.bytes.len() <= AREA_LIMIT
            && self.rights.len() == self.bytes.len().div_ceil(PAGE_BYTES)
            && self.start.0 % PAGE_BYTES as u64 == 0
            && self.end() <= 1 << 64
    }

    // How many bytes into the area an address lies, where the area holds it.
    #[tactic(auto, unfolding(crate::specs::Areas::offset_in, crate::specs::Areas::covers))]
    fn offset(self, a: Address) -> Option<usize>
        ensures { let r = area_of self.entry in result ≡ offset_in r.start (length r.bytes) a.0 }
    {
        let offset = a.0.checked_sub(self.start.0)?;
        (offset < self.bytes.len() as u64).then_some(offset as usize)
    }

    // What a load finds at byte k: the byte, or that its page has no read right. Where no rights byte is lent for the page, there is none.
    #[tactic(auto, unfolding(crate::specs::Bytes::judged))]
    fn judge(self, k: usize) -> Result<u8, Fault>
        requires { k < length self.bytes.now }
        ensures { let r = area_of self.entry in result ≡ judged r.bytes r.rights k }
    {
        match self.rights.get(k / PAGE_BYTES) {
            Some(right) if *right % 2 == 1 => Ok(self.bytes[k]),
            _ => Err(Fault::Denied),
        }
    }
}

// The two areas, as they are lent for one step. Flash is looked at before RAM.
#[derive(Clone, Copy)]
pub struct Areas<'a> {
    pub flash: Area<'a>,
    pub ram: Area<'a>,
}

impl<'a> Areas<'a> {
    // Whether flash and RAM share no address.
    #[tactic(auto, unfolding(crate::specs::Areas::share_none))]
    fn share_none(self) -> bool
        ensures { let m = areas_of self.entry in result ≡ share_none m.flash.start (length m.flash.bytes) m.ram.start (length m.ram.bytes) }
    {
        self.flash.end() <= u128::from(self.ram.start.0)
            || self.ram.end() <= u128::from(self.flash.start.0)
            || self.flash.bytes.is_empty()
            || self.ram.bytes.is_empty()
    }

    // Whether the areas are accepted.
    #[tactic(auto, unfolding(crate::specs::Areas::are_areas_accepted))]
    pub fn accepted(self) -> bool
        ensures { AreasAcceptedPromise (areas_of self.entry) result }
    {
        self.flash.accepted() && self.ram.accepted() && self.share_none()
    }

    // Where an address lies. By a match: a proof learns nothing of what a closure of `or_else` gave.
    #[tactic(auto, unfolding(crate::specs::Areas::place_of, crate::specs::Areas::offset_in))]
    fn locate(self, a: Address) -> Option<Place>
        ensures { result ≡ place_in (areas_of self.entry) a.0 }
    {
        match self.flash.offset(a) {
            Some(k) => Some(Place::Flash(k)),
            None => self.ram.offset(a).map(Place::Ram),
        }
    }

    // What a load finds at an address.
    #[tactic(auto, unfolding(crate::specs::Bytes::look_of), using(crate::proofs::Places::place_inside))]
    pub fn byte(self, a: Address) -> Result<u8, Fault>
        ensures { BytePromise (areas_of self.entry) a.0 result }
    {
        match self.locate(a) {
            Some(Place::Flash(k)) => self.flash.judge(k),
            Some(Place::Ram(k)) => self.ram.judge(k),
            None => Err(Fault::Nowhere),
        }
    }

    // What reading an element finds, byte by byte upward, with wrap: its value, lowest byte first, or the first bad byte.
    #[tactic(auto, using(crate::proofs::Turns::read_so_far))]
    pub fn element(self, a: Address, size: Size) -> Result<u64, BadByte>
        ensures { ElementPromise (areas_of self.entry) a.0 size result }
    {
        let mut value = 0;
        for i in 0..size.bytes() {
            let at = a.plus(i);
            let byte = self.byte(at).map_err(|fault| BadByte { fault, at })?;
            value += u64::from(byte) << (8 * i);
        }
        Ok(value)
    }

    // The place that the address window shows: nowhere where the areas are not accepted. The window hands out bytes; this says where they lie.
    #[tactic(auto, unfolding(crate::specs::Windows::shown_place))]
    pub fn shown_place(self, a: Address) -> Option<Place>
        ensures { PlacePromise (areas_of self.entry) a.0 result }
    {
        if self.accepted() {
            self.locate(a)
        } else {
            None
        }
    }
}

// The address window: the stretch from a byte to its area's end, rights ignored; an empty part, as the scope of work has it, where there is none.
// It takes no Areas: flash and RAM have the lifetimes that they were lent for, and rights need not live as long as the part.
#[tactic(auto, using(crate::proofs::Windows::shown_within))]
pub fn window<'f, 'r: 'f>(
    map: Map,
    flash: &'f [u8],
    flash_rights: &[u8],
    ram: &'r [u8],
    ram_rights: &[u8],
    a: Address,
) -> &'f [u8]
    ensures { WindowPromise (areas_from map flash.now flash_rights.now ram.now ram_rights.now)
        a.0 flash.entry ram.entry result }
{
    let areas = Areas {
        flash: Area {
            start: map.flash,
            bytes: flash,
            rights: flash_rights,
        },
        ram: Area {
            start: map.ram,
            bytes: ram,
            rights: ram_rights,
        },
    };
    match areas.shown_place(a) {
        Some(Place::Flash(k)) => &flash[k..],
        Some(Place::Ram(k)) => &ram[k..],
        None => &flash[..0],
    }
}

// The same window with one lifetime named. `window` serves every caller of it too, and it stays for those who have it.
pub fn window_beside<'a>(
    map: Map,
    flash: &'a [u8],
    flash_rights: &[u8],
    ram: &'a [u8],
    ram_rights: &[u8],
    a: Address,
) -> &'a [u8]
    ensures { WindowPromise (areas_from map flash.now flash_rights.now ram.now ram_rights.now)
        a.0 flash.entry ram.entry result }
{
    window(map, flash, flash_rights, ram, ram_rights, a)
}

// A stretch: bytes that lie together, whole in one area and on pages that may be read. Bounds and rights are looked at here, and no byte.
ghost use Rattle.std.specs.Prelude.{◌≡◌, ◌<◌, ◌≤◌, length, IfSome};
ghost use Rattle.memory.specs.Areas.{page_bytes};
ghost use Rattle.memory.specs.Said.{AreaAccepted, AreasAccepted};
ghost use Rattle.memory.specs.Areas.{area_of, areas_of};
ghost use Rattle.bench.specs.Inside.Stretches.{Within, Together};

use memory::{Address, Area, Areas, PAGE_BYTES};

// The n bytes from an address on as a part of an area, where they are known to lie in it together. They are no more than a page, so that their
// first and their last byte touch every page that they touch.
fn in_area<'a>(area: Area<'a>, a: Address, n: usize) -> Option<&'a [u8]>
    requires area_accepted { AreaAccepted (area_of area) }
    requires n_in_page { (0 < n) × (n ≤ page_bytes) }
    ensures { IfSome result (λ s. Within (area_of area.entry) a.0 n s.now) }
{
    let last = area.bytes.len().checked_sub(n)?;
    // how far into the area the address lies; one below its start comes out far beyond its end
    let far = a.0.wrapping_sub(area.start.0);
    if far > last as u64 {
        return None;
    }
    let at = far as usize;
    let end = at + n;
    // as memory's `judge` asks the right of one byte, which it then reads; here every page is known to have its byte, and none is read
    let readable = area.rights[at / PAGE_BYTES] % 2 == 1
        && area.rights[(end - 1) / PAGE_BYTES] % 2 == 1;
    if readable {
        Some(&area.bytes[at..end])
    } else {
        None
    }
}

// The n bytes from an address on as a part of flash or of RAM, where they lie together.
pub(crate) fn find<'a>(areas: Areas<'a>, a: Address, n: usize) -> Option<&'a [u8]>
    requires areas_accepted { AreasAccepted (areas_of areas) }
    requires n_in_page { (0 < n) × (n ≤ page_bytes) }
    ensures { IfSome result (λ s. Together (areas_of areas.entry) a.0 n s.now) }
{
    match in_area(areas.flash, a, n) {
        Some(stretch) => Some(stretch),
        // not by `or_else`: a proof learns nothing of what its closure gave
        None => in_area(areas.ram, a, n),
    }
}

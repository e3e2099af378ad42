// What a row's bench is made of: every byte and number of it non-zero, so that what becomes zero shows, and what stays as it was.
ghost use Rattle.std.specs.Prelude.{◌≤◌};

use memory::{Address, PAGE_BYTES};

// Byte k of an area or file: two digits of its number by threes, and a tag. No eight bytes in a row lie at two places, and
// none of them is zero.
fn pattern(k: usize, tag: u8) -> u8 {
    let by_threes = k / 3;
    match k % 3 {
        0 => (1 + by_threes % 255) as u8,
        1 => (1 + by_threes / 255 % 255) as u8,
        _ => tag,
    }
}

// Fills an area or a file with its pattern.
pub(crate) fn fill(s: &mut [u8], tag: u8) {
    for (k, byte) in s.iter_mut().enumerate() {
        *byte = pattern(k, tag);
    }
}

// Puts 01..08 at a place.
pub(crate) fn mark(s: &mut [u8], at: usize) {
    for (byte, n) in s.iter_mut().skip(at).zip(1..=8) {
        *byte = n;
    }
}

// The scalars: X0, and a number of its own for each other. SP is a multiple of 16.
pub(crate) fn scalars(x0: u64) -> [u64; 33] {
    let mut x = [x0; 33];
    for (i, scalar) in x.iter_mut().enumerate().skip(1) {
        *scalar = i as u64 * 0x1010;
    }
    x
}

// The predicate file: P0 as the row has it, and every bit of the others.
pub(crate) fn predicates(p0: u32) -> [u8; 544] {
    let mut p = [0xff; 544];
    p[..4].copy_from_slice(&p0.to_le_bytes());
    p
}

// How many pages n bytes begin.
pub(crate) fn pages(n: usize) -> usize {
    n.div_ceil(PAGE_BYTES)
}

// Where RAM starts, so that its last page ends at 2^64.
pub(crate) fn ram_start(n: usize) -> Address {
    let size = pages(n).min(17) * PAGE_BYTES;
    Address((size as u64).wrapping_neg())
}

// How many bytes of the vector file a vector length asks.
pub(crate) fn file_bytes(vl: u32) -> usize
    ensures { result ≤ 8704 }
{
    (32 * (vl as usize / 8)).min(8704)
}

// The vector file, filled as far as the vector length asks.
pub(crate) fn file(vl: u32) -> [u8; 8704] {
    let mut z = [0; 8704];
    fill(&mut z[..file_bytes(vl)], 0xf3);
    z
}

// A number as bytes, lowest byte first, read and written.
ghost use Rattle.std.specs.Prelude.{◌≡◌, ◌+◌, get_or};
ghost use Rattle.ground.specs.Lists.{NumberPromise, PutPromise};

// The byte i places on from a place, and 0 where there is none.
fn byte_on(s: &[u8], at: usize, i: usize) -> u8
    ensures { result ≡ get_or s.now (at + i) 0 }
{
    at.checked_add(i)
        .and_then(|k| s.get(k))
        .copied()
        .unwrap_or(0)
}

// The number that n bytes make from a place on: of the first eight, where n is more, and a byte that is not there is 0.
pub fn number(s: &[u8], at: usize, n: usize) -> u64
    ensures { NumberPromise s.now at n result }
{
    let mut value = 0;
    for i in 0..n.min(8) {
        value += u64::from(byte_on(s, at, i)) << (8 * i);
    }
    value
}

// Writes a number over bytes: as many of its digits to the base 256 as there are bytes.
pub fn put(dst: &mut [u8], v: u64)
    ensures { PutPromise dst.old v dst.new }
{
    let mut rest = v;
    for byte in dst {
        *byte = (rest % 256) as u8;
        rest /= 256;
    }
}

// A row set up and stepped, and what came of it.
use crate::found::Held;
use crate::phrases::{Came, Seen};
use crate::rows::Row;
use crate::setups;
use memory::{Address, Map};
use std::fmt::Write;
use steps::{Lent, Settings, StepResult};
use texts::Text;

// Lends what a row asks and steps: flash at 0, RAM at the end, every page readable but for flash's page 1 where the row says so. z and x stay apart,
// as `bench::step` takes them.
fn lent(row: Row, z: &mut [u8], x: &mut [u64; 33], flash: &[u8], ram: &[u8]) -> StepResult {
    let predicates = setups::predicates(row.p0);
    let all = [0xff; 17];
    let mut rights = all;
    rights[1] = row.page1;
    let lent = Lent {
        settings: Settings {
            vl: u64::from(row.vl),
            simd: true,
            sve: true,
            f64mm: true,
        },
        predicates: predicates
            .get(..row.vl as usize / 8 * 2)
            .unwrap_or(&predicates),
        map: Map {
            flash: Address(0),
            ram: setups::ram_start(ram.len()),
        },
        flash,
        flash_rights: rights.get(..setups::pages(flash.len())).unwrap_or(&rights),
        ram_rights: all.get(..setups::pages(ram.len())).unwrap_or(&all),
    };
    bench::step(z, x, ram, row.word, lent)
}

// Sets a row up over as much of flash and RAM as it asks, steps, and tells what came: in a Text, since how its `same` compares is proved. No row's
// text has more than 128 bytes.
pub(crate) fn stepped(row: Row, flash: &[u8], ram: &[u8]) -> Text {
    let flash = flash.get(..row.flash).unwrap_or(flash);
    let ram = ram.get(..row.ram).unwrap_or(ram);
    let before = setups::file(row.vl);
    let mut file = before;
    let z = &mut file[..setups::file_bytes(row.vl)];
    let x_before = setups::scalars(row.x0);
    let mut x = x_before;
    let result = lent(row, z, &mut x, flash, ram);
    let targets = row.targets();
    let seen = Seen {
        result,
        x0: x[0],
        pc: x[32].wrapping_sub(x_before[32]),
        targets_kept: z.get(..targets) == before.get(..targets),
        rest_kept: z.get(targets..) == before.get(targets..z.len()) && x[1..32] == x_before[1..32],
    };
    let held = Held {
        vl: row.vl,
        z,
        flash,
        ram,
    };
    let mut text = Text::of(b"");
    let _ = write!(text, "{}", Came { row, seen, held });
    text
}

// The step for a host in C: `hosts::kjolvast_step` under its name, with the same promise. Each slice is a pointer and a length.
#![tactic(auto)]

ghost use Rattle.bench.specs.Lends.{lent_from, bench_of};
ghost use Rattle.hosts.specs.Hosts.{settings_of, map_of, HostPromise};

use hosts::StepNumbers;

// One step. What it may write is lent first, and RAM, to be read, beside that.
#[unsafe(no_mangle)]
pub extern "C" fn kjolvast_step<'a>(
    z: &mut [u8],
    x: &mut [u64],
    ram: &'a [u8],
    word: u32,
    vl: u64,
    simd: bool,
    sve: bool,
    f64mm: bool,
    p: &'a [u8],
    flash_start: u64,
    ram_start: u64,
    flash: &'a [u8],
    flash_rights: &'a [u8],
    ram_rights: &'a [u8],
) -> StepNumbers
    ensures { let l = lent_from (settings_of vl simd sve f64mm) p.now
        (map_of flash_start ram_start) flash.now flash_rights.now ram_rights.now in
        HostPromise l word (bench_of z.old x.old ram.now)
        result l (bench_of z.new x.new ram.now) }
{
    hosts::kjolvast_step(
        z,
        x,
        ram,
        word,
        vl,
        simd,
        sve,
        f64mm,
        p,
        flash_start,
        ram_start,
        flash,
        flash_rights,
        ram_rights,
    )
}

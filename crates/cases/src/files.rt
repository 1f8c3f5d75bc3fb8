// Pattern files at the edges: the smallest file both ways, a file cut at every length, every change of one byte, and lookup.
ghost use Rattle.std.specs.Prelude.{◌≤◌};

use crate::show;
use file::{LookupError, Whose};
use refusal::Refusal;
use std::io;

pub(crate) fn run(rt: HostRuntime) -> io::Result<()> {
    smallest(rt)?;
    find(rt)?;
    cuts(rt)?;
    changes(rt)
}

// Name W, pattern `A`.
fn smallest(rt: HostRuntime) -> io::Result<()> {
    let mut out = [0u8; 20];
    write(rt, &mut out)?;
    bytes(rt, b"file bytes", &out)?;
    let mut short = [7u8; 17];
    write(rt, &mut short)?;
    bytes(rt, b"file bytes", &short)
}

fn write(rt: HostRuntime, out: &mut [u8]) -> io::Result<()> {
    let answer = file::write_file(b"W       ", &[1], &[0, 0, 0, 0, 0], out);
    show::answer(rt, b"file written", answer)
}

// A name and then the bytes of a slice, on a line of their own.
fn bytes(rt: HostRuntime, name: &[u8], s: &[u8]) -> io::Result<()> {
    rt.write_all(name)?;
    for b in s {
        show::number(rt, u64::from(*b))?;
    }
    rt.write_all(b"\n")
}

// Site first; a name that is in neither, or malformed, is Absent; a broken file is refused, site examined first.
fn find(rt: HostRuntime) -> io::Result<()> {
    let site = two();
    let fleet = b"\x01W       \x0d\x00\x01\x00\x00\x00\x00\x00\x00";
    find_in(rt, &site, fleet)?;
    find_broken(rt, &site, fleet)?;
    parts_in(rt, &site, fleet)?;
    parts_of_both(rt, &site)
}

fn find_in(rt: HostRuntime, site: &[u8], fleet: &[u8]) -> io::Result<()> {
    looked(rt, b"lookup: STEP", site, fleet, b"STEP    ")?;
    looked(rt, b"lookup: W", site, fleet, b"W       ")?;
    looked(rt, b"lookup: W2", fleet, site, b"W2      ")?;
    looked(rt, b"lookup: X", site, fleet, b"X       ")?;
    looked(rt, b"lookup: seven bytes", site, fleet, b"STEP   ")
}

fn find_broken(rt: HostRuntime, site: &[u8], fleet: &[u8]) -> io::Result<()> {
    looked(rt, b"lookup: site broken", &site[0..0], fleet, b"W       ")?;
    looked(rt, b"lookup: fleet broken", site, &fleet[0..0], b"STEP    ")
}

// The part that a lookup returns: of the site file, of the fleet file, and empty where there is none.
fn parts_in<'a>(rt: HostRuntime, site: &'a [u8], fleet: &'a [u8]) -> io::Result<()> {
    part(
        rt,
        b"part: STEP, in the site file",
        site,
        fleet,
        b"STEP    ",
    )?;
    part(rt, b"part: W, in the fleet file", site, fleet, b"W       ")?;
    part(rt, b"part: X, in neither file", site, fleet, b"X       ")?;
    part(
        rt,
        b"part: STEP, fleet file broken",
        site,
        &fleet[0..0],
        b"STEP    ",
    )?;
    part(
        rt,
        b"part: W, site file broken",
        &site[0..0],
        fleet,
        b"W       ",
    )
}

// The pattern `D` under the name STEP, which the other file has too: the site's part is returned.
fn parts_of_both(rt: HostRuntime, two: &[u8]) -> io::Result<()> {
    let one = b"\x01STEP    \x0d\x00\x01\x00\x00\x03\x00\x00\x00";
    part(rt, b"part: STEP, in both files", two, one, b"STEP    ")?;
    part(
        rt,
        b"part: STEP, in both files, exchanged",
        one,
        two,
        b"STEP    ",
    )
}

fn part<'a>(
    rt: HostRuntime,
    name: &[u8],
    site: &'a [u8],
    fleet: &'a [u8],
    wanted: &[u8],
) -> io::Result<()> {
    bytes(rt, name, file::lookup(site, fleet, wanted))
}

// Prints the offset and the length of the body found, the site's; 1000 more for the fleet's.
fn looked(
    rt: HostRuntime,
    name: &[u8],
    site: &[u8],
    fleet: &[u8],
    wanted: &[u8],
) -> io::Result<()> {
    match file::looked_up(site, fleet, wanted) {
        Ok(found) => show::line(
            rt,
            name,
            0,
            owner(found.whose) + found.place.from as u64 % 1000,
            found.place.long as u64,
        ),
        Err(LookupError::Broken(whose, r)) => broken(rt, name, whose, r),
        Err(LookupError::Absent) => show::refused(rt, name, Refusal::Absent),
    }
}

fn owner(whose: Whose) -> u64
    ensures { result ≤ 1000 }
{
    match whose {
        Whose::Site => 0,
        Whose::Fleet => 1000,
    }
}

fn broken(rt: HostRuntime, name: &[u8], whose: Whose, r: Refusal) -> io::Result<()> {
    show::line(rt, name, r.number(), owner(whose), r.entry())
}

fn cuts(rt: HostRuntime) -> io::Result<()> {
    for n in 0..=45 {
        cut(rt, n)?;
    }
    Ok(())
}

fn cut(rt: HostRuntime, n: usize) -> io::Result<()> {
    match two().get(0..n) {
        Some(part) => show::done(rt, b"file cut:", file::check_file(part)),
        None => Ok(()),
    }
}

fn changes(rt: HostRuntime) -> io::Result<()> {
    for at in 0..45 {
        change_each(rt, at)?;
    }
    Ok(())
}

// All values of the byte at a place, on one line.
fn change_each(rt: HostRuntime, at: usize) -> io::Result<()> {
    rt.write_all(b"file byte")?;
    for value in 0..=255 {
        change(rt, at, value)?;
    }
    rt.write_all(b"\n")
}

fn change(rt: HostRuntime, at: usize, value: u8) -> io::Result<()> {
    let mut changed = two();
    show::store(&mut changed, at, value);
    match file::check_file(&changed) {
        Ok(()) => dotted(rt, 0, 0, 0),
        Err(r) => dotted(rt, r.number(), r.place(), r.entry()),
    }
}

fn dotted(rt: HostRuntime, first: u64, second: u64, third: u64) -> io::Result<()> {
    print!(rt; " {first}.{second}.{third}")
}

// `(A;B)` under the name STEP and `C` under the name W2.
fn two() -> [u8; 45] {
    [
        2, 83, 84, 69, 80, 32, 32, 32, 32, 25, 0, 3, 0, 87, 50, 32, 32, 32, 32, 32, 32, 40, 0, 1,
        0, 0, 0, 0, 0, 0, 0, 1, 0, 0, 0, 4, 0, 0, 0, 0, 0, 2, 0, 0, 0,
    ]
}

// What a case prints.
use refusal::Refusal;
use std::io;

// A name and three numbers, on a line of their own.
pub(crate) fn line(
    rt: HostRuntime,
    name: &[u8],
    first: u64,
    second: u64,
    third: u64,
) -> io::Result<()> {
    rt.write_all(name)?;
    number(rt, first)?;
    number(rt, second)?;
    number(rt, third)?;
    rt.write_all(b"\n")
}

// A refusal by its number, place and entry.
pub(crate) fn refused(rt: HostRuntime, name: &[u8], r: Refusal) -> io::Result<()> {
    line(rt, name, r.number(), r.place(), r.entry())
}

// The number that a call gives as the second, or its refusal.
pub(crate) fn answer(
    rt: HostRuntime,
    name: &[u8],
    answer: Result<usize, Refusal>,
) -> io::Result<()> {
    match answer {
        Ok(n) => line(rt, name, 0, n as u64, 0),
        Err(r) => refused(rt, name, r),
    }
}

// That a call was accepted, or its refusal.
pub(crate) fn done(rt: HostRuntime, name: &[u8], done: Result<(), Refusal>) -> io::Result<()> {
    answer(rt, name, done.map(|()| 0))
}

// Stores a value at a place, if there is such a place.
pub(crate) fn store<T: Copy>(values: &mut [T], at: usize, value: T) {
    if let Some(place) = values.get_mut(at) {
        *place = value;
    }
}

// The first bytes of a slice, if it has so many.
pub(crate) fn first(rt: HostRuntime, bytes: &[u8], n: usize) -> io::Result<()> {
    match bytes.get(0..n) {
        Some(part) => rt.write_all(part),
        None => Ok(()),
    }
}

// A number, after a space.
pub(crate) fn number(rt: HostRuntime, n: u64) -> io::Result<()> {
    print!(rt; " {n}")
}

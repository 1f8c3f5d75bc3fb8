// Bodies that keep the rules, and bodies that break each of them.
use crate::show;
use std::io;

pub(crate) fn run(rt: HostRuntime) -> io::Result<()> {
    check(rt, b"body: A", &[0, 0, 0, 0, 0])?;
    check(rt, b"body: type 31", &[0, 31, 0, 0, 0])?;
    check(rt, b"body: type 32", &[0, 32, 0, 0, 0])?;
    check(rt, b"body: type 256", &[0, 0, 1, 0, 0])?;
    check(rt, b"body: empty", &[])?;
    check(rt, b"body: 4 bytes", &[0, 0, 0, 0])?;
    check(rt, b"body: 6 bytes", &[0, 0, 0, 0, 0, 0])?;
    check(rt, b"body: op 6", &[6, 0, 0, 0, 0])?;
    check(rt, b"body: | without operands", &[1, 0, 0, 0, 0])?;
    check(rt, b"body: A ;", &[0, 0, 0, 0, 0, 4, 0, 0, 0, 0])?;
    check(rt, b"body: A B", &[0, 0, 0, 0, 0, 0, 1, 0, 0, 0])?;
    check(
        rt,
        b"body: A B ;",
        &[0, 0, 0, 0, 0, 0, 1, 0, 0, 0, 4, 0, 0, 0, 0],
    )?;
    check(
        rt,
        b"body: A B ; with an argument",
        &[0, 0, 0, 0, 0, 0, 1, 0, 0, 0, 4, 1, 0, 0, 0],
    )?;
    check(
        rt,
        b"body: A @4294967295",
        &[0, 0, 0, 0, 0, 5, 255, 255, 255, 255],
    )?;
    check(rt, b"body: @1", &[5, 1, 0, 0, 0])?;
    longest(rt)
}

// 63 letters are several trees, and a 64th is no entry.
fn longest(rt: HostRuntime) -> io::Result<()> {
    let many = [0u8; 315];
    check(rt, b"body: 63 letters", &many)?;
    let more = [0u8; 320];
    check(rt, b"body: 64 letters", &more)
}

fn check(rt: HostRuntime, name: &[u8], body: &[u8]) -> io::Result<()> {
    show::done(rt, name, body::check_body(body))
}

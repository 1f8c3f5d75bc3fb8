// Pattern text at the edges: the syntax places, the most entries, the most bytes, and reading back what was printed.
use crate::show;
use std::io;

pub(crate) fn run(rt: HostRuntime) -> io::Result<()> {
    read(rt, b"text: empty", b"")?;
    read(rt, b"text: (A;B", b"(A;B")?;
    read(rt, b"text: (A;B))", b"(A;B))")?;
    read(rt, b"text: (A@07)", b"(A@07)")?;
    read(rt, b"text: (A@4294967296)", b"(A@4294967296)")?;
    read(rt, b"text: g", b"g")?;
    read(rt, b"text: (A @1)", b"(A @1)")?;
    read(rt, b"text: (A@4294967295)", b"(A@4294967295)")?;
    read(rt, b"text: f", b"f")?;
    most(rt)?;
    print(rt, b"text back: ", b"(((S;P)@600)-Y)")?;
    print(rt, b"text back: ", b"(((B;B)@2)-(P|T))")?;
    print(rt, b"text back: ", b"((A+b)|(f@0))")
}

// 62 restrictions pass, 63 are Many; 1,024 bytes are read, 1,025 are Long.
fn most(rt: HostRuntime) -> io::Result<()> {
    read(
        rt,
        b"text: 62 restrictions",
        b"((((((((((((((((((((((((((((((((((((((((((((((((((((((((((((((A@1)@1)@1)@1)@1)@1)@1)@1)@1)@1)@1)@1)@1)@1)@1)@1)@1)@1)@1)@1)@1)@1)@1)@1)@1)@1)@1)@1)@1)@1)@1)@1)@1)@1)@1)@1)@1)@1)@1)@1)@1)@1)@1)@1)@1)@1)@1)@1)@1)@1)@1)@1)@1)@1)@1)@1)@1)@1)@1)@1)@1)@1)",
    )?;
    read(
        rt,
        b"text: 63 restrictions",
        b"(((((((((((((((((((((((((((((((((((((((((((((((((((((((((((((((A@1)@1)@1)@1)@1)@1)@1)@1)@1)@1)@1)@1)@1)@1)@1)@1)@1)@1)@1)@1)@1)@1)@1)@1)@1)@1)@1)@1)@1)@1)@1)@1)@1)@1)@1)@1)@1)@1)@1)@1)@1)@1)@1)@1)@1)@1)@1)@1)@1)@1)@1)@1)@1)@1)@1)@1)@1)@1)@1)@1)@1)@1)@1)",
    )?;
    let deep = [40u8; 1024];
    read(rt, b"text: 1,024 brackets", &deep)?;
    let long = [40u8; 1025];
    read(rt, b"text: 1,025 brackets", &long)
}

// Prints the bytes of body written, or the refusal.
fn read(rt: HostRuntime, name: &[u8], pattern: &[u8]) -> io::Result<()> {
    let mut body = [0u8; 315];
    show::answer(rt, name, text::read_pattern(pattern, &mut body))
}

// Prints the text that is printed from what was read.
fn print(rt: HostRuntime, name: &[u8], pattern: &[u8]) -> io::Result<()> {
    let mut body = [0u8; 315];
    let mut back = [0u8; 807];
    let long = match body_of(pattern, &mut body) {
        Some(body) => text::print_pattern(body, &mut back).unwrap_or(0),
        None => 0,
    };
    rt.write_all(name)?;
    show::first(rt, &back, long)?;
    rt.write_all(b"\n")
}

// The body of a pattern's text, as the first bytes of a slice; the empty body if the text is refused.
pub(crate) fn body_of<'a>(pattern: &[u8], body: &'a mut [u8]) -> Option<&'a [u8]> {
    let bytes = text::read_pattern(pattern, body).unwrap_or(0);
    body.get(0..bytes)
}

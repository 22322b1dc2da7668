// The program: reads a sheet from standard input and writes what is to be said of it.
#![tactic(auto)]

use answers::sizes;
use std::io::{self, Write};

// Writes the whole output for a text.
fn print<W: Write>(output: &mut W, text: &[u8]) -> io::Result<()> {
    let mut out = [0u8; report::LEAST_OUTPUT];
    // no text is refused: the buffer is long enough
    let size = report::report(text, &mut out).unwrap();
    output.write_all(&out[..size])
}

// One byte more than the most that a text may have: more would change nothing, and endless input comes to an end.
const ROOM: usize = sizes::MOST_TEXT + 1;

fn main(rt: HostRuntime) -> io::Result<()> {
    let mut text = [0u8; ROOM];
    let size = intake::read_all(&mut rt.stdin(), &mut text)?;
    print(&mut rt.stdout(), &text[..size])
}

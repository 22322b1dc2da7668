// Input into a buffer.
#![tactic(auto)]

ghost use Rattle.std.specs.Prelude.{◌≡◌, ◌+◌, ◌≤◌, length, IfOk, OnErr};

use std::io::{self, Read};

// Reads once into the buffer from a place on, and tells how many bytes came. An error is the reader's.
fn read_some<R: Read>(input: &mut R, buffer: &mut [u8], at: usize) -> io::Result<usize>
    requires { at ≤ length buffer.old }
    ensures ok { IfOk result (λ size. at + size ≤ length buffer.old) }
    ensures err { OnErr result (length buffer.new ≡ length buffer.old) }
{
    input.read(&mut buffer[at..])
}

// Reads until the input ends or the buffer is full, and tells how many bytes came. A read may bring fewer bytes than asked for. An error
// is the reader's, and comes where a read fails; the buffer is then as long as before, and what came may stand in it.
pub fn read_all<R: Read>(input: &mut R, buffer: &mut [u8]) -> io::Result<usize>
    ensures ok { IfOk result (λ size. size ≤ length buffer.old) }
    ensures err { OnErr result (length buffer.new ≡ length buffer.old) }
{
    let mut size = 0;
    while size < buffer.len() {
        let came = read_some(input, buffer, size)?;
        if came == 0 {
            return Ok(size);
        }
        size += came;
    }
    Ok(size)
}

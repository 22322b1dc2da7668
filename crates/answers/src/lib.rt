// What every call shares: how it answers.
#![tactic(auto)]

pub mod refused;
pub mod sizes;

ghost use Rattle.std.specs.Prelude.{◌≡◌, ◌<◌, ◌≤◌, ◌*◌, eqb, length};
ghost use Rattle.answers.specs.Refused.{told_of};
ghost use Rattle.answers.specs.Rows.{some_above, at};
ghost use Rattle.answers.specs.Sizes.{most_entities};

use refused::Refused;

// An answer number and the one value that goes with it: 0 on a refusal, and where there is nothing to tell.
#[repr(C)]
#[derive(Clone, Copy)]
pub struct Told {
    pub answer: u8,
    pub value: usize,
}

impl From<Result<usize, Refused>> for Told {
    ghost from_gives = { λ answer told. told ≡ told_of answer };

    fn from(answer: Result<usize, Refused>) -> Told {
        match answer {
            Ok(value) => Told { answer: 0, value },
            Err(why) => Told {
                answer: why as u8,
                value: 0,
            },
        }
    }
}

// Whether one of the first `used` bytes is above `most`. It does not stop at the first, so that many bytes are judged at once.
pub fn some_above(bytes: &[u8], used: usize, most: u8) -> bool
    requires { used ≤ length bytes.now }
    ensures { result ≡ some_above bytes.now used most }
{
    let mut some = false;
    for byte in &bytes[..used] {
        some |= *byte > most;
    }
    some
}

// N x N bytes, the one of x and y at x x N + y.
#[derive(Clone, Copy)]
pub struct Square<'a> {
    pub n: usize,
    pub bytes: &'a [u8],
    pub ghost few: { n ≤ most_entities },
    pub ghost room: { n * n ≤ length bytes.now },
}

impl<'a> Square<'a> {
    // The byte of x and y.
    pub fn byte(self, x: usize, y: usize) -> u8
        requires { (x < self.n) × (y < self.n) }
        ensures { result ≡ at self.entry.bytes.now self.entry.n x y }
    {
        self.bytes[x * self.n + y]
    }

    // Whether the byte of x and y is 1.
    pub fn holds(self, x: usize, y: usize) -> bool
        requires { (x < self.n) × (y < self.n) }
        ensures { result ≡ eqb (at self.entry.bytes.now self.entry.n x y) 1 }
    {
        self.byte(x, y) == 1
    }
}

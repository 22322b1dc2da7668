// The lines of a text: what each comes to, and where the next one begins.
#![tactic(auto)]

ghost use Rattle.std.specs.Prelude.{◌≡◌, true, ◌<◌, length};
ghost use Rattle.digits.specs.Digit.{digit_pairs, to_bytes};
ghost use Rattle.digits.specs.Line.{line as asLine};
ghost use Rattle.frames.specs.Frame.{of_three, of_four, frame_of, parse};
ghost use Rattle.parsing.specs.Inner.{FoundAt};

use answers::refused::Refused;
use digits::byte_at;
use frames::Frame;

// A line that was read, and where the next one begins.
#[derive(Clone, Copy)]
pub struct Found {
    pub parsed: Result<Frame, Refused>,
    pub next: usize,
}

#[tactic(auto, unfolding(frames::specs::Frame::of_three))]
fn of_three(kind: u8, a: u8, b: u8) -> Result<Frame, Refused>
    ensures { result ≡ of_three kind a b }
{
    match kind {
        2 => Ok(Frame::Assign(a, b)),
        4 => Ok(Frame::Separate(a, b)),
        5 => Ok(Frame::End(a, b)),
        _ => Err(Refused::NoFrame),
    }
}

#[tactic(auto, unfolding(frames::specs::Frame::of_four))]
fn of_four(kind: u8, a: u8, b: u8, c: u8) -> Result<Frame, Refused>
    ensures { result ≡ of_four kind a b c }
{
    match kind {
        1 => Ok(Frame::Header(a, b, c)),
        3 => Ok(Frame::Permit(a, b, c)),
        _ => Err(Refused::NoFrame),
    }
}

// The frame of a line of pairs of digits.
fn frame_of(line: &[u8]) -> Result<Frame, Refused>
    requires { digit_pairs line.now ≡ true }
    ensures { result ≡ frame_of (to_bytes line.now) }
{
    match line.len() {
        6 => of_three(byte_at(line, 0), byte_at(line, 2), byte_at(line, 4)),
        8 => of_four(
            byte_at(line, 0),
            byte_at(line, 2),
            byte_at(line, 4),
            byte_at(line, 6),
        ),
        _ => Err(Refused::NoFrame),
    }
}

// A line by itself; `ended` says whether a line feed stands after it.
#[tactic(auto, using(crate::proofs::Parses::line_laws))]
fn parse_line(line: &[u8], ended: bool) -> Result<Frame, Refused>
    ensures { result ≡ parse (asLine line.now ended) }
{
    if !ended || line.is_empty() || !digits::digit_pairs(line) {
        return Err(Refused::NoBytes);
    }
    frame_of(line)
}

// The line that starts at p.
pub fn parse_at(text: &[u8], p: usize) -> Found
    requires { p < length text.now }
    ensures { FoundAt text.now p result }
{
    let end = lines::end_of_line(text, p);
    let parsed = parse_line(&text[p..end], end < text.len());
    Found {
        parsed,
        next: end + 1,
    }
}

// What the lines of a text come to, one after the other.
#[derive(Drop)]
pub struct Lines<'a> {
    pub rest: &'a [u8],
}

impl<'a> Iterator for Lines<'a> {
    ghost use Rattle.std.specs.Iterator.{YieldsFirst, item_count};
    ghost use Rattle.parsing.specs.Inner.{lines_left};

    type Item = Result<Frame, Refused>;

    ghost next_gives = { YieldsFirst lines_left };

    ghost remaining = { item_count lines_left };

    fn next(&mut self) -> Option<Result<Frame, Refused>> {
        if self.rest.is_empty() {
            return None;
        }
        let found = parse_at(self.rest, 0);
        let next = self.rest.len().min(found.next);
        self.rest = &self.rest[next..];
        Some(found.parsed)
    }
}

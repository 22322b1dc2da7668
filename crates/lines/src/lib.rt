// Where the lines of a text lie.
#![tactic(auto)]

ghost use Rattle.std.specs.Prelude.{◌≡◌, ◌+◌, ◌≤◌, eqb, length, drop, position};
ghost use Rattle.digits.specs.Line.{feed, line_start, line_end};

// Where the first line feed stands.
fn first_feed(text: &[u8]) -> Option<usize>
    ensures { result ≡ position (λ b. eqb b feed) text.now }
{
    text.iter().position(|b| *b == b'\n')
}

// The end of the line that begins at `at`: its line feed, or the text's end.
pub fn end_of_line(text: &[u8], at: usize) -> usize
    requires { at ≤ length text.now }
    ensures { (result ≡ at + line_end (drop at text.now) 1) × (result ≤ length text.now) }
{
    match first_feed(&text[at..]) {
        Some(n) => at + n,
        None => text.len(),
    }
}

// The beginning of the line after the one that begins at `at`.
fn next_from(text: &[u8], at: usize) -> usize
    requires { at ≤ length text.now }
    ensures { (result ≡ at + line_start (drop at text.now) 2) × (result ≤ length text.now) }
{
    text.len().min(end_of_line(text, at) + 1)
}

// The beginning of the line of a number, counted from 1, or the text's end where there is no such line.
pub fn line_start(text: &[u8], line: usize) -> usize
    ensures { result ≡ line_start text.now line }
{
    if line == 0 {
        return text.len();
    }
    let mut at = 0;
    for _ in 1..line {
        if at == text.len() {
            return at;
        }
        at = next_from(text, at);
    }
    at
}

// The end of that line, at its line feed.
pub fn line_end(text: &[u8], line: usize) -> usize
    ensures { result ≡ line_end text.now line }
{
    let at = line_start(text, line);
    end_of_line(text, at)
}

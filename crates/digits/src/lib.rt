// Digits of lowercase hexadecimal, read and written, and lines of them.
#![tactic(auto)]

ghost use Rattle.std.specs.Prelude.{◌≡◌, true, [], ◌∷◌, ◌+◌, ◌*◌, ◌<◌, ◌≤◌, length};
ghost use Rattle.std.specs.List.{list_all};
ghost use Rattle.std.proofs.lemmas.List.Edits.{sets};
ghost use Rattle.digits.specs.Digit.{is_digit, digit_value, digit_byte, digit_pairs, to_digits};
ghost use Rattle.digits.specs.Line.{line_of};
ghost use Rattle.digits.specs.Inner.{digit_of, byte_at, DigitsAt, Put};

// The value of a digit, by the two ranges 0-9 and a-f; none for another byte.
#[tactic(auto, unfolding(crate::specs::Inner::digit_of, crate::specs::Digit::is_digit, crate::specs::Digit::digit_value))]
pub fn digit_of(b: u8) -> Option<u8>
    ensures { result ≡ digit_of b }
{
    match b {
        b'0'..=b'9' => Some(b - b'0'),
        b'a'..=b'f' => Some(b - b'a' + 10),
        _ => None,
    }
}

#[tactic(auto, unfolding(crate::specs::Inner::digit_of))]
fn is_digit(b: u8) -> bool
    ensures { result ≡ is_digit b }
{
    digit_of(b).is_some()
}

// The value of a byte that is a digit.
#[tactic(auto, unfolding(crate::specs::Inner::digit_of))]
fn digit_value(b: u8) -> u8
    requires { is_digit b ≡ true }
    ensures { result ≡ digit_value b }
{
    digit_of(b).unwrap()
}

fn all_digits(line: &[u8]) -> bool
    ensures { result ≡ list_all is_digit line.now }
{
    line.iter().all(|b| is_digit(*b))
}

// Whether a line is pairs of digits, and nothing else.
pub fn digit_pairs(line: &[u8]) -> bool
    ensures { result ≡ digit_pairs line.now }
{
    line.len() % 2 == 0 && all_digits(line)
}

// The byte that the two digits at i stand for, the high digit first.
#[tactic(auto, using(crate::proofs::Digits::value_low), unfolding(crate::specs::Inner::byte_at))]
pub fn byte_at(line: &[u8], i: usize) -> u8
    requires { DigitsAt line.now i }
    ensures { result ≡ byte_at line.now i }
{
    let high = digit_value(line[i]);
    let low = digit_value(line[i + 1]);
    high * 16 + low
}

// ---- writing bytes as digits, and a line of them

// The digit of a value below 16.
#[tactic(auto, unfolding(crate::specs::Digit::digit_byte))]
fn digit_byte(v: u8) -> u8
    requires { v < 16 }
    ensures { result ≡ digit_byte v }
{
    if v < 10 { b'0' + v } else { (b'a' - 10) + v }
}

// A byte as two digits, the high one first.
#[tactic(auto, unfolding(crate::specs::Digit::to_digits))]
fn put_byte(text: &mut [u8], at: usize, b: u8)
    requires { at + 2 ≤ length text.old }
    ensures { text.new ≡ sets text.old at (to_digits (b ∷ [])) }
{
    text[at] = digit_byte(b / 16);
    text[at + 1] = digit_byte(b % 16);
}

// The digits of bytes; the answer is the place past them.
pub fn put_bytes(text: &mut [u8], at: usize, bytes: &[u8]) -> usize
    requires { at + 2 * length bytes.now ≤ length text.old }
    ensures { Put (to_digits bytes.now) at text.old result text.new }
{
    for (i, b) in bytes.iter().enumerate() {
        put_byte(text, at + 2 * i, *b);
    }
    at + 2 * bytes.len()
}

// The line of bytes; the answer is the place past it.
#[tactic(auto, using(crate::proofs::Puts::digits_long))]
pub fn put_line(text: &mut [u8], at: usize, bytes: &[u8]) -> usize
    requires { at + 2 * length bytes.now < length text.old }
    ensures { Put (line_of bytes.now) at text.old result text.new }
{
    let end = put_bytes(text, at, bytes);
    text[end] = b'\n';
    end + 1
}

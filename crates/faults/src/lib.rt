// The faults of a line, as its rules list them.
#![tactic(auto)]

ghost use Rattle.std.specs.Prelude.{◌≡◌, Ok, leb, IfOk};
ghost use Rattle.answers.specs.Call.{first_refusal};
ghost use Rattle.answers.specs.Refused.{code};
ghost use Rattle.tables.specs.Sheet.{counts, entities};
ghost use Rattle.frames.specs.Frame.{key};
ghost use Rattle.frames.specs.Check.{misplaced, oversized, out_of_range, too_many, miscounted, frame_refusals, line_refusals};

use answers::refused::{Refused, first_refused};
use answers::sizes;
use frames::{Frame, Passed};
use tables::Counts;

#[tactic(auto, unfolding(frames::specs::Check::misplaced))]
fn is_misplaced(k: Passed, f: Frame) -> bool
    ensures { result ≡ misplaced k f }
{
    match f {
        Frame::Header(..) => k.lines > 0,
        _ => k.lines == 0,
    }
}

// The counts of a header.
pub fn header_counts(s: u8, o: u8, r: u8) -> Counts
    ensures { result ≡ counts s o r }
{
    Counts {
        subjects: usize::from(s),
        objects: usize::from(o),
        roles: usize::from(r),
    }
}

#[tactic(auto, unfolding(frames::specs::Check::oversized))]
fn is_oversized(f: Frame) -> bool
    ensures { result ≡ oversized f }
{
    match f {
        Frame::Header(s, o, r) => refusals::counts_exceed(header_counts(s, o, r)),
        _ => false,
    }
}

// Whether x is no entity; the sum of both counts is not formed, so it cannot wrap.
#[tactic(auto, using(crate::proofs::Faults::above_first))]
fn no_entity(c: Counts, x: u8) -> bool
    ensures { result ≡ leb (entities c) x }
{
    let x = usize::from(x);
    x >= c.subjects && x - c.subjects >= c.objects
}

#[tactic(auto, unfolding(frames::specs::Check::out_of_range))]
fn is_out_of_range(k: Passed, f: Frame) -> bool
    ensures { result ≡ out_of_range k f }
{
    let c = k.counts;
    match f {
        Frame::Assign(s, r) => usize::from(s) >= c.subjects || usize::from(r) >= c.roles,
        Frame::Permit(r, o, m) => {
            usize::from(r) >= c.roles || usize::from(o) >= c.objects || m < 1 || m > 3
        }
        Frame::Separate(x, y) => no_entity(c, x) || no_entity(c, y),
        _ => false,
    }
}

#[tactic(auto, unfolding(frames::specs::Check::too_many))]
fn is_too_many(k: Passed, f: Frame) -> bool
    ensures { result ≡ too_many k f }
{
    matches!(f, Frame::Separate(..)) && k.separations >= sizes::MOST_SEPARATIONS
}

#[tactic(auto, unfolding(frames::specs::Check::miscounted))]
fn is_miscounted(k: Passed, f: Frame) -> bool
    ensures { result ≡ miscounted k f }
{
    match f {
        Frame::End(h, l) => usize::from(h) * 256 + usize::from(l) != k.lines,
        _ => false,
    }
}

// The number by which lines ascend: the first three bytes of a line.
#[tactic(auto, unfolding(frames::specs::Frame::key))]
pub fn key_of(f: Frame) -> usize
    ensures { result ≡ key f }
{
    let (kind, a, b) = match f {
        Frame::Header(s, o, _) => (1, s, o),
        Frame::Assign(s, r) => (2, s, r),
        Frame::Permit(r, o, _) => (3, r, o),
        Frame::Separate(x, y) => (4, x, y),
        Frame::End(h, l) => (5, h, l),
    };
    kind * 65536 + usize::from(a) * 256 + usize::from(b)
}

fn frame_fault(k: Passed, f: Frame) -> Result<(), Refused>
    ensures { code result ≡ first_refusal (frame_refusals k f) }
{
    first_refused(&[
        (is_misplaced(k, f), Refused::Misplaced),
        (is_oversized(f), Refused::Oversized),
        (is_out_of_range(k, f), Refused::OutOfRange),
        (key_of(f) <= k.last, Refused::NotAscending),
        (is_too_many(k, f), Refused::TooMany),
        (is_miscounted(k, f), Refused::NoEnd),
    ])
}

// The frame of a line that has no fault. What a line after the end is like is not looked at.
pub fn passing_frame(k: Passed, line: Result<Frame, Refused>) -> Result<Frame, Refused>
    ensures fault { code result ≡ first_refusal (line_refusals k line) }
    ensures frame { IfOk result (λ f. line ≡ Ok f) }
{
    if k.ended {
        return Err(Refused::NoEnd);
    }
    let frame = line?;
    frame_fault(k, frame)?;
    Ok(frame)
}

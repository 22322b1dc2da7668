// The check of a whole text.
#![tactic(auto)]

ghost use Rattle.std.specs.Prelude.{◌≡◌, ◌+◌, Ok, MatchResult};
ghost use Rattle.answers.specs.Call.{first_refusal};
ghost use Rattle.answers.specs.Refused.{number};
ghost use Rattle.frames.specs.Check.{next as after, line_refusals};
ghost use Rattle.checking.specs.Inner.{Countable, Checks};

use answers::refused::Refused;
use frames::{Frame, Passed, RefusedText};
use parsing::Lines;

// After one more line.
#[tactic(auto, unfolding(frames::specs::Check::next))]
pub fn state_after(k: Passed, f: Frame) -> Passed
    requires { Countable k }
    ensures { result ≡ after k f }
{
    let mut after = Passed {
        lines: k.lines + 1,
        last: faults::key_of(f),
        ..k
    };
    match f {
        Frame::Header(s, o, r) => after.counts = faults::header_counts(s, o, r),
        Frame::Separate(..) => after.separations += 1,
        Frame::End(..) => after.ended = true,
        _ => {}
    }
    after
}

// The frame of the next line, or the refusal of the text at it.
fn next_frame(k: Passed, line: Result<Frame, Refused>) -> Result<Frame, RefusedText>
    requires { Countable k }
    ensures { MatchResult result (λ f. (line ≡ Ok f) × (first_refusal (line_refusals k line) ≡ 0)) (λ r. (number r.why ≡ first_refusal (line_refusals k line)) × (r.line ≡ k.lines + 1)) }
{
    faults::passing_frame(k, line).map_err(|why| RefusedText {
        why,
        line: k.lines + 1,
    })
}

// The first pass over a text: it checks everything and changes nothing. What is known of the lines that passed, or the refusal.
pub fn check_text(text: &[u8]) -> Result<Passed, RefusedText>
    ensures { Checks text.now result }
{
    let lines = Lines { rest: text };
    let mut k = Passed::start();
    for line in lines {
        let frame = next_frame(k, line)?;
        k = state_after(k, frame);
    }
    if k.ended {
        return Ok(k);
    }
    let line = k.lines + 1;
    Err(RefusedText {
        why: Refused::NoEnd,
        line,
    })
}

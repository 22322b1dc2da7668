// Broken separations and shown chains, over any relation of channels: definitions and laws. No code but what judging answers.
#![tactic(auto)]

ghost use Rattle.std.specs.Prelude.{◌≡◌};
ghost use Rattle.separations.specs.Judgement.{judged_of};

use answers::refused::Refused;

// The first broken separation: its position, and how many entities its chain has.
#[derive(Clone, Copy)]
pub struct Breach {
    pub position: usize,
    pub count: usize,
}

// What C is told of a judgement: the number, and the position and the chain count of the first broken separation.
#[repr(C)]
#[derive(Clone, Copy)]
pub struct Judged {
    pub answer: u8,
    pub position: usize,
    pub count: usize,
}

impl From<Result<Option<Breach>, Refused>> for Judged {
    ghost from_gives = { λ answer judged. judged ≡ judged_of answer };

    fn from(answer: Result<Option<Breach>, Refused>) -> Judged {
        match answer {
            Ok(Some(Breach { position, count })) => Judged {
                answer: 14,
                position,
                count,
            },
            Ok(None) => Judged {
                answer: 0,
                position: 0,
                count: 0,
            },
            Err(why) => Judged {
                answer: why as u8,
                position: 0,
                count: 0,
            },
        }
    }
}

// The frames of a sheet's text, and the check of a whole text: types, definitions and laws.
#![tactic(auto)]

ghost use Rattle.std.specs.Prelude.{◌≡◌};
ghost use Rattle.frames.specs.Check.{start};

use answers::refused::Refused;
use tables::Counts;

// One line of a sheet.
#[derive(Clone, Copy)]
pub enum Frame {
    Header(u8, u8, u8),
    Assign(u8, u8),
    Permit(u8, u8, u8),
    Separate(u8, u8),
    End(u8, u8),
}

// What is known of the lines that were read.
#[derive(Clone, Copy)]
pub struct Passed {
    pub lines: usize,
    pub ended: bool,
    pub counts: Counts,
    pub last: usize,
    pub separations: usize,
}

impl Passed {
    // Before the first line.
    #[tactic(auto, unfolding(crate::specs::Check::start))]
    pub fn start() -> Passed
        ensures { result ≡ start }
    {
        Passed {
            lines: 0,
            ended: false,
            counts: Counts {
                subjects: 0,
                objects: 0,
                roles: 0,
            },
            last: 0,
            separations: 0,
        }
    }
}

// Why a text is refused, and at which line: counted from 1.
#[derive(Clone, Copy)]
pub struct RefusedText {
    pub why: Refused,
    pub line: usize,
}

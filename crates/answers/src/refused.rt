// Why a call refuses, and the list of rules that it goes by.
ghost use Rattle.std.specs.Prelude.{◌≡◌};
ghost use Rattle.answers.specs.Call.{first_refusal};
ghost use Rattle.answers.specs.Refused.{number, code, listed};

// Document 01, "Answer numbers": `why as u8` is the number. 0 is no refusal, 14 a finding, and 16 stands in verdict bytes only.
#[derive(Clone, Copy, Debug, PartialEq, Eq)]
pub enum Refused {
    ShortBuffer = 1,
    NoBytes = 2,
    NoFrame = 3,
    Misplaced = 4,
    Oversized = 5,
    OutOfRange = 6,
    NotAscending = 7,
    TooMany = 8,
    NoEnd = 9,
    NoEntity = 10,
    TableByte = 11,
    FlowByte = 12,
    NoChain = 13,
    RaggedList = 15,
    FullTally = 17,
}

impl From<Refused> for u8 {
    ghost from_gives = { λ why n. n ≡ number why };

    fn from(why: Refused) -> u8 {
        why as u8
    }
}

// The number that C is told: 0 where nothing is refused.
pub fn answer_of(refusal: Result<(), Refused>) -> u8
    ensures { result ≡ code refusal }
{
    match refusal {
        Ok(()) => 0,
        Err(why) => u8::from(why),
    }
}

// The first of the rules whose test holds refuses.
pub fn first_refused(rules: &[(bool, Refused)]) -> Result<(), Refused>
    ensures { code result ≡ first_refusal (listed rules.now) }
{
    for (test, why) in rules {
        if *test {
            return Err(*why);
        }
    }
    Ok(())
}

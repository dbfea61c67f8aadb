// What a call answers: done, or one of the refusals N-1 to N-17. One error enum for every crate, so that a
// caller reads one table.
#![tactic(auto)]

ghost use Rattle.std.specs.Prelude.{◌≡◌};
ghost use Rattle.answer.specs.Number.{number_of, refusal_number};

#[derive(Clone, Copy, Debug, PartialEq, Eq)]
pub enum Refusal {
    BadSetup,
    WrongState,
    BadLength,
    BadFrame,
    Full,
    Overflow,
    BadHandle,
    BadClock,
    Short,
    BadKind,
    BadBool,
    TooLong,
    Extra,
    NotSynchronized,
    NotEnoughData,
    PredictionThreshold,
    SpectatorTooFarBehind,
}

pub type Answer = Result<(), Refusal>;

// 0 for done, else the refusal's number.
// A function and no `From`: docs/API.md names it.
pub fn number_of(answer: Answer) -> u32
    ensures { result ≡ number_of answer }
{
    match answer {
        Ok(()) => 0,
        Err(refusal) => refusal.number(),
    }
}

impl Refusal {
    // The number of N-1 to N-17. A method and no `From`: docs/API.md names it.
    pub fn number(self) -> u32
        ensures { result ≡ refusal_number self }
    {
        match self {
            Refusal::BadSetup => 1,
            Refusal::WrongState => 2,
            Refusal::BadLength => 3,
            Refusal::BadFrame => 4,
            Refusal::Full => 5,
            Refusal::Overflow => 6,
            Refusal::BadHandle => 7,
            Refusal::BadClock => 8,
            Refusal::Short => 9,
            Refusal::BadKind => 10,
            Refusal::BadBool => 11,
            Refusal::TooLong => 12,
            Refusal::Extra => 13,
            Refusal::NotSynchronized => 14,
            Refusal::NotEnoughData => 15,
            Refusal::PredictionThreshold => 16,
            Refusal::SpectatorTooFarBehind => 17,
        }
    }
}

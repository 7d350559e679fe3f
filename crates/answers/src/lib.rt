// The table of answers: how a call ended, with the number and the place that are handed back.
#![tactic(auto)]

ghost use Rattle.std.specs.Prelude.{◌≡◌};
ghost use Rattle.answers.specs.Answers.{number_of, answer_place};

// How a call ended; each refusal with the place that it names.
#[derive(Clone, Copy, PartialEq, Eq)]
pub enum Answer {
    Accepted,
    WrongLength,
    WrongMapSum,
    BadNumber(usize),
    CopiesDiffer(usize),
    BadEntry(usize),
    ReservedInUse(usize),
    WrongTicket(usize),
    DoesNotFit,
    OutOfRange,
    CountTooHigh(usize),
}

impl Answer {
    // The number that is handed back, 0 to 10.
    pub fn number(self) -> u8
        ensures { result ≡ number_of self }
    {
        match self {
            Answer::Accepted => 0,
            Answer::WrongLength => 1,
            Answer::WrongMapSum => 2,
            Answer::BadNumber(_) => 3,
            Answer::CopiesDiffer(_) => 4,
            Answer::BadEntry(_) => 5,
            Answer::ReservedInUse(_) => 6,
            Answer::WrongTicket(_) => 7,
            Answer::DoesNotFit => 8,
            Answer::OutOfRange => 9,
            Answer::CountTooHigh(_) => 10,
        }
    }

    // The place that is handed back, 0 where the answer names none.
    pub fn place(self) -> usize
        ensures { result ≡ answer_place self }
    {
        match self {
            Answer::BadNumber(block) | Answer::ReservedInUse(block) | Answer::CountTooHigh(block) =>
                block,
            Answer::CopiesDiffer(slot) | Answer::BadEntry(slot) => slot,
            Answer::WrongTicket(sector) => sector,
            Answer::Accepted
            | Answer::WrongLength
            | Answer::WrongMapSum
            | Answer::DoesNotFit
            | Answer::OutOfRange => 0,
        }
    }
}

// What the model answers (document 01, "Refusal numbers", the paragraph under the table; docs/MANUAL.md, "Refusals").
#![tactic(auto)]

ghost use Rattle.std.specs.Prelude.{◌≡◌};
ghost use Rattle.answer.specs.declared.Answer.TheVariants.{Refused};
ghost use Rattle.answer.specs.Answer.{refusal_number, returned, is_done};

// Why something is refused, in the order of its numbers. (A recording's malformed number; a code that no operation has; no reset yet; a
// field, an encoding or a bank outside its list; a level that does not let the operation happen; a room that is too short; a state
// that is not sound; a processor that is halted, or is not; a sum past the largest number.)
#[derive(Clone, Copy, Debug, PartialEq, Eq)]
pub enum Refusal {
    MalformedNumber,
    UnknownCode,
    NotReset,
    OutsideList,
    WrongLevel,
    RoomTooShort,
    NotSound,
    WrongHalted,
    SumPasses,
}

impl Refusal {
    // Its number in the table.
    pub fn number(self) -> u64
        ensures { result ≡ refusal_number self }
    {
        match self {
            Refusal::MalformedNumber => 1,
            Refusal::UnknownCode => 2,
            Refusal::NotReset => 3,
            Refusal::OutsideList => 4,
            Refusal::WrongLevel => 5,
            Refusal::RoomTooShort => 6,
            Refusal::NotSound => 7,
            Refusal::WrongHalted => 8,
            Refusal::SumPasses => 9,
        }
    }
}

impl From<Refusal> for Answer {
    ghost from_gives = { λ refusal answer. answer ≡ Refused (refusal_number refusal) };

    fn from(refusal: Refusal) -> Answer {
        Answer::Refused(refusal.number())
    }
}

// An answer. Steps, accesses, the bank view, and the reader and writer of recordings answer with it.
#[derive(Clone, Copy)]
pub enum Answer {
    // Done, with nothing to show.
    Done,
    // Done, and what it shows.
    Value(u64),
    // The access is undefined: like the two below, accepted and not performed.
    Undefined,
    // Trapped to EL2.
    Trap2,
    // Trapped to EL3.
    Trap3,
    // The number of the refusal. (A number: `line::write_line` promises a line for each.)
    Refused(u64),
}

// An answer as its two numbers.
#[repr(C)]
#[derive(Clone, Copy)]
pub struct Returned {
    pub number: u64,
    pub value: u64,
}

impl Answer {
    // The number of a refusal, or 0, 100, 102 or 103.
    pub fn number(self) -> u64
        ensures { result ≡ (returned self).number }
    {
        match self {
            Answer::Done => 0,
            Answer::Value(_) => 0,
            Answer::Undefined => 100,
            Answer::Trap2 => 102,
            Answer::Trap3 => 103,
            Answer::Refused(n) => n,
        }
    }

    // What it shows, and 0 where it shows nothing.
    pub fn value(self) -> u64
        ensures { result ≡ (returned self).value }
    {
        match self {
            Answer::Done => 0,
            Answer::Value(v) => v,
            Answer::Undefined => 0,
            Answer::Trap2 => 0,
            Answer::Trap3 => 0,
            Answer::Refused(_) => 0,
        }
    }

    // The answer of an access that was performed.
    pub fn is_done(self) -> bool
        ensures { result ≡ is_done self }
    {
        self.number() == 0
    }
}

impl From<Answer> for Returned {
    ghost from_gives = { λ answer numbers. numbers ≡ returned answer };

    fn from(answer: Answer) -> Returned {
        Returned {
            number: answer.number(),
            value: answer.value(),
        }
    }
}

// The causes of 01, "Turned down", by name: why a call refuses.
ghost use Rattle.std.specs.Prelude.{◌≡◌};
ghost use Rattle.plan.specs.Causes as causes;

// A cause, with 01's number. 13 to 15 are of texts, listings and steps that are read back, 16 and 17 of records.
#[derive(Clone, Copy, Debug, PartialEq, Eq)]
pub enum Refusal {
    Prime = 1,
    Radix = 2,
    Range = 3,
    Length = 4,
    Residue = 5,
    Unreduced = 6,
    Entry = 7,
    Value = 8,
    Contradiction = 9,
    Room = 10,
    Step = 11,
    Digit = 12,
    Line = 13,
    Columns = 14,
    Foreign = 15,
    Records = 16,
    Unlisted = 17,
}

impl Refusal {
    // 01's number. A method and no `From<Refusal> for u8`, whose call would not say which number is meant.
    pub fn number(self) -> u8
        ensures { result ≡ causes.number self }
    {
        self as u8
    }
}

// What a call without values answers, as 01's number: 0 where it is accepted.
pub fn number_of(answer: Result<(), Refusal>) -> u8
    ensures { result ≡ causes.refusal_of answer }
{
    match answer {
        Ok(()) => 0,
        Err(refusal) => refusal.number(),
    }
}

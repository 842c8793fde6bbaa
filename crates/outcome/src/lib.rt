// What a job gives: why it refuses, and what a lent list holds afterwards. See specs/.
#![tactic(auto)]

ghost use Rattle.std.specs.Prelude.{◌≡◌, ◌≤◌, true, IsOk};
ghost use Rattle.outcome.specs.Refusing.{number_of, fault, judged};
ghost use Rattle.outcome.specs.Outcome.{need as needed, room as room_for};
ghost use Rattle.outcome.specs.declared.Refusal.TheVariants.{Refused};

// Why a call is refused: the list of refusals of documents 01 and 02, with its numbers. 8 and 12 are given no more.
#[derive(Clone, Copy, Debug, PartialEq, Eq)]
pub enum Reason {
    EndsTooSoon,
    TagOutOfPlace,
    HeaderWrong,
    NameWrong,
    NameTaken,
    TooLarge,
    FormulaWrong,
    ListTooShort,
    NoSuchShape,
    Falls,
    LengthsDiffer,
    RowsWrong,
    Astray,
    ShapeWrong,
    FittingsName,
    BallWrong,
    OutOfUse,
    EditWrong,
}

impl Reason {
    pub fn number(self) -> u8
        ensures { result ≡ number_of self }
    {
        match self {
            Reason::EndsTooSoon => 1,
            Reason::TagOutOfPlace => 2,
            Reason::HeaderWrong => 3,
            Reason::NameWrong => 4,
            Reason::NameTaken => 5,
            Reason::TooLarge => 6,
            Reason::FormulaWrong => 7,
            Reason::ListTooShort => 9,
            Reason::NoSuchShape => 10,
            Reason::Falls => 11,
            Reason::LengthsDiffer => 13,
            Reason::RowsWrong => 14,
            Reason::Astray => 15,
            Reason::ShapeWrong => 16,
            Reason::FittingsName => 17,
            Reason::BallWrong => 18,
            Reason::OutOfUse => 19,
            Reason::EditWrong => 20,
        }
    }

    // The fault for this reason at a place.
    pub fn at(self, place: usize) -> Fault
        ensures { result ≡ fault self place }
    {
        Fault {
            reason: self,
            place,
        }
    }
}

// What is wrong, and where: an offset in a sheet, an index in a list, or a length that is needed.
#[derive(Clone, Copy, Debug, PartialEq, Eq)]
pub struct Fault {
    pub reason: Reason,
    pub place: usize,
}

// A job's refusal; `Unfit` is one of the fittings sheet.
#[derive(Clone, Copy, Debug, PartialEq, Eq)]
pub enum Refusal {
    Refused(Fault),
    Unfit(Fault),
}

impl From<Fault> for Refusal {
    ghost from_gives = { λ f r. r ≡ Refused f };

    fn from(f: Fault) -> Refusal {
        Refusal::Refused(f)
    }
}

// One question of an order of questions: where the answer is no, the fault for this reason at this place.
pub fn need(yes: bool, reason: Reason, place: usize) -> Result<(), Fault>
    ensures asked { judged result ≡ needed yes (number_of reason) place }
    ensures so { IsOk result → yes ≡ true }
{
    if yes { Ok(()) } else { Err(reason.at(place)) }
}

// 9, an answer list is too short.
pub fn room(needed: usize, long: usize) -> Result<(), Fault>
    ensures asked { judged result ≡ room_for needed long }
    ensures so { IsOk result → needed ≤ long }
{
    need(needed <= long, Reason::ListTooShort, needed)
}

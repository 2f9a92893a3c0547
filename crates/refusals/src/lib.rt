// Why a call is refused: the numbers of documents 01 and 02, and what each says in words.
#![tactic(auto)]

ghost use Rattle.std.specs.Prelude.{◌≡◌};
ghost use Rattle.refusals.specs.Refusal.{refusal_number, refused_with};

use std::error::Error;
use std::fmt;

#[derive(Clone, Copy, Debug, PartialEq, Eq)]
pub enum Refusal {
    UnknownKind = 1,
    FieldOut = 2,
    ShiftAmount = 3,
    SrliwByZero = 4,
    ZeroDestination = 5,
    JalrOffset = 6,
    NoFlag = 7,
    NoRoom = 8,
    BadCount = 9,
    BadIdentifiers = 10,
    Unformed = 11,
    IllSorted = 12,
    UnfitRoles = 13,
    OutputTooShort = 14,
    JoinFlags = 15,
    JoinEdges = 16,
    VisitIllSorted = 17,
    TooManyVisits = 18,
    UnfitAsked = 19,
}

impl Refusal {
    // The number that a host is given. No number is turned into a refusal, so that there is no TryFrom.
    pub fn number(self) -> u64
        ensures { result ≡ refusal_number self }
    {
        self as u64
    }
}

// The number of what was refused, 0 where nothing was.
pub fn number_or_zero(checked: Result<(), Refusal>) -> u64
    ensures { result ≡ refused_with checked }
{
    match checked {
        Ok(()) => 0,
        Err(refusal) => refusal.number(),
    }
}

impl fmt::Display for Refusal {
    fn fmt<W: fmt::Write>(&self, f: &mut fmt::Formatter<W>) -> fmt::Result {
        f.write_str(match self {
            Refusal::UnknownKind => "the kind is not among the fifty",
            Refusal::FieldOut =>
                "a register that the kind uses is above 31, or the immediate is outside its format",
            Refusal::ShiftAmount => "the kind does not shift by so many bits",
            Refusal::SrliwByZero => "Srliw shifts by 0",
            Refusal::ZeroDestination => "the destination is x0",
            Refusal::JalrOffset => "Jalr has a register other than x0 and an offset other than 0",
            Refusal::NoFlag => "the flag is no value line of sort Bit",
            Refusal::NoRoom => "there is no room for what the call appends",
            Refusal::BadCount =>
                "a count is above its storage, or the next identifier is too large",
            Refusal::BadIdentifiers => "the identifiers do not rise, or one is that of a sort",
            Refusal::Unformed => "a line is not well formed",
            Refusal::IllSorted => "a line breaks the sort rule",
            Refusal::UnfitRoles => "a role is no line of its sort",
            Refusal::OutputTooShort => "the output is too short for the text",
            Refusal::JoinFlags =>
                "a flag, a kernel node or the starting flow is missing, or no value line of sort Bit",
            Refusal::JoinEdges => "an edge or a dispatch is malformed",
            Refusal::VisitIllSorted => "a visited line breaks the sort rule",
            Refusal::TooManyVisits => "the evaluation takes too many visits",
            Refusal::UnfitAsked => "the list or the asked line is not fit for an evaluation",
        })
    }
}

impl Error for Refusal {}

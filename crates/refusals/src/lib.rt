// The refusals of document 01, a case for each of its numbers.
#![tactic(auto)]

ghost use Rattle.std.specs.Prelude.{◌≡◌};
ghost use Rattle.refusals.specs.Numbers.{number};

#[derive(Clone, Copy, Debug, PartialEq, Eq)]
pub enum Refusal {
    // Loading a sheet.
    SheetTooLong = 10,
    BrokenRecord = 11,
    OutOfOrder = 12,
    OutOfRange = 13,
    MalformedRoot = 14,
    TooMany = 15,
    NoNode = 16,
    // Calls on a monitor.
    BadState = 20,
    UnknownSession = 21,
    UnknownEvent = 22,
    SessionClosed = 23,
    AlreadyThere = 24,
    Conflict = 25,
    CauseMissing = 26,
    NoRoom = 27,
    NoNumberLeft = 28,
    // The path question.
    PathLength = 31,
    MalformedPath = 32,
    NoRoot = 33,
    UnknownAccess = 34,
    // Saving and restoring.
    ShortBuffer = 41,
    MalformedImage = 42,
    UnlawfulImage = 43,
}

// The number that a host is told.
impl From<Refusal> for u32 {
    ghost from_gives = { λ r n. n ≡ number r };

    fn from(refusal: Refusal) -> u32 {
        refusal as u32
    }
}

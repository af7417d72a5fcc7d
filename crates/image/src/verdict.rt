// What linking answers: the refusals of the table, and whether one was given.
ghost use Rattle.std.specs.Prelude.{◌≡◌};
ghost use Rattle.image.specs.Verdict.{number};

// The refusals, in the order tried.
#[derive(Clone, Copy, Debug, PartialEq, Eq)]
pub enum Refusal {
    TooLong,
    ShelfBroken,
    LayoutBroken,
    LimitPassed,
    TextWrong,
    NameTaken,
    ImportMissing,
    NameShared,
    EntryName,
    EntryNotBare,
    EntryFields,
    DefaultWrong,
    DefaultBarred,
    ExtendeeAbsent,
    MessageMissing,
    EnumMissing,
    FieldClash,
    NoRoom,
}

// The first refusal that was given, with its place.
#[derive(Clone, Copy, Debug, PartialEq, Eq)]
pub struct Refused {
    pub refusal: Refusal,
    pub place: u32,
}

// No refusal, or the first that was given.
pub type Verdict = Result<(), Refused>;

impl Refusal {
    // The number of a refusal in the table.
    pub fn number(self) -> u32
        ensures { result ≡ number self }
    {
        match self {
            Refusal::TooLong => 1,
            Refusal::ShelfBroken => 2,
            Refusal::LayoutBroken => 3,
            Refusal::LimitPassed => 4,
            Refusal::TextWrong => 5,
            Refusal::NameTaken => 6,
            Refusal::ImportMissing => 7,
            Refusal::NameShared => 8,
            Refusal::EntryName => 9,
            Refusal::EntryNotBare => 10,
            Refusal::EntryFields => 11,
            Refusal::DefaultWrong => 12,
            Refusal::DefaultBarred => 13,
            Refusal::ExtendeeAbsent => 14,
            Refusal::MessageMissing => 15,
            Refusal::EnumMissing => 16,
            Refusal::FieldClash => 17,
            Refusal::NoRoom => 18,
        }
    }

    // The refusal, given at a place.
    pub fn at(self, place: u32) -> Refused
        ensures { result ≡ record { refusal = self; place = place } }
    {
        Refused {
            refusal: self,
            place,
        }
    }
}

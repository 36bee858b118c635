// The refusals of every call, under the names that the board's C header has for its own, and their numbers. Assumes nothing.
#![tactic(auto)]

ghost use Rattle.std.specs.Prelude.{◌≡◌};
ghost use Rattle.refusals.specs.Numbers.{number, number_in};

// Why a call is refused: document 01's table, in its order.
#[derive(Clone, Copy, Debug, PartialEq, Eq)]
pub enum Refusal {
    Unsound,
    Pages,
    Slots,
    StartLength,
    StartPage,
    StartRepeat,
    Priorities,
    NoSuchPage,
    AllServed,
    Area,
    PageBytes,
    NotCached,
    Length,
    Requests,
    Offset,
    Room,
    NoVictim,
}

impl Refusal {
    // Its number in document 01's table.
    pub fn number(self) -> u8
        ensures { result ≡ number self }
    {
        match self {
            Refusal::Unsound => 1,
            Refusal::Pages => 2,
            Refusal::Slots => 3,
            Refusal::StartLength => 4,
            Refusal::StartPage => 5,
            Refusal::StartRepeat => 6,
            Refusal::Priorities => 7,
            Refusal::NoSuchPage => 8,
            Refusal::AllServed => 9,
            Refusal::Area => 10,
            Refusal::PageBytes => 11,
            Refusal::NotCached => 12,
            Refusal::Length => 13,
            Refusal::Requests => 14,
            Refusal::Offset => 15,
            Refusal::Room => 16,
            Refusal::NoVictim => 17,
        }
    }
}

// The number of what is answered beside a value: 0 where nothing is refused.
pub fn number_in(refusal: Option<Refusal>) -> u8
    ensures { result ≡ number_in refusal }
{
    match refusal {
        Some(refusal) => refusal.number(),
        None => 0,
    }
}

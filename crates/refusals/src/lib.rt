// Why a call is refused, and the number that it answers then. A call that answers one has changed nothing.
#![tactic(auto)]

ghost use Rattle.std.specs.Prelude.{◌≡◌};

#[derive(Clone, Copy, PartialEq, Eq)]
pub enum Refusal {
    // Format: N is out of range, or a lent slice is too short for it.
    NoRoom = 1,
    // Any call but format: the store is not sound, or there is none.
    NotSound = 2,
    // Insert: no record is free.
    Full = 3,
    // Insert, reset: the deadline lies more than 2^36-1 ahead of elapsed.
    TooFar = 4,
    // 5 is never given: a deadline past the end of the block is parked.

    // Reset, remove: the key names no timer that is set.
    DeadKey = 6,
    // Poll: now is before elapsed.
    BackInTime = 7,
    // Format: the first turn is out of range.
    BadTurn = 8,
    // The gauge's light: a limit is below zero or no number.
    BadLimit = 9,
    // A board's tick: its time would pass 2^64-1.
    TimeOver = 10,
    // Insert, reset: the deadline lies more than an hour below elapsed.
    TooOld = 11,
    // Insert, reset, remove, next wake, and a poll at another now: a poll is in hand.
    PollInHand = 12,
    // The journal: a patch is opened while one is open, or closed while none is.
    BadPatch = 13,
}

impl Refusal {
    ghost use Rattle.refusals.specs.Numbers.{number};

    pub fn number(self) -> u64
        ensures { result ≡ number self }
    {
        self as u64
    }
}

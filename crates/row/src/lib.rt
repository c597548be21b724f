// The occupied row of a level: a u64 as 64 flags, the least significant bit for slot 0.
#![tactic(auto)]

ghost use Rattle.std.specs.Prelude.{◌≡◌, true, false, ◌^◌, ◌<◌};
ghost use Rattle.row.specs.Row.{flag_at, row_of, flagged, Lowest};

// The row in which the slot alone is occupied.
pub fn occupied_bit(slot: usize) -> u64
    requires { slot < 64 }
    ensures { result ≡ 2 ^ slot }
{
    1 << slot
}

// The row with the slot occupied.
pub fn set(occupied: u64, slot: usize) -> u64
    requires { slot < 64 }
    ensures { result ≡ row_of (flagged (flag_at occupied) slot true) }
{
    occupied | occupied_bit(slot)
}

// The row with the slot empty: the bit is currently set, so that an exclusive or clears it.
pub fn clear(occupied: u64, slot: usize) -> u64
    requires { (slot < 64) × (flag_at occupied slot ≡ true) }
    ensures { result ≡ row_of (flagged (flag_at occupied) slot false) }
{
    occupied ^ occupied_bit(slot)
}

// The lowest occupied slot.
pub fn first_slot(occupied: u64) -> usize
    requires { 0 < occupied }
    ensures { Lowest (flag_at occupied) 64 result }
{
    u64::trailing_zeros(occupied) as usize
}

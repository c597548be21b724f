// The wheel's times: the widths of the six levels, slots and their starts, the level of a deadline, and how far ahead one may lie.
#![tactic(auto)]

ghost use Rattle.std.specs.Prelude.{◌≡◌, ◌+◌, ◌-◌, ◌^◌, ◌<◌, eqb, ltb};
ghost use Rattle.times.specs.Times.{width, slot_of, start_at, level_of, floor, max_duration, block, block_end};

pub const NUM_LEVELS: usize = 6;

// The width of a slot at each level: each is 64 times the last.
pub const WIDTHS: [u64; NUM_LEVELS] = [1, 64, 4096, 262144, 16777216, 1073741824];

// The furthest ahead of elapsed that a deadline may lie.
pub const MAX_DURATION: u64 = (1 << (6 * NUM_LEVELS)) - 1;

// The length of a block, which the six levels span.
const BLOCK: u64 = 1 << (6 * NUM_LEVELS);

// The trailing bits that the level does not depend on, masked in to cap the possible leading zeros.
const SLOT_MASK: u64 = (1 << 6) - 1;

// The width of the level's slots.
pub fn slot_range(level: usize) -> u64
    requires { level < 6 }
    ensures { result ≡ width level }
{
    WIDTHS[level]
}

// The slot of a deadline at the level.
pub fn slot_for(when: u64, level: usize) -> usize
    requires { level < 6 }
    ensures { result ≡ slot_of when level }
{
    ((when >> (level * 6)) % 64) as usize
}

// Where the slot starts in the level's lap, 64 slots, that elapsed is in.
pub fn slot_start(elapsed: u64, level: usize, slot: usize) -> u64
    requires { (level < 6) × (slot < 64) }
    ensures { result ≡ start_at elapsed level slot }
{
    let laps = elapsed >> (level * 6 + 6);
    (laps * 64 + slot as u64) * slot_range(level)
}

// The level of a deadline that lies in elapsed's block, so that it is one of the six.
pub fn level_for(elapsed: u64, when: u64) -> usize
    requires { block elapsed ≡ block when }
    ensures { result ≡ level_of elapsed when }
{
    let masked = elapsed ^ when | SLOT_MASK;
    let leading_zeros = u64::leading_zeros(masked) as usize;
    let significant = 63 - leading_zeros;
    significant / 6
}

// Whether a deadline lies too far ahead of elapsed.
pub fn too_far(elapsed: u64, when: u64) -> bool
    ensures { result ≡ ltb max_duration (when - elapsed) }
{
    if when <= elapsed {
        return false;
    }
    MAX_DURATION < when - elapsed
}

// Whether a deadline lies in elapsed's block.
pub fn same_block(elapsed: u64, when: u64) -> bool
    ensures { result ≡ eqb (block when) (block elapsed) }
{
    when >> 36 == elapsed >> 36
}

// Whether a deadline lies in the block after elapsed's.
pub fn next_block(elapsed: u64, when: u64) -> bool
    ensures { result ≡ eqb (block when) (block elapsed + 1) }
{
    when >> 36 == (elapsed >> 36) + 1
}

// Where a deadline's block starts.
pub fn block_start(when: u64) -> u64
    ensures { result ≡ floor 6 when }
{
    (when >> 36) * BLOCK
}

// Whether elapsed's block has ended at the time.
pub fn block_over(elapsed: u64, time: u64) -> bool
    ensures { result ≡ ltb (block elapsed) (block time) }
{
    elapsed >> 36 < time >> 36
}

// Where the block after elapsed's starts, if that is a u64.
pub fn block_end(elapsed: u64) -> u64
    requires { block_end elapsed < 2 ^ 64 }
    ensures { result ≡ block_end elapsed }
{
    ((elapsed >> 36) + 1) * BLOCK
}

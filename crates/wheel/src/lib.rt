// The timer wheel: six levels of 64 slots, and the parking list for deadlines in the next block.
//
// A function is lent the wheel in parts, always in this order: elapsed, the occupied row of each level, and the list layer's
// `tops`, `heads`, `nexts`, `prevs` and `marks`. What it only reads, or only names in its contract, is shared.
#![tactic(auto)]

ghost use Rattle.std.specs.Prelude.{◌≡◌, ◌-◌, ◌^◌, ◌≤◌, ◌<◌};
ghost use Rattle.times.specs.Times.{level_of};
ghost use Rattle.contracts.specs.Tells.{Tells};
ghost use Rattle.links.specs.Links.{at};
ghost use Rattle.places.specs.Places.{slot_place, slots, expired, places};
ghost use Rattle.places.specs.Heads.{head_of};
ghost use Rattle.places.specs.Words.{tops_of};
ghost use Rattle.wheel.specs.Wheel.{Lists};
ghost use Rattle.wheel.specs.Limited.{start};
ghost use Rattle.wheel.specs.Expiration.{CanLook, Sees, NextIs, CanGo, GoesTo, WakeIs};
ghost use Rattle.wheel.specs.Words.{words, WheelWhole, Arrives, Comes, Pops, Leaves};
ghost use Rattle.wheel.specs.Words.{CanAdd, CanPush, CanPop, CanLeave};
ghost use Rattle.wheel.specs.Judged.{CanJudge};
ghost use Rattle.wheel.specs.Moves.{CanInsert, CanTake, CanMove, MovesOne, DrainsTo, CanPoll, PollsTo};

use places::Tops;

// Elapsed, the occupied row of each level, the list layer's state, and the list whose drain is in hand with the now of its
// poll (nobody and 0 if no poll is), as the caller keeps them.
#[derive(Clone, Copy)]
pub struct Wheel {
    pub elapsed: u64,
    pub occupied: [u64; 6],
    pub tops: Tops,
    pub hand: u16,
    pub until: u64,
}

// Indicates when a slot must be processed next. The parking list is told as slot 0 of level 6, where its place would lie.
#[derive(Clone, Copy)]
pub struct Expiration {
    pub level: usize,
    pub slot: usize,
    pub deadline: u64,
}

// The loose record `item`, with the deadline `when`, joins its slot of the level.
fn add_entry(
    elapsed: u64,
    occupied: &mut [u64; 6],
    tops: &[u16; 4],
    heads: &mut [[u16; 64]; 6],
    nexts: &mut [u16],
    prevs: &mut [u16],
    marks: &mut [u16],
    level: usize,
    when: u64,
    item: u16,
)
    requires { CanAdd (words elapsed occupied.old tops.now heads.old nexts.old prevs.old marks.old) level item }
    ensures { Arrives (words elapsed occupied.old tops.now heads.old nexts.old prevs.old marks.old)
        level when item (words elapsed occupied.new tops.now heads.new nexts.new prevs.new marks.new) }
{
    let slot = times::slot_for(when, level);
    places::push_slot(heads, nexts, prevs, marks, level, slot, item);
    occupied[level] = row::set(occupied[level], slot);
}

// The loose record `item` joins a list that is no slot.
pub fn push(
    elapsed: u64,
    occupied: &[u64; 6],
    tops: &mut [u16; 4],
    heads: &mut [[u16; 64]; 6],
    nexts: &mut [u16],
    prevs: &mut [u16],
    marks: &mut [u16],
    place: u16,
    item: u16,
)
    requires { CanPush (words elapsed occupied.now tops.old heads.old nexts.old prevs.old marks.old) place item }
    ensures { Comes (words elapsed occupied.now tops.old heads.old nexts.old prevs.old marks.old)
        place item (words elapsed occupied.now tops.new heads.new nexts.new prevs.new marks.new) }
{
    places::push(tops, heads, nexts, prevs, marks, place, item);
}

// The head of a list that is no slot leaves it, and is loose. From an empty one nobody does.
pub fn pop(
    elapsed: u64,
    occupied: &[u64; 6],
    tops: &mut [u16; 4],
    heads: &mut [[u16; 64]; 6],
    nexts: &mut [u16],
    prevs: &mut [u16],
    marks: &mut [u16],
    place: u16,
) -> u16
    requires { WheelWhole (words elapsed occupied.now tops.old heads.old nexts.old prevs.old marks.old) × (slots ≤ place) × (place < places) }
    ensures { Pops (words elapsed occupied.now tops.old heads.old nexts.old prevs.old marks.old)
        place result (words elapsed occupied.now tops.new heads.new nexts.new prevs.new marks.new) }
{
    places::pop(tops, heads, nexts, prevs, marks, place)
}

// The head of a slot leaves it, and is loose. From an empty one nobody does.
fn pop_entry(
    elapsed: u64,
    occupied: &mut [u64; 6],
    tops: &[u16; 4],
    heads: &mut [[u16; 64]; 6],
    nexts: &mut [u16],
    prevs: &mut [u16],
    marks: &mut [u16],
    level: usize,
    slot: usize,
) -> u16
    requires { CanPop (words elapsed occupied.old tops.now heads.old nexts.old prevs.old marks.old) level slot }
    ensures { Pops (words elapsed occupied.old tops.now heads.old nexts.old prevs.old marks.old)
        (slot_place level slot) result (words elapsed occupied.new tops.now heads.new nexts.new prevs.new marks.new) }
{
    let item = places::pop_slot(heads, nexts, prevs, marks, level, slot);
    if item == links::NOBODY {
        return item;
    }
    if heads[level][slot] != links::NOBODY {
        return item;
    }
    occupied[level] = row::clear(occupied[level], slot);
    item
}

// The record `item` leaves its list, whichever it is, and is loose.
pub fn remove(
    elapsed: u64,
    occupied: &mut [u64; 6],
    tops: &mut [u16; 4],
    heads: &mut [[u16; 64]; 6],
    nexts: &mut [u16],
    prevs: &mut [u16],
    marks: &mut [u16],
    item: u16,
)
    requires { CanLeave (words elapsed occupied.old tops.old heads.old nexts.old prevs.old marks.old) item }
    ensures { Leaves (words elapsed occupied.old tops.old heads.old nexts.old prevs.old marks.old)
        item (words elapsed occupied.new tops.new heads.new nexts.new prevs.new marks.new) }
{
    let place = marks[item as usize];
    places::remove(tops, heads, nexts, prevs, marks, item);
    if !places::is_slot(place) {
        return;
    }
    let level = places::level_of(place);
    let slot = places::slot_of(place);
    if heads[level][slot] != links::NOBODY {
        return;
    }
    occupied[level] = row::clear(occupied[level], slot);
}

// The first occupied slot, from elapsed on, of the lowest non-empty level: its lowest one, since none that elapsed has
// passed is occupied. Where no slot is, the parking list, of which `parking` is the head. It starts where its deadlines' block
// does: read off one of them, that is a u64 in the last block too.
pub fn next_expiration(
    elapsed: u64,
    occupied: &[u64; 6],
    deadlines: &[u64],
    parking: u16,
) -> Option<Expiration>
    requires { CanLook elapsed occupied.now deadlines.now parking }
    ensures { (L : Lists) → Sees (at deadlines.now) elapsed occupied.now parking L → NextIs elapsed L result }
{
    for level in 0..times::NUM_LEVELS {
        let row = occupied[level];
        if row != 0 {
            let slot = row::first_slot(row);
            let deadline = times::slot_start(elapsed, level, slot);
            return Some(Expiration {
                level,
                slot,
                deadline,
            });
        }
    }
    if parking == links::NOBODY {
        return None;
    }
    Some(Expiration {
        level: times::NUM_LEVELS,
        slot: 0,
        deadline: times::block_start(deadlines[parking as usize]),
    })
}

// When the wheel next has something to do: the start of what comes next, if anything does.
pub fn poll_at(elapsed: u64, occupied: &[u64; 6], deadlines: &[u64], parking: u16) -> Option<u64>
    requires { CanLook elapsed occupied.now deadlines.now parking }
    ensures { (L : Lists) → Sees (at deadlines.now) elapsed occupied.now parking L → WakeIs elapsed L result }
{
    let expiration = next_expiration(elapsed, occupied, deadlines, parking)?;
    Some(expiration.deadline)
}

// The loose record `item` is placed at the deadline `when`, which lies in elapsed's block.
pub fn insert(
    elapsed: u64,
    occupied: &mut [u64; 6],
    tops: &[u16; 4],
    heads: &mut [[u16; 64]; 6],
    nexts: &mut [u16],
    prevs: &mut [u16],
    marks: &mut [u16],
    when: u64,
    item: u16,
)
    requires { CanInsert (words elapsed occupied.old tops.now heads.old nexts.old prevs.old marks.old) when item }
    ensures { Arrives (words elapsed occupied.old tops.now heads.old nexts.old prevs.old marks.old)
        (level_of elapsed when) when item (words elapsed occupied.new tops.now heads.new nexts.new prevs.new marks.new) }
{
    let level = times::level_for(elapsed, when);
    add_entry(
        elapsed, occupied, tops, heads, nexts, prevs, marks, level, when, item,
    );
}

// The head of a slot, or of the parking list as slot 0 of level 6, leaves it, and is loose. From an empty one nobody does.
fn take_entry(
    elapsed: u64,
    occupied: &mut [u64; 6],
    tops: &mut [u16; 4],
    heads: &mut [[u16; 64]; 6],
    nexts: &mut [u16],
    prevs: &mut [u16],
    marks: &mut [u16],
    level: usize,
    slot: usize,
) -> u16
    requires { CanTake (words elapsed occupied.old tops.old heads.old nexts.old prevs.old marks.old) level slot }
    ensures { Pops (words elapsed occupied.old tops.old heads.old nexts.old prevs.old marks.old)
        (slot_place level slot) result (words elapsed occupied.new tops.new heads.new nexts.new prevs.new marks.new) }
{
    if level < times::NUM_LEVELS {
        return pop_entry(
            elapsed, occupied, tops, heads, nexts, prevs, marks, level, slot,
        );
    }
    pop(
        elapsed,
        occupied,
        tops,
        heads,
        nexts,
        prevs,
        marks,
        places::PARKING,
    )
}

// One move: the head of a list above level 0 goes to its slot one level down. From an empty list nobody does.
fn move_entry(
    elapsed: u64,
    occupied: &mut [u64; 6],
    tops: &mut [u16; 4],
    heads: &mut [[u16; 64]; 6],
    nexts: &mut [u16],
    prevs: &mut [u16],
    marks: &mut [u16],
    deadlines: &[u64],
    level: usize,
    slot: usize,
) -> u16
    requires { CanMove (words elapsed occupied.old tops.old heads.old nexts.old prevs.old marks.old) deadlines.now level slot }
    ensures { MovesOne (at deadlines.now) (words elapsed occupied.old tops.old heads.old nexts.old prevs.old marks.old)
        (level - 1) (slot_place level slot) result (words elapsed occupied.new tops.new heads.new nexts.new prevs.new marks.new) }
{
    let item = take_entry(
        elapsed, occupied, tops, heads, nexts, prevs, marks, level, slot,
    );
    if item == links::NOBODY {
        return item;
    }
    let when = deadlines[item as usize];
    add_entry(
        elapsed,
        occupied,
        tops,
        heads,
        nexts,
        prevs,
        marks,
        level - 1,
        when,
        item,
    );
    item
}

// A list above level 0 is drained: each entry, from the head, is moved one level down, `limit` of them at most. How many more
// could have been.
fn poll_expiration(
    elapsed: u64,
    occupied: &mut [u64; 6],
    tops: &mut [u16; 4],
    heads: &mut [[u16; 64]; 6],
    nexts: &mut [u16],
    prevs: &mut [u16],
    marks: &mut [u16],
    deadlines: &[u64],
    level: usize,
    slot: usize,
    limit: u64,
) -> u64
    requires { CanMove (words elapsed occupied.old tops.old heads.old nexts.old prevs.old marks.old) deadlines.now level slot }
    ensures { DrainsTo (at deadlines.now) (words elapsed occupied.old tops.old heads.old nexts.old prevs.old marks.old)
        (level - 1) (slot_place level slot) limit result (words elapsed occupied.new tops.new heads.new nexts.new prevs.new marks.new) }
{
    let mut left = limit;
    loop {
        if left == 0 {
            return left;
        }
        let item = move_entry(
            elapsed, occupied, tops, heads, nexts, prevs, marks, deadlines, level, slot,
        );
        if item == links::NOBODY {
            return left;
        }
        left -= 1;
    }
}

// The place of a slot, or of the parking list as slot 0 of level 6.
fn list_place(level: usize, slot: usize) -> u16
    requires { (slot < 64) × (slot_place level slot < expired) }
    ensures { result ≡ slot_place level slot }
{
    if level < times::NUM_LEVELS {
        return places::slot_place(level, slot);
    }
    places::PARKING
}

// The head of that list.
fn list_head(tops: &[u16; 4], heads: &[[u16; 64]; 6], level: usize, slot: usize) -> u16
    requires { (slot < 64) × (slot_place level slot < expired) }
    ensures { result ≡ head_of (tops_of tops.now) heads.now (slot_place level slot) }
{
    if level < times::NUM_LEVELS {
        return heads[level][slot];
    }
    places::first_parked(tops)
}

// Where the list of a slot starts, or the parking list, if that is a u64.
pub fn list_start(elapsed: u64, place: u16) -> u64
    requires { (place < expired) × (start elapsed place < 2 ^ 64) }
    ensures { result ≡ start elapsed place }
{
    if place == places::PARKING {
        return times::block_end(elapsed);
    }
    times::slot_start(elapsed, places::level_of(place), places::slot_of(place))
}

// What a poll hands out, or nobody, its moves and drains, and elapsed after it. With a drain in hand the poll has not ended:
// `hand` is its list, and else nobody.
#[derive(Clone, Copy)]
pub struct Polled {
    pub elapsed: u64,
    pub item: u16,
    pub hand: u16,
    pub moves: u64,
    pub drains: u64,
}

// Where a poll goes on: with the list whose drain is in hand, and if there is none with the first one.
fn next_list(
    elapsed: u64,
    occupied: &[u64; 6],
    deadlines: &[u64],
    parking: u16,
    hand: u16,
) -> Option<Expiration>
    requires { CanGo elapsed occupied.now deadlines.now parking hand }
    ensures { GoesTo (at deadlines.now) elapsed occupied.now parking hand result }
{
    if hand == links::NOBODY {
        return next_expiration(elapsed, occupied, deadlines, parking);
    }
    let level = places::level_of(hand);
    let slot = places::slot_of(hand);
    let deadline = list_start(elapsed, hand);
    Some(Expiration {
        level,
        slot,
        deadline,
    })
}

// A poll at `time`, document 01's now, with `limit` moves at most, while the expired stack is empty. Looks for the next list,
// which is `hand` if a drain is in hand, and drains it unless it is a slot of level 0.
pub fn poll(
    elapsed: u64,
    occupied: &mut [u64; 6],
    tops: &mut [u16; 4],
    heads: &mut [[u16; 64]; 6],
    nexts: &mut [u16],
    prevs: &mut [u16],
    marks: &mut [u16],
    deadlines: &[u64],
    hand: u16,
    time: u64,
    limit: u64,
) -> Polled
    requires { CanPoll (words elapsed occupied.old tops.old heads.old nexts.old prevs.old marks.old) deadlines.now hand time }
    ensures { PollsTo (at deadlines.now) time limit hand (words elapsed occupied.old tops.old heads.old nexts.old prevs.old marks.old)
        result.item result.hand result.moves result.drains (words result.elapsed occupied.new tops.new heads.new nexts.new prevs.new marks.new) }
{
    let mut e = elapsed;
    let mut place = hand;
    let mut left = limit;
    let mut moves = 0u64;
    let mut drains = 0u64;
    let item = loop {
        let next = next_list(e, occupied, deadlines, places::first_parked(tops), place);
        let Some(expiration) = next else {
            e = time;
            break links::NOBODY;
        };
        let level = expiration.level;
        let slot = expiration.slot;
        let deadline = expiration.deadline;
        if time < deadline {
            e = time;
            break links::NOBODY;
        }
        if level == 0 {
            break pop_entry(e, occupied, tops, heads, nexts, prevs, marks, level, slot);
        }
        left = poll_expiration(
            e, occupied, tops, heads, nexts, prevs, marks, deadlines, level, slot, left,
        );
        moves = limit - left;
        if list_head(tops, heads, level, slot) != links::NOBODY {
            place = list_place(level, slot);
            break links::NOBODY;
        }
        e = deadline;
        place = links::NOBODY;
        drains += 1;
    };
    Polled {
        elapsed: e,
        item,
        hand: place,
        moves,
        drains,
    }
}

// Whether every list is whole, and the rows name exactly the slots that have a head.
pub fn is_whole(
    elapsed: u64,
    occupied: &[u64; 6],
    tops: &[u16; 4],
    heads: &[[u16; 64]; 6],
    nexts: &[u16],
    prevs: &[u16],
    marks: &[u16],
) -> bool
    requires { CanJudge (words elapsed occupied.now tops.now heads.now nexts.now prevs.now marks.now) }
    ensures { Tells (WheelWhole (words elapsed occupied.now tops.now heads.now nexts.now prevs.now marks.now)) result }
{
    let mut left = places::count_of(tops);
    for level in 0..times::NUM_LEVELS {
        let walked = places::walk_level(tops, heads, nexts, prevs, marks, level, left);
        let Some(seen) = walked else {
            return false;
        };
        if seen.filled != occupied[level] {
            return false;
        }
        left = seen.left;
    }
    places::walk_rest(tops, heads, nexts, prevs, marks, left)
}

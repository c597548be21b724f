// The lists of the places: the slots of the six levels, the parking list, the expired stack and the free list.
#![tactic(auto)]

ghost use Rattle.std.specs.Prelude.{◌≡◌, ◌<◌, ltb};
ghost use Rattle.links.specs.Links.{links, Room};
ghost use Rattle.places.specs.Places.{slots, free, places, slot_place, level_at, slot_at};
ghost use Rattle.places.specs.Heads.{head_of, heads_with, tops_with, slot_head};
ghost use Rattle.places.specs.Words.{words, tops_of, Slotwise, count, head_at};
ghost use Rattle.places.specs.Words.{push, remove, pop, CanPush, CanRemove, CanPop, CanPushSlot, CanPopSlot};
ghost use Rattle.places.specs.Judge.{WalksLevel, rest};
ghost use Rattle.places.specs.Format.{formatted};

// A place is a number: slot s of level k is 64 k + s, and the three lists that are no slot follow, so that place / 64 is the height of
// every timer but an expired one. A record's mark is its place, or nobody while it is on its way from one to another.
// Retired is the last place, and has no list.
// No other crate knows the numbers: it asks the functions below.
pub const SLOTS: u16 = 384;

pub const PARKING: u16 = 384;

pub const EXPIRED: u16 = 385;

pub const FREE: u16 = 386;

const PLACES: u16 = 387;

pub const RETIRED: u16 = 387;

// How many records there are, and the heads of the lists that are no slot, as the caller keeps them. Here they are lent as the four
// words of `tops`. The heads of the slots are six times 64.
#[derive(Clone, Copy)]
pub struct Tops {
    pub n: u16,
    pub expired: u16,
    pub free: u16,
    pub parking: u16,
}

// The words of `tops`, of which no other crate knows the order.
pub fn tops_in(top: Tops) -> [u16; 4]
    ensures { tops_of result ≡ top }
{
    [top.n, top.expired, top.free, top.parking]
}

pub fn tops_of(tops: [u16; 4]) -> Tops
    ensures { result ≡ tops_of tops }
{
    Tops {
        n: tops[0],
        expired: tops[1],
        free: tops[2],
        parking: tops[3],
    }
}

// How many records there are, and the heads of the lists that are no slot.
pub fn count_of(tops: &[u16; 4]) -> u16
    ensures { result ≡ (tops_of tops.now).n }
{
    tops[0]
}

pub fn first_expired(tops: &[u16; 4]) -> u16
    ensures { result ≡ (tops_of tops.now).expired }
{
    tops[1]
}

pub fn first_free(tops: &[u16; 4]) -> u16
    ensures { result ≡ (tops_of tops.now).free }
{
    tops[2]
}

pub fn first_parked(tops: &[u16; 4]) -> u16
    ensures { result ≡ (tops_of tops.now).parking }
{
    tops[3]
}

pub fn slot_place(level: usize, slot: usize) -> u16
    requires { (level < 6) × (slot < 64) }
    ensures { result ≡ slot_place level slot }
{
    (64 * level + slot) as u16
}

// Whether it is a slot's, and then the level and the slot.
pub fn is_slot(place: u16) -> bool
    ensures { result ≡ ltb place slots }
{
    place < SLOTS
}

pub fn level_of(place: u16) -> usize
    ensures { result ≡ level_at place }
{
    place as usize / 64
}

pub fn slot_of(place: u16) -> usize
    ensures { result ≡ slot_at place }
{
    place as usize % 64
}

// Whether it is a list of timers, so that a record with this mark is pending: a slot's, the parking list or the expired stack.
pub fn is_pending(place: u16) -> bool
    ensures { result ≡ ltb place free }
{
    place < FREE
}

// The head of the place.
pub fn head_of(tops: &[u16; 4], heads: &[[u16; 64]; 6], place: u16) -> u16
    requires { place < places }
    ensures { result ≡ head_of (tops_of tops.now) heads.now place }
{
    if place < SLOTS {
        let k = place as usize / 64;
        let s = place as usize % 64;
        return heads[k][s];
    }
    if place == PARKING {
        return tops[3];
    }
    if place == EXPIRED {
        return tops[1];
    }
    tops[2]
}

// `item` becomes the head of the place, and every other head is kept. The four words are stored together: a list that is stored
// whole needs no law of its length.
fn set_head(tops: &mut [u16; 4], heads: &mut [[u16; 64]; 6], place: u16, item: u16)
    requires { place < places }
    ensures tops_value { tops_of tops.new ≡ tops_with (tops_of tops.old) place item }
    ensures heads_value { heads.new ≡ heads_with heads.old place item }
{
    if place < SLOTS {
        let k = place as usize / 64;
        let s = place as usize % 64;
        heads[k][s] = item;
        return;
    }
    if place == PARKING {
        *tops = [tops[0], tops[1], tops[2], item];
        return;
    }
    if place == EXPIRED {
        *tops = [tops[0], item, tops[2], tops[3]];
        return;
    }
    *tops = [tops[0], tops[1], item, tops[3]];
}

// The loose record `item` comes into the list of the place: to the head of the free list, to the tail of every other.
pub fn push(
    tops: &mut [u16; 4],
    heads: &mut [[u16; 64]; 6],
    nexts: &mut [u16],
    prevs: &mut [u16],
    marks: &mut [u16],
    place: u16,
    item: u16,
)
    requires { CanPush (words tops.old heads.old nexts.old prevs.old marks.old) place item }
    ensures { words tops.new heads.new nexts.new prevs.new marks.new ≡ push (words tops.old heads.old nexts.old prevs.old marks.old) place item }
{
    let head = head_of(tops, heads, place);
    if place == FREE {
        links::join(nexts, prevs, marks, place, item, head);
        set_head(tops, heads, place, item);
        return;
    }
    let first = links::add(nexts, prevs, marks, place, item, head);
    set_head(tops, heads, place, first);
}

// The record `item` leaves its list, wherever it stands there, and is loose.
pub fn remove(
    tops: &mut [u16; 4],
    heads: &mut [[u16; 64]; 6],
    nexts: &mut [u16],
    prevs: &mut [u16],
    marks: &mut [u16],
    item: u16,
)
    requires { CanRemove (words tops.old heads.old nexts.old prevs.old marks.old) item }
    ensures { words tops.new heads.new nexts.new prevs.new marks.new ≡ remove (words tops.old heads.old nexts.old prevs.old marks.old) item }
{
    let place = marks[item as usize];
    let head = head_of(tops, heads, place);
    let left = links::cut(nexts, prevs, marks, item, head);
    set_head(tops, heads, place, left);
}

// The head of the list of the place leaves it, and is loose. From an empty list nobody does.
pub fn pop(
    tops: &mut [u16; 4],
    heads: &mut [[u16; 64]; 6],
    nexts: &mut [u16],
    prevs: &mut [u16],
    marks: &mut [u16],
    place: u16,
) -> u16
    requires { CanPop (words tops.old heads.old nexts.old prevs.old marks.old) place }
    ensures value { result ≡ head_at (words tops.old heads.old nexts.old prevs.old marks.old) place }
    ensures marks_value { words tops.new heads.new nexts.new prevs.new marks.new ≡ pop (words tops.old heads.old nexts.old prevs.old marks.old) place }
{
    let item = head_of(tops, heads, place);
    if item == links::NOBODY {
        return item;
    }
    remove(tops, heads, nexts, prevs, marks, item);
    item
}

// The same two at a slot. What kind of place it is need not be asked, and `tops` has no part in it.
pub fn push_slot(
    heads: &mut [[u16; 64]; 6],
    nexts: &mut [u16],
    prevs: &mut [u16],
    marks: &mut [u16],
    level: usize,
    slot: usize,
    item: u16,
)
    requires { CanPushSlot heads.old (links nexts.old prevs.old marks.old) level slot item }
    ensures { Slotwise heads.old (links nexts.old prevs.old marks.old) heads.new (links nexts.new prevs.new marks.new) (λ t t'. t' ≡ push t (slot_place level slot) item) }
{
    let head = heads[level][slot];
    let first = links::add(nexts, prevs, marks, slot_place(level, slot), item, head);
    heads[level][slot] = first;
}

pub fn pop_slot(
    heads: &mut [[u16; 64]; 6],
    nexts: &mut [u16],
    prevs: &mut [u16],
    marks: &mut [u16],
    level: usize,
    slot: usize,
) -> u16
    requires { CanPopSlot heads.old (links nexts.old prevs.old marks.old) level slot }
    ensures value { result ≡ slot_head heads.old level slot }
    ensures slotwise { Slotwise heads.old (links nexts.old prevs.old marks.old) heads.new (links nexts.new prevs.new marks.new) (λ t t'. t' ≡ pop t (slot_place level slot)) }
{
    let item = heads[level][slot];
    if item == links::NOBODY {
        return item;
    }
    let left = links::cut(nexts, prevs, marks, item, item);
    heads[level][slot] = left;
    item
}

// How much room the lists of one level leave, and which of its slots have a head, as a row of flags.
#[derive(Clone, Copy)]
pub struct Level {
    pub left: u16,
    pub filled: u64,
}

// Walks the lists of the level, if none is wrong. Each head is looked at once.
pub fn walk_level(
    tops: &[u16; 4],
    heads: &[[u16; 64]; 6],
    nexts: &[u16],
    prevs: &[u16],
    marks: &[u16],
    level: usize,
    room: u16,
) -> Option<Level>
    requires level_bound { level < 6 }
    requires room { Room (count (words tops.now heads.now nexts.now prevs.now marks.now)) (links nexts.now prevs.now marks.now) }
    ensures { WalksLevel (words tops.now heads.now nexts.now prevs.now marks.now) level room result }
{
    let n = tops[0];
    let mut left = room;
    let mut filled = 0;
    for slot in 0..64 {
        let head = heads[level][slot];
        if head != links::NOBODY {
            let place = slot_place(level, slot);
            left = links::walk_list(nexts, prevs, marks, n, place, head, left)?;
            filled = row::set(filled, slot);
        }
    }
    Some(Level { left, filled })
}

// Whether the lists that are no slots are whole too, and the records that are left are just the loose ones.
pub fn walk_rest(
    tops: &[u16; 4],
    heads: &[[u16; 64]; 6],
    nexts: &[u16],
    prevs: &[u16],
    marks: &[u16],
    room: u16,
) -> bool
    requires { Room (count (words tops.now heads.now nexts.now prevs.now marks.now)) (links nexts.now prevs.now marks.now) }
    ensures { result ≡ rest (words tops.now heads.now nexts.now prevs.now marks.now) room }
{
    let n = tops[0];
    let mut left = room;
    for place in SLOTS..PLACES {
        let head = head_of(tops, heads, place);
        let Some(l) = links::walk_list(nexts, prevs, marks, n, place, head, left) else {
            return false;
        };
        left = l;
    }
    left == links::count_loose(nexts, prevs, marks, n, PLACES)
}

// Every list is empty but the free one, which holds 0, 1, .., n - 1.
pub fn format(
    tops: &mut [u16; 4],
    heads: &mut [[u16; 64]; 6],
    nexts: &mut [u16],
    prevs: &mut [u16],
    marks: &mut [u16],
    n: u16,
)
    requires { (0 < n) × Room n (links nexts.old prevs.old marks.old) }
    ensures { words tops.new heads.new nexts.new prevs.new marks.new ≡ formatted n nexts.old prevs.old marks.old }
{
    *tops = [n, links::NOBODY, 0, links::NOBODY];
    *heads = [[links::NOBODY; 64]; 6];
    let mut prev = n - 1;
    for i in 0..n {
        let k = i as usize;
        prevs[k] = prev;
        marks[k] = FREE;
        nexts[k] = i + 1;
        prev = i;
    }
    nexts[prev as usize] = links::NOBODY;
}

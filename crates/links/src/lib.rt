// The links of the records: doubly linked lists of record numbers in lent slices. The heads are the caller's. A list keeps its tail in
// its head's back link, so that a list of one names itself there.
#![tactic(auto)]

ghost use Rattle.std.specs.Prelude.{◌≡◌, cond, ◌<◌, length, set, eqb};
ghost use Rattle.links.specs.Family.{tail_or};
ghost use Rattle.links.specs.Links.{links, at, set_n, between, joined, added, head_with, cut_out, head_after};
ghost use Rattle.links.specs.Links.{Room, Inside, CanJoin, CanCut};
ghost use Rattle.links.specs.Judge.{walk_of, bare, loose_of};

// The record number that means nobody.
pub const NOBODY: u16 = 65535;

// v at k, unless k is nobody.
fn put(l: &mut [u16], k: u16, v: u16)
    requires { Inside k l.old }
    ensures { l.new ≡ set_n l.old k v }
{
    if k != NOBODY {
        l[k as usize] = v;
    }
}

// The tail of the list whose first is `head`. An empty one has none: `none`.
fn tail_or(none: u16, prevs: &[u16], head: u16) -> u16
    requires { Inside head prevs.now }
    ensures { result ≡ tail_or none (at prevs.now) head }
{
    if head == NOBODY {
        return none;
    }
    prevs[head as usize]
}

// The one where k is j, the other where it is not.
fn choose(k: u16, j: u16, one: u16, other: u16) -> u16
    ensures { result ≡ cond (eqb k j) one other }
{
    if k == j { one } else { other }
}

// The loose record `item` comes between the tail and `head`, the first of `place`, and is marked.
fn enter(prevs: &mut [u16], marks: &mut [u16], place: u16, item: u16, head: u16)
    requires { (item < length prevs.old) × (item < length marks.old) × Inside head prevs.old }
    ensures prevs_value { prevs.new ≡ between prevs.old item head }
    ensures marks_value { marks.new ≡ set marks.old item place }
{
    let tail = tail_or(item, prevs, head);
    prevs[item as usize] = tail;
    put(prevs, head, item);
    marks[item as usize] = place;
}

// The loose record `item` comes in front of `head`, the first of `place`. The caller makes it the head.
pub fn join(
    nexts: &mut [u16],
    prevs: &mut [u16],
    marks: &mut [u16],
    place: u16,
    item: u16,
    head: u16,
)
    requires { CanJoin (links nexts.old prevs.old marks.old) item head }
    ensures { links nexts.new prevs.new marks.new ≡ joined (links nexts.old prevs.old marks.old) place item head }
{
    nexts[item as usize] = head;
    enter(prevs, marks, place, item, head);
}

// The loose record `item` comes after the tail of `place`, whose first is `head`. It has no link and gets none. The head that the list
// has then: the caller keeps it.
pub fn add(
    nexts: &mut [u16],
    prevs: &mut [u16],
    marks: &mut [u16],
    place: u16,
    item: u16,
    head: u16,
) -> u16
    requires { CanJoin (links nexts.old prevs.old marks.old) item head }
    ensures value { result ≡ head_with item head }
    ensures marks_value { links nexts.new prevs.new marks.new ≡ added (links nexts.old prevs.old marks.old) place item head }
{
    put(nexts, tail_or(NOBODY, prevs, head), item);
    enter(prevs, marks, place, item, head);
    choose(head, NOBODY, item, head)
}

// The record `item` leaves its list, whose first is `head`, and is loose. The head that the list has then: the caller keeps it.
// The link of the tail stays where the head leaves, and the head's back link follows where the tail leaves.
pub fn cut(nexts: &mut [u16], prevs: &mut [u16], marks: &mut [u16], item: u16, head: u16) -> u16
    requires { CanCut (links nexts.old prevs.old marks.old) item head }
    ensures value { result ≡ head_after (links nexts.old prevs.old marks.old) item head }
    ensures marks_value { links nexts.new prevs.new marks.new ≡ cut_out (links nexts.old prevs.old marks.old) item head }
{
    let prev = prevs[item as usize];
    let next = nexts[item as usize];
    let first = choose(item, head, next, head);
    put(nexts, choose(item, head, NOBODY, prev), next);
    put(prevs, choose(next, NOBODY, first, next), prev);
    nexts[item as usize] = NOBODY;
    prevs[item as usize] = NOBODY;
    marks[item as usize] = NOBODY;
    first
}

// Walks the list of `place` from its head on: each member is one of n records, has the mark of the place and the one before it for its
// back link. The head's is the tail. How much of the room its members leave, if the list is not wrong.
pub fn walk_list(
    nexts: &[u16],
    prevs: &[u16],
    marks: &[u16],
    n: u16,
    place: u16,
    head: u16,
    room: u16,
) -> Option<u16>
    requires { Room n (links nexts.now prevs.now marks.now) }
    ensures { result ≡ walk_of (links nexts.now prevs.now marks.now) n place room head }
{
    if head == NOBODY {
        return Some(room);
    }
    if n <= head {
        return None;
    }
    let tail = prevs[head as usize];
    let mut left = room;
    let mut prev = tail;
    let mut item = head;
    while item != NOBODY {
        let k = item as usize;
        if left == 0 {
            return None;
        }
        if n <= item {
            return None;
        }
        if marks[k] != place {
            return None;
        }
        if prevs[k] != prev {
            return None;
        }
        left -= 1;
        prev = item;
        item = nexts[k];
    }
    if prev != tail {
        return None;
    }
    Some(left)
}

// The mark is none of the places, and there is no link.
fn is_loose(places: u16, next: u16, prev: u16, mark: u16) -> bool
    ensures { result ≡ bare places next prev mark }
{
    places <= mark && next == NOBODY && prev == NOBODY
}

// How many of n records are loose.
pub fn count_loose(nexts: &[u16], prevs: &[u16], marks: &[u16], n: u16, places: u16) -> u16
    requires { Room n (links nexts.now prevs.now marks.now) }
    ensures { result ≡ loose_of places (links nexts.now prevs.now marks.now) n }
{
    let mut count = 0;
    for i in 0..n {
        let k = i as usize;
        if is_loose(places, nexts[k], prevs[k], marks[k]) {
            count += 1;
        }
    }
    count
}

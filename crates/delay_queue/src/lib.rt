// The delay queue: what users call. Whoever lends whatever gets an answer; an unsound store gets number 2 from every call but format.
#![tactic(auto)]

ghost use Rattle.records.specs.Words.{words};
ghost use Rattle.std.specs.Prelude.{◌≡◌};
ghost use Rattle.records.specs.Store.{wheel_of};
ghost use Rattle.delay_queue.specs.Claims.{FormatClaim, InsertClaim, ResetClaim, RemoveClaim};
ghost use Rattle.delay_queue.specs.Claims.{PollClaim, PollSomeClaim, WakeClaim, LengthClaim, ClearClaim};
ghost use Rattle.delay_queue.specs.Free.{FreeNo};
ghost use Rattle.refusals.specs.Numbers.{number, no_in};
ghost use Rattle.delay_queue.specs.NoStore.{NoStoreClaim};

use places::Tops;
use queue::Answer;
use refusals::Refusal;
use wheel::Wheel;

// A call, with its arguments in the papers' order.
#[derive(Clone, Copy)]
pub enum Call {
    // N, first turn
    Format(u64, u64),
    // value, when, period
    Insert(u64, u64, u64),
    // key, when
    Reset(u64, u64),
    // key
    Remove(u64),
    // now
    Poll(u64),
    // now, limit on moves
    PollSome(u64, u64),
    Wake,
    Length,
    Clear,
}

// The heads of the slots, 64 of each level, as a call hands them back.
#[derive(Clone, Copy)]
pub struct Heads {
    pub heads: [[u16; 64]; 6],
}

// An answer, and the state and the heads after the call.
#[derive(Clone, Copy)]
pub struct Reply {
    pub answer: Answer,
    pub state: Wheel,
    pub heads: Heads,
}

pub fn heads_of(heads: [[u16; 64]; 6]) -> Heads
    ensures { result.heads ≡ heads }
{
    Heads { heads }
}

pub fn heads_in(heads: Heads) -> [[u16; 64]; 6]
    ensures { result ≡ heads.heads }
{
    heads.heads
}

// No store yet, for the first format, which does not look at it. It has no record, so every other call answers number 2.
pub fn no_store() -> Wheel
    ensures { NoStoreClaim result }
{
    let occupied = [0u64; 6];
    let top = Tops {
        n: 0,
        expired: links::NOBODY,
        free: links::NOBODY,
        parking: links::NOBODY,
    };
    Wheel {
        elapsed: 0,
        occupied,
        tops: top,
        hand: links::NOBODY,
        until: 0,
    }
}

// The number alone, and everything handed back as it is.
fn refused(refusal: Refusal, state: Wheel, heads: [[u16; 64]; 6]) -> Reply
    ensures { (result.answer ≡ Answer.No (number refusal)) × (result.state ≡ state) × (result.heads.heads ≡ heads) }
{
    let answer = Answer::No(refusal.number());
    unchanged(answer, state, heads)
}

// An answer, and everything handed back as it is.
pub fn unchanged(answer: Answer, state: Wheel, heads: [[u16; 64]; 6]) -> Reply
    ensures { (result.answer ≡ answer) × (result.state ≡ state) × (result.heads.heads ≡ heads) }
{
    let h = heads_of(heads);
    Reply {
        answer,
        state,
        heads: h,
    }
}

// An answer, and the parts put together again.
fn packed(
    answer: Answer,
    elapsed: u64,
    occupied: [u64; 6],
    tops: [u16; 4],
    heads: [[u16; 64]; 6],
    hand: u16,
    until: u64,
) -> Reply
    ensures { (result.answer ≡ answer)
        × (result.state ≡ wheel_of elapsed occupied tops hand until) × (result.heads.heads ≡ heads) }
{
    let state = records::wheel_of(elapsed, occupied, tops, hand, until);
    unchanged(answer, state, heads)
}

// A call is refused with 2 by a store that is not sound, with 12 while a poll is in hand, or it may go on.
fn free_no(
    state: Wheel,
    heads: [[u16; 64]; 6],
    values: &[u64],
    deadlines: &[u64],
    nexts: &[u16],
    prevs: &[u16],
    turns: &[u64],
    marks: &[u16],
) -> Result<(), Refusal>
    ensures { FreeNo (words state heads values.now deadlines.now nexts.now prevs.now turns.now marks.now) (no_in result) }
{
    if !judge::is_sound(state, heads, values, deadlines, nexts, prevs, turns, marks) {
        return Err(Refusal::NotSound);
    }
    if state.hand != links::NOBODY {
        return Err(Refusal::PollInHand);
    }
    Ok(())
}

// Every record of n is free, with the first turn `turn`. What the store was before does not matter.
pub fn format(
    state: Wheel,
    mut heads: [[u16; 64]; 6],
    values: &mut [u64],
    deadlines: &mut [u64],
    nexts: &mut [u16],
    prevs: &mut [u16],
    turns: &mut [u64],
    marks: &mut [u16],
    n: u64,
    turn: u64,
) -> Reply
    ensures { FormatClaim (words state heads values.old deadlines.old nexts.old prevs.old turns.old marks.old)
        n turn result.answer (words result.state result.heads.heads values.new deadlines.new nexts.new prevs.new turns.new marks.new) }
{
    let taken = records::format_no(values, deadlines, nexts, prevs, turns, marks, n, turn);
    if let Err(refusal) = taken {
        return refused(refusal, state, heads);
    }
    let mut tops = [0u16; 4];
    records::make(
        &mut tops, &mut heads, values, deadlines, nexts, prevs, turns, marks, n as u16, turn,
    );
    let occupied = [0u64; 6];
    packed(Answer::Done, 0, occupied, tops, heads, links::NOBODY, 0)
}

// A timer with the value, at the deadline `when` and then after each period, if it is not 0: its key.
pub fn insert(
    state: Wheel,
    mut heads: [[u16; 64]; 6],
    values: &mut [u64],
    deadlines: &mut [u64],
    nexts: &mut [u16],
    prevs: &mut [u16],
    turns: &[u64],
    marks: &mut [u16],
    value: u64,
    when: u64,
    period: u64,
) -> Reply
    ensures { InsertClaim (words state heads values.old deadlines.old nexts.old prevs.old turns.now marks.old)
        value when period result.answer (words result.state result.heads.heads values.new deadlines.new nexts.new prevs.new turns.now marks.new) }
{
    let free = free_no(state, heads, values, deadlines, nexts, prevs, turns, marks);
    if let Err(refusal) = free {
        return refused(refusal, state, heads);
    }
    let elapsed = state.elapsed;
    let mut occupied = state.occupied;
    let mut tops = places::tops_in(state.tops);
    let answer = queue::insert(
        elapsed,
        &mut occupied,
        &mut tops,
        &mut heads,
        values,
        deadlines,
        nexts,
        prevs,
        turns,
        marks,
        value,
        when,
        period,
    );
    packed(answer, elapsed, occupied, tops, heads, links::NOBODY, 0)
}

// The timer of the key gets the deadline `when`.
pub fn reset(
    state: Wheel,
    mut heads: [[u16; 64]; 6],
    values: &[u64],
    deadlines: &mut [u64],
    nexts: &mut [u16],
    prevs: &mut [u16],
    turns: &[u64],
    marks: &mut [u16],
    key: u64,
    when: u64,
) -> Reply
    ensures { ResetClaim (words state heads values.now deadlines.old nexts.old prevs.old turns.now marks.old)
        key when result.answer (words result.state result.heads.heads values.now deadlines.new nexts.new prevs.new turns.now marks.new) }
{
    let free = free_no(state, heads, values, deadlines, nexts, prevs, turns, marks);
    if let Err(refusal) = free {
        return refused(refusal, state, heads);
    }
    let elapsed = state.elapsed;
    let mut occupied = state.occupied;
    let mut tops = places::tops_in(state.tops);
    let answer = queue::reset(
        elapsed,
        &mut occupied,
        &mut tops,
        &mut heads,
        values,
        deadlines,
        nexts,
        prevs,
        turns,
        marks,
        key,
        when,
    );
    packed(answer, elapsed, occupied, tops, heads, links::NOBODY, 0)
}

// The timer of the key is taken out: its value and deadline.
pub fn remove(
    state: Wheel,
    mut heads: [[u16; 64]; 6],
    values: &[u64],
    deadlines: &[u64],
    nexts: &mut [u16],
    prevs: &mut [u16],
    turns: &mut [u64],
    marks: &mut [u16],
    key: u64,
) -> Reply
    ensures { RemoveClaim (words state heads values.now deadlines.now nexts.old prevs.old turns.old marks.old)
        key result.answer (words result.state result.heads.heads values.now deadlines.now nexts.new prevs.new turns.new marks.new) }
{
    let free = free_no(state, heads, values, deadlines, nexts, prevs, turns, marks);
    if let Err(refusal) = free {
        return refused(refusal, state, heads);
    }
    let elapsed = state.elapsed;
    let mut occupied = state.occupied;
    let mut tops = places::tops_in(state.tops);
    let answer = queue::remove(
        elapsed,
        &mut occupied,
        &mut tops,
        &mut heads,
        values,
        deadlines,
        nexts,
        prevs,
        turns,
        marks,
        key,
    );
    packed(answer, elapsed, occupied, tops, heads, links::NOBODY, 0)
}

// A timer that is due at `time`, or nothing, or not yet: it stops before the move that would exceed `limit`, and the next
// poll at `time` goes on.
pub fn poll_some(
    state: Wheel,
    mut heads: [[u16; 64]; 6],
    values: &[u64],
    deadlines: &mut [u64],
    nexts: &mut [u16],
    prevs: &mut [u16],
    turns: &mut [u64],
    marks: &mut [u16],
    time: u64,
    limit: u64,
) -> Reply
    ensures { PollSomeClaim (words state heads values.now deadlines.old nexts.old prevs.old turns.old marks.old)
        time limit result.answer (words result.state result.heads.heads values.now deadlines.new nexts.new prevs.new turns.new marks.new) }
{
    if !judge::is_sound(state, heads, values, deadlines, nexts, prevs, turns, marks) {
        return refused(Refusal::NotSound, state, heads);
    }
    let elapsed = state.elapsed;
    let mut occupied = state.occupied;
    let mut tops = places::tops_in(state.tops);
    let out = queue::poll(
        elapsed,
        &mut occupied,
        &mut tops,
        &mut heads,
        values,
        deadlines,
        nexts,
        prevs,
        turns,
        marks,
        state.hand,
        state.until,
        time,
        limit,
    );
    let answer = out.answer;
    let e = out.elapsed;
    let hand = out.hand;
    let until = out.until;
    packed(answer, e, occupied, tops, heads, hand, until)
}

// A timer that is due at `time`, or nothing: no store has so many moves to make.
pub fn poll(
    state: Wheel,
    heads: [[u16; 64]; 6],
    values: &[u64],
    deadlines: &mut [u64],
    nexts: &mut [u16],
    prevs: &mut [u16],
    turns: &mut [u64],
    marks: &mut [u16],
    time: u64,
) -> Reply
    ensures { PollClaim (words state heads values.now deadlines.old nexts.old prevs.old turns.old marks.old)
        time result.answer (words result.state result.heads.heads values.now deadlines.new nexts.new prevs.new turns.new marks.new) }
{
    poll_some(
        state,
        heads,
        values,
        deadlines,
        nexts,
        prevs,
        turns,
        marks,
        time,
        u64::MAX,
    )
}

// From when on a poll has something to do: from elapsed on if a timer has expired, else from the start of the wheel's
// first slot on, or of the next block if timers are parked alone.
pub fn next_wake(
    state: Wheel,
    heads: [[u16; 64]; 6],
    values: &[u64],
    deadlines: &[u64],
    nexts: &[u16],
    prevs: &[u16],
    turns: &[u64],
    marks: &[u16],
) -> Answer
    ensures { WakeClaim (words state heads values.now deadlines.now nexts.now prevs.now turns.now marks.now) result }
{
    let free = free_no(state, heads, values, deadlines, nexts, prevs, turns, marks);
    if let Err(refusal) = free {
        return Answer::No(refusal.number());
    }
    let occupied = state.occupied;
    let top = state.tops;
    queue::next_wake(
        state.elapsed,
        &occupied,
        deadlines,
        top.expired,
        top.parking,
    )
}

// How many timers are pending.
pub fn length(
    state: Wheel,
    heads: [[u16; 64]; 6],
    values: &[u64],
    deadlines: &[u64],
    nexts: &[u16],
    prevs: &[u16],
    turns: &[u64],
    marks: &[u16],
) -> Answer
    ensures { LengthClaim (words state heads values.now deadlines.now nexts.now prevs.now turns.now marks.now) result }
{
    if !judge::is_sound(state, heads, values, deadlines, nexts, prevs, turns, marks) {
        return Answer::No(Refusal::NotSound as u64);
    }
    let top = state.tops;
    let n = queue::length(top.n, marks);
    Answer::Length(n)
}

// No timer is pending any more, and elapsed is 0.
pub fn clear(
    state: Wheel,
    mut heads: [[u16; 64]; 6],
    values: &[u64],
    deadlines: &[u64],
    nexts: &mut [u16],
    prevs: &mut [u16],
    turns: &mut [u64],
    marks: &mut [u16],
) -> Reply
    ensures { ClearClaim (words state heads values.now deadlines.now nexts.old prevs.old turns.old marks.old)
        result.answer (words result.state result.heads.heads values.now deadlines.now nexts.new prevs.new turns.new marks.new) }
{
    if !judge::is_sound(state, heads, values, deadlines, nexts, prevs, turns, marks) {
        return refused(Refusal::NotSound, state, heads);
    }
    let elapsed = state.elapsed;
    let mut occupied = state.occupied;
    let mut tops = places::tops_in(state.tops);
    let answer = queue::clear(
        elapsed,
        &mut occupied,
        &mut tops,
        &mut heads,
        values,
        deadlines,
        nexts,
        prevs,
        turns,
        marks,
    );
    packed(answer, 0, occupied, tops, heads, links::NOBODY, 0)
}

// The delay queue on a sound store: records, keys and turns over the wheel.
#![tactic(auto)]

ghost use Rattle.std.specs.Prelude.{◌≡◌, ℕ, ◌≤◌, ◌<◌, length};
ghost use Rattle.records.specs.Words.{parts, holding, count, Standing, SoundBut, Sound};
ghost use Rattle.queue.specs.Calls.{InsertOn, ResetOn, RemoveOn, PollsOn, ClearOn};
ghost use Rattle.records.specs.Inner.{LooseAt};
ghost use Rattle.queue.specs.Inner.{CanPollIdx, PollsIdx, PollNo, HandsOut, Shows, pending_in, ClearsOne};
ghost use Rattle.queue.specs.Told.{told};
ghost use Rattle.refusals.specs.Numbers.{no_in};
ghost use Rattle.records.specs.View.{View};
ghost use Rattle.queue.specs.Steps.{NextWake};
ghost use Rattle.links.specs.Links.{at};
ghost use Rattle.wheel.specs.Words.{words as wheeled};
ghost use Rattle.wheel.specs.Expiration.{CanLook};

use refusals::Refusal;

// An answer.
#[derive(Clone, Copy)]
pub enum Answer {
    // format, reset and clear
    Done,
    // insert: the key
    Key(u64),
    // remove: value, deadline
    Gone(u64, u64),
    // poll: key, value, deadline, moves, drains
    Out(u64, u64, u64, u64, u64),
    // poll: key, value, deadline, moves, drains, of a repeating timer that is set no more
    Last(u64, u64, u64, u64, u64),
    // poll: moves, drains
    Nothing(u64, u64),
    // poll with a limit: moves, drains of this call
    NotYet(u64, u64),
    // next wake
    Wake(u64),
    NoWake,
    // length
    Length(u64),
    // the number of the refusal. No `Refusal`: a journal and a log may tell of any number, and the laws speak of every one
    // (promises/proofs/laws/Once.antt#untold_told)
    No(u64),
}

// The answer of a poll with elapsed after it, the slot whose drain is in hand and the poll's now: nobody and 0 if it has
// ended. Of the other calls clear alone changes these: to 0, nobody and 0.
#[derive(Clone, Copy)]
pub struct ReplyParts {
    pub answer: Answer,
    pub elapsed: u64,
    pub hand: u16,
    pub until: u64,
}

// A record is taken for the value and the period, and placed at the deadline.
pub fn insert(
    elapsed: u64,
    occupied: &mut [u64; 6],
    tops: &mut [u16; 4],
    heads: &mut [[u16; 64]; 6],
    values: &mut [u64],
    deadlines: &mut [u64],
    nexts: &mut [u16],
    prevs: &mut [u16],
    turns: &[u64],
    marks: &mut [u16],
    value: u64,
    when: u64,
    period: u64,
) -> Answer
    requires { Sound (parts elapsed occupied.old tops.old heads.old values.old deadlines.old nexts.old prevs.old turns.now marks.old) }
    ensures { InsertOn (parts elapsed occupied.old tops.old heads.old values.old deadlines.old nexts.old prevs.old turns.now marks.old)
        value when period result (parts elapsed occupied.new tops.new heads.new values.new deadlines.new nexts.new prevs.new turns.now marks.new) }
{
    if places::first_free(tops) == links::NOBODY {
        return Answer::No(Refusal::Full as u64);
    }
    if let Err(refusal) = records::deadline_no(elapsed, when) {
        return Answer::No(refusal.number());
    }
    let item = wheel::pop(
        elapsed,
        occupied,
        tops,
        heads,
        nexts,
        prevs,
        marks,
        places::FREE,
    );
    records::give(values, item, value, period);
    let key = records::key_of(turns[item as usize], item);
    records::place(
        elapsed, occupied, tops, heads, deadlines, nexts, prevs, marks, item, when,
    );
    Answer::Key(key)
}

// The timer of the key is placed anew. Its deadline is judged before anything is unlinked.
pub fn reset(
    elapsed: u64,
    occupied: &mut [u64; 6],
    tops: &mut [u16; 4],
    heads: &mut [[u16; 64]; 6],
    values: &[u64],
    deadlines: &mut [u64],
    nexts: &mut [u16],
    prevs: &mut [u16],
    turns: &[u64],
    marks: &mut [u16],
    key: u64,
    when: u64,
) -> Answer
    requires { Sound (parts elapsed occupied.old tops.old heads.old values.now deadlines.old nexts.old prevs.old turns.now marks.old) }
    ensures { ResetOn (parts elapsed occupied.old tops.old heads.old values.now deadlines.old nexts.old prevs.old turns.now marks.old)
        key when result (parts elapsed occupied.new tops.new heads.new values.now deadlines.new nexts.new prevs.new turns.now marks.new) }
{
    let found = records::find(places::count_of(tops), turns, marks, key);
    let Some(item) = found else {
        return Answer::No(Refusal::DeadKey as u64);
    };
    if let Err(refusal) = records::deadline_no(elapsed, when) {
        return Answer::No(refusal.number());
    }
    wheel::remove(elapsed, occupied, tops, heads, nexts, prevs, marks, item);
    records::place(
        elapsed, occupied, tops, heads, deadlines, nexts, prevs, marks, item, when,
    );
    Answer::Done
}

// The timer of the key is taken out.
pub fn remove(
    elapsed: u64,
    occupied: &mut [u64; 6],
    tops: &mut [u16; 4],
    heads: &mut [[u16; 64]; 6],
    values: &[u64],
    deadlines: &[u64],
    nexts: &mut [u16],
    prevs: &mut [u16],
    turns: &mut [u64],
    marks: &mut [u16],
    key: u64,
) -> Answer
    requires { Sound (parts elapsed occupied.old tops.old heads.old values.now deadlines.now nexts.old prevs.old turns.old marks.old) }
    ensures { RemoveOn (parts elapsed occupied.old tops.old heads.old values.now deadlines.now nexts.old prevs.old turns.old marks.old)
        key result (parts elapsed occupied.new tops.new heads.new values.now deadlines.now nexts.new prevs.new turns.new marks.new) }
{
    let found = records::find(places::count_of(tops), turns, marks, key);
    let Some(item) = found else {
        return Answer::No(Refusal::DeadKey as u64);
    };
    let value = records::value_of(values, item);
    let deadline = deadlines[item as usize];
    wheel::remove(elapsed, occupied, tops, heads, nexts, prevs, marks, item);
    records::leave(
        elapsed, occupied, tops, heads, nexts, prevs, turns, marks, item,
    );
    Answer::Gone(value, deadline)
}

// The loose record `item` is handed out. With a period it is placed again, if it can be; else it is freed.
fn hand_out(
    elapsed: u64,
    occupied: &mut [u64; 6],
    tops: &mut [u16; 4],
    heads: &mut [[u16; 64]; 6],
    values: &[u64],
    deadlines: &mut [u64],
    nexts: &mut [u16],
    prevs: &mut [u16],
    turns: &mut [u64],
    marks: &mut [u16],
    item: u16,
    moves: u64,
    drains: u64,
) -> Answer
    requires sound_but { SoundBut item (parts elapsed occupied.old tops.old heads.old values.now deadlines.old nexts.old prevs.old turns.old marks.old) }
    requires loose_at { LooseAt (parts elapsed occupied.old tops.old heads.old values.now deadlines.old nexts.old prevs.old turns.old marks.old) item }
    ensures { HandsOut (parts elapsed occupied.old tops.old heads.old values.now deadlines.old nexts.old prevs.old turns.old marks.old)
        item moves drains result (parts elapsed occupied.new tops.new heads.new values.now deadlines.new nexts.new prevs.new turns.new marks.new) }
{
    let k = item as usize;
    let key = records::key_of(turns[k], item);
    let value = records::value_of(values, item);
    let period = records::period_of(values, item);
    let deadline = deadlines[k];
    if period == 0 {
        records::leave(
            elapsed, occupied, tops, heads, nexts, prevs, turns, marks, item,
        );
        return Answer::Out(key, value, deadline, moves, drains);
    }
    let next = records::next_time(elapsed, deadline, period);
    let Some(when) = next else {
        records::leave(
            elapsed, occupied, tops, heads, nexts, prevs, turns, marks, item,
        );
        return Answer::Last(key, value, deadline, moves, drains);
    };
    records::place(
        elapsed, occupied, tops, heads, deadlines, nexts, prevs, marks, item, when,
    );
    Answer::Out(key, value, deadline, moves, drains)
}

// Who is due at `time`, document 01's now: the first of the expired stack, else whom the wheel has, or nobody. It has left
// its list. With `limit` moves at most, from the drain of `hand` on.
fn poll_idx(
    elapsed: u64,
    occupied: &mut [u64; 6],
    tops: &mut [u16; 4],
    heads: &mut [[u16; 64]; 6],
    deadlines: &[u64],
    nexts: &mut [u16],
    prevs: &mut [u16],
    marks: &mut [u16],
    hand: u16,
    time: u64,
    limit: u64,
) -> wheel::Polled
    requires { CanPollIdx (wheeled elapsed occupied.old tops.old heads.old nexts.old prevs.old marks.old) deadlines.now hand time }
    ensures { PollsIdx (at deadlines.now) time limit hand (wheeled elapsed occupied.old tops.old heads.old nexts.old prevs.old marks.old)
        result.item result.hand result.moves result.drains (wheeled result.elapsed occupied.new tops.new heads.new nexts.new prevs.new marks.new) }
{
    let first = wheel::pop(
        elapsed,
        occupied,
        tops,
        heads,
        nexts,
        prevs,
        marks,
        places::EXPIRED,
    );
    if first != links::NOBODY {
        return wheel::Polled {
            elapsed,
            item: first,
            hand: links::NOBODY,
            moves: 0,
            drains: 0,
        };
    }
    wheel::poll(
        elapsed, occupied, tops, heads, nexts, prevs, marks, deadlines, hand, time, limit,
    )
}

// A poll is refused with 12 while one at another now is in hand, with 7 before elapsed, or taken.
fn poll_no(elapsed: u64, hand: u16, until: u64, time: u64) -> Result<(), Refusal>
    ensures { PollNo elapsed hand until time (no_in result) }
{
    if hand != links::NOBODY {
        if time != until {
            return Err(Refusal::PollInHand);
        }
        return Ok(());
    }
    if time < elapsed {
        return Err(Refusal::BackInTime);
    }
    Ok(())
}

// Hands out a timer that is due at `time`, if there is one, with `limit` moves at most. With the drain of `hand` in hand it
// goes on with the poll at `until`.
pub fn poll(
    elapsed: u64,
    occupied: &mut [u64; 6],
    tops: &mut [u16; 4],
    heads: &mut [[u16; 64]; 6],
    values: &[u64],
    deadlines: &mut [u64],
    nexts: &mut [u16],
    prevs: &mut [u16],
    turns: &mut [u64],
    marks: &mut [u16],
    hand: u16,
    until: u64,
    time: u64,
    limit: u64,
) -> ReplyParts
    requires { Sound (holding hand until (parts elapsed occupied.old tops.old heads.old values.now deadlines.old nexts.old prevs.old turns.old marks.old)) }
    ensures { PollsOn (holding hand until (parts elapsed occupied.old tops.old heads.old values.now deadlines.old nexts.old prevs.old turns.old marks.old))
        time limit result.answer (holding result.hand result.until
        (parts result.elapsed occupied.new tops.new heads.new values.now deadlines.new nexts.new prevs.new turns.new marks.new)) }
{
    if let Err(refusal) = poll_no(elapsed, hand, until, time) {
        return ReplyParts {
            answer: Answer::No(refusal.number()),
            elapsed,
            hand,
            until,
        };
    }
    let due = poll_idx(
        elapsed, occupied, tops, heads, deadlines, nexts, prevs, marks, hand, time, limit,
    );
    let e = due.elapsed;
    let item = due.item;
    let place = due.hand;
    let moves = due.moves;
    let drains = due.drains;
    if place != links::NOBODY {
        return ReplyParts {
            answer: Answer::NotYet(moves, drains),
            elapsed: e,
            hand: place,
            until: time,
        };
    }
    if item == links::NOBODY {
        return ReplyParts {
            answer: Answer::Nothing(moves, drains),
            elapsed: e,
            hand: links::NOBODY,
            until: 0,
        };
    }
    let answer = hand_out(
        e, occupied, tops, heads, values, deadlines, nexts, prevs, turns, marks, item, moves,
        drains,
    );
    ReplyParts {
        answer,
        elapsed: e,
        hand: links::NOBODY,
        until: 0,
    }
}

// When a poll next has something to do: at once if a timer has expired, else when the wheel has. `expired` and `parking` are the
// heads of the expired stack and of the parking list.
pub fn next_wake(
    elapsed: u64,
    occupied: &[u64; 6],
    deadlines: &[u64],
    expired: u16,
    parking: u16,
) -> Answer
    requires { CanLook elapsed occupied.now deadlines.now parking }
    ensures { (v : View) → Shows elapsed occupied.now deadlines.now expired parking v → NextWake v (told result) }
{
    if expired != links::NOBODY {
        return Answer::Wake(elapsed);
    }
    match wheel::poll_at(elapsed, occupied, deadlines, parking) {
        Some(time) => Answer::Wake(time),
        None => Answer::NoWake,
    }
}

// How many of n records are pending: those in a slot, on the parking list or on the expired stack.
pub fn length(n: u16, marks: &[u16]) -> u64
    requires { n ≤ length marks.now }
    ensures { result ≡ pending_in (at marks.now) n }
{
    // in 16 bits, as the marks have: in 64 a length takes longer
    let mut count = 0u16;
    for i in 0..n {
        if places::is_pending(marks[i as usize]) {
            count += 1;
        }
    }
    count as u64
}

// The record `item` leaves if it is pending.
fn clear_one(
    elapsed: u64,
    occupied: &mut [u64; 6],
    tops: &mut [u16; 4],
    heads: &mut [[u16; 64]; 6],
    values: &[u64],
    deadlines: &[u64],
    nexts: &mut [u16],
    prevs: &mut [u16],
    turns: &mut [u64],
    marks: &mut [u16],
    item: u16,
)
    requires standing { Standing (parts elapsed occupied.old tops.old heads.old values.now deadlines.now nexts.old prevs.old turns.old marks.old) }
    requires item_bound { item < count (parts elapsed occupied.old tops.old heads.old values.now deadlines.now nexts.old prevs.old turns.old marks.old) }
    ensures { ClearsOne (parts elapsed occupied.old tops.old heads.old values.now deadlines.now nexts.old prevs.old turns.old marks.old)
        item (parts elapsed occupied.new tops.new heads.new values.now deadlines.now nexts.new prevs.new turns.new marks.new) }
{
    if !places::is_pending(marks[item as usize]) {
        return;
    }
    wheel::remove(elapsed, occupied, tops, heads, nexts, prevs, marks, item);
    records::leave(
        elapsed, occupied, tops, heads, nexts, prevs, turns, marks, item,
    );
}

// Every pending record leaves, in rising number. Elapsed is 0 after it, and no poll is in hand.
pub fn clear(
    elapsed: u64,
    occupied: &mut [u64; 6],
    tops: &mut [u16; 4],
    heads: &mut [[u16; 64]; 6],
    values: &[u64],
    deadlines: &[u64],
    nexts: &mut [u16],
    prevs: &mut [u16],
    turns: &mut [u64],
    marks: &mut [u16],
) -> Answer
    requires { Standing (parts elapsed occupied.old tops.old heads.old values.now deadlines.now nexts.old prevs.old turns.old marks.old) }
    ensures { (h u : ℕ) → ClearOn (holding h u (parts elapsed occupied.old tops.old heads.old values.now deadlines.now nexts.old prevs.old turns.old marks.old))
        result (parts 0 occupied.new tops.new heads.new values.now deadlines.now nexts.new prevs.new turns.new marks.new) }
{
    let n = places::count_of(tops);
    for i in 0..n {
        clear_one(
            elapsed, occupied, tops, heads, values, deadlines, nexts, prevs, turns, marks, i,
        );
    }
    Answer::Done
}

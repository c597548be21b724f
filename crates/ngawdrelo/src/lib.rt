// The queue as C and Rust call it. A store is what the caller keeps of it, each part lent by its address: elapsed, the occupied bits, n with
// the heads of three lists, the poll in hand and its time, the heads of the slots, and six slices, each a pointer and a length. Where n is 0
// there is no store, so memory that is all 0 holds none. An answer is six words: a kind, and numbers.
#![tactic(auto)]

ghost use Rattle.std.specs.Prelude.{◌≡◌, ◌∷◌, []};
ghost use Rattle.contracts.specs.Tells.{Tells};
ghost use Rattle.records.specs.Words.{parts, Sound, holding};
ghost use Rattle.delay_queue.specs.Claims.{FormatClaim, InsertClaim, ResetClaim, RemoveClaim, PollClaim, PollSomeClaim};
ghost use Rattle.delay_queue.specs.Claims.{WakeClaim, LengthClaim, ClearClaim, CallClaim};
ghost use Rattle.run.specs.Run.{RunClaim};
ghost use Rattle.recover.specs.Replay.{no_heads, without_store, found, ReplayClaim};
ghost use Rattle.gauge.specs.Light.{reading_of};
ghost use Rattle.tick.specs.Claims.{ReadClaim, TickPollClaim, TickSomeClaim, now_of};
ghost use Rattle.ngawdrelo.specs.Inner.{TickClaim, patch_step};
ghost use Rattle.inspector.specs.Words.{InspectClaim};
ghost use Rattle.words.specs.Words.{why_word, ending_words, FlagKept, gauge_of, NoteClaim};
ghost use Rattle.words.specs.Words.{light_words, light_value, state_of, state_words};
ghost use Rattle.ngawdrelo.specs.Face.{store_of, Says, Faced, Told, ActsOn, Patches};

use delay_queue::Call;
use entries::Step;
use gauge::Gauge;
use queue::Answer;
use refusals::Refusal;
use tick::Front;

// The version as one number: 14001 is 0.14.1.
#[unsafe(no_mangle)]
pub extern "C" fn ngawdrelo_version() -> u64
    ensures { result ≡ 14001 }
{
    14001
}

// ---- the calls

// The exports take a store as the words that C lends, a flag as a word and numbers of kinds: no type of Rattle crosses.

// Whether the store is sound.
fn judged(
    elapsed: u64,
    occupied: &[u64; 6],
    tops: &[u16; 4],
    hand: u16,
    until: u64,
    heads: &[[u16; 64]; 6],
    values: &[u64],
    deadlines: &[u64],
    nexts: &[u16],
    prevs: &[u16],
    turns: &[u64],
    marks: &[u16],
) -> bool
    ensures { Tells (Sound (holding hand until (parts elapsed occupied.now tops.now heads.now values.now deadlines.now nexts.now prevs.now turns.now marks.now)))
        result }
{
    judge::seen(places::count_of(tops), *occupied, *heads);
    judge::is_sound_here(
        elapsed, occupied, tops, heads, values, deadlines, nexts, prevs, turns, marks, hand, until,
    )
}

// Any call: the store is judged once, and the call is answered where it stands, as a run of one command.
fn ask(
    elapsed: &mut u64,
    occupied: &mut [u64; 6],
    tops: &mut [u16; 4],
    hand: &mut u16,
    until: &mut u64,
    heads: &mut [[u16; 64]; 6],
    values: &mut [u64],
    deadlines: &mut [u64],
    nexts: &mut [u16],
    prevs: &mut [u16],
    turns: &mut [u64],
    marks: &mut [u16],
    call: Call,
    answer: &mut [u64; 6],
)
    ensures { Faced (CallClaim call (store_of elapsed.old occupied.old tops.old hand.old until.old heads.old values.old deadlines.old nexts.old prevs.old turns.old marks.old))
        answer.new (store_of elapsed.new occupied.new tops.new hand.new until.new heads.new values.new deadlines.new nexts.new prevs.new turns.new marks.new) }
{
    let e = *elapsed;
    let h = *hand;
    let u = *until;
    let sound = judged(
        e, occupied, tops, h, u, heads, values, deadlines, nexts, prevs, turns, marks,
    );
    let command = run::command_of(call);
    let said = run::answer_all(
        sound, e, occupied, tops, heads, values, deadlines, nexts, prevs, turns, marks, h, u,
        &command, answer,
    );
    *elapsed = said.elapsed;
    *hand = said.hand;
    *until = said.until;
}

// The time of the next wake, 2 for a store that is not sound, or 12 while a poll is in hand.
fn wake_of(
    elapsed: u64,
    occupied: &[u64; 6],
    tops: &[u16; 4],
    hand: u16,
    until: u64,
    heads: &[[u16; 64]; 6],
    values: &[u64],
    deadlines: &[u64],
    nexts: &[u16],
    prevs: &[u16],
    turns: &[u64],
    marks: &[u16],
) -> Answer
    ensures { WakeClaim (holding hand until (parts elapsed occupied.now tops.now heads.now values.now deadlines.now nexts.now prevs.now turns.now marks.now))
        result }
{
    if !judged(
        elapsed, occupied, tops, hand, until, heads, values, deadlines, nexts, prevs, turns, marks,
    ) {
        return Answer::No(Refusal::NotSound as u64);
    }
    if hand != links::NOBODY {
        return Answer::No(Refusal::PollInHand as u64);
    }
    let expired = places::first_expired(tops);
    let parked = places::first_parked(tops);
    queue::next_wake(elapsed, occupied, deadlines, expired, parked)
}

// How many timers are pending, or 2 for a store that is not sound.
fn length_of(
    elapsed: u64,
    occupied: &[u64; 6],
    tops: &[u16; 4],
    hand: u16,
    until: u64,
    heads: &[[u16; 64]; 6],
    values: &[u64],
    deadlines: &[u64],
    nexts: &[u16],
    prevs: &[u16],
    turns: &[u64],
    marks: &[u16],
) -> Answer
    ensures { LengthClaim (holding hand until (parts elapsed occupied.now tops.now heads.now values.now deadlines.now nexts.now prevs.now turns.now marks.now))
        result }
{
    if !judged(
        elapsed, occupied, tops, hand, until, heads, values, deadlines, nexts, prevs, turns, marks,
    ) {
        return Answer::No(Refusal::NotSound as u64);
    }
    let n = queue::length(places::count_of(tops), marks);
    Answer::Length(n)
}

// A fresh store of n records, each with the first turn `turn`. What the store was before does not matter.
#[unsafe(no_mangle)]
pub extern "C" fn ngawdrelo_format(
    elapsed: &mut u64,
    occupied: &mut [u64; 6],
    tops: &mut [u16; 4],
    hand: &mut u16,
    until: &mut u64,
    heads: &mut [[u16; 64]; 6],
    values: &mut [u64],
    deadlines: &mut [u64],
    nexts: &mut [u16],
    prevs: &mut [u16],
    turns: &mut [u64],
    marks: &mut [u16],
    n: u64,
    turn: u64,
    answer: &mut [u64; 6],
)
    ensures { Faced
        (FormatClaim (store_of elapsed.old occupied.old tops.old hand.old until.old heads.old values.old deadlines.old nexts.old prevs.old turns.old marks.old) n turn)
        answer.new (store_of elapsed.new occupied.new tops.new hand.new until.new heads.new values.new deadlines.new nexts.new prevs.new turns.new marks.new) }
{
    let call = Call::Format(n, turn);
    ask(
        elapsed, occupied, tops, hand, until, heads, values, deadlines, nexts, prevs, turns, marks,
        call, answer,
    );
}

// A timer with the value, at the deadline `when` and then after each period, if it is not 0.
#[unsafe(no_mangle)]
pub extern "C" fn ngawdrelo_insert(
    elapsed: &mut u64,
    occupied: &mut [u64; 6],
    tops: &mut [u16; 4],
    hand: &mut u16,
    until: &mut u64,
    heads: &mut [[u16; 64]; 6],
    values: &mut [u64],
    deadlines: &mut [u64],
    nexts: &mut [u16],
    prevs: &mut [u16],
    turns: &mut [u64],
    marks: &mut [u16],
    value: u64,
    when: u64,
    period: u64,
    answer: &mut [u64; 6],
)
    ensures { Faced
        (InsertClaim (store_of elapsed.old occupied.old tops.old hand.old until.old heads.old values.old deadlines.old nexts.old prevs.old turns.old marks.old) value when
        period)
        answer.new (store_of elapsed.new occupied.new tops.new hand.new until.new heads.new values.new deadlines.new nexts.new prevs.new turns.new marks.new) }
{
    let call = Call::Insert(value, when, period);
    ask(
        elapsed, occupied, tops, hand, until, heads, values, deadlines, nexts, prevs, turns, marks,
        call, answer,
    );
}

// The pending timer that the key names gets the deadline `when`.
#[unsafe(no_mangle)]
pub extern "C" fn ngawdrelo_reset(
    elapsed: &mut u64,
    occupied: &mut [u64; 6],
    tops: &mut [u16; 4],
    hand: &mut u16,
    until: &mut u64,
    heads: &mut [[u16; 64]; 6],
    values: &mut [u64],
    deadlines: &mut [u64],
    nexts: &mut [u16],
    prevs: &mut [u16],
    turns: &mut [u64],
    marks: &mut [u16],
    key: u64,
    when: u64,
    answer: &mut [u64; 6],
)
    ensures { Faced
        (ResetClaim (store_of elapsed.old occupied.old tops.old hand.old until.old heads.old values.old deadlines.old nexts.old prevs.old turns.old marks.old) key when)
        answer.new (store_of elapsed.new occupied.new tops.new hand.new until.new heads.new values.new deadlines.new nexts.new prevs.new turns.new marks.new) }
{
    let call = Call::Reset(key, when);
    ask(
        elapsed, occupied, tops, hand, until, heads, values, deadlines, nexts, prevs, turns, marks,
        call, answer,
    );
}

// The pending timer that the key names is taken out: its value and its deadline.
#[unsafe(no_mangle)]
pub extern "C" fn ngawdrelo_remove(
    elapsed: &mut u64,
    occupied: &mut [u64; 6],
    tops: &mut [u16; 4],
    hand: &mut u16,
    until: &mut u64,
    heads: &mut [[u16; 64]; 6],
    values: &mut [u64],
    deadlines: &mut [u64],
    nexts: &mut [u16],
    prevs: &mut [u16],
    turns: &mut [u64],
    marks: &mut [u16],
    key: u64,
    answer: &mut [u64; 6],
)
    ensures { Faced (RemoveClaim (store_of elapsed.old occupied.old tops.old hand.old until.old heads.old values.old deadlines.old nexts.old prevs.old turns.old marks.old) key)
        answer.new (store_of elapsed.new occupied.new tops.new hand.new until.new heads.new values.new deadlines.new nexts.new prevs.new turns.new marks.new) }
{
    let call = Call::Remove(key);
    ask(
        elapsed, occupied, tops, hand, until, heads, values, deadlines, nexts, prevs, turns, marks,
        call, answer,
    );
}

// Hands out a timer that is due at `time`, or none.
#[unsafe(no_mangle)]
pub extern "C" fn ngawdrelo_poll(
    elapsed: &mut u64,
    occupied: &mut [u64; 6],
    tops: &mut [u16; 4],
    hand: &mut u16,
    until: &mut u64,
    heads: &mut [[u16; 64]; 6],
    values: &mut [u64],
    deadlines: &mut [u64],
    nexts: &mut [u16],
    prevs: &mut [u16],
    turns: &mut [u64],
    marks: &mut [u16],
    time: u64,
    answer: &mut [u64; 6],
)
    ensures { Faced (PollClaim (store_of elapsed.old occupied.old tops.old hand.old until.old heads.old values.old deadlines.old nexts.old prevs.old turns.old marks.old) time)
        answer.new (store_of elapsed.new occupied.new tops.new hand.new until.new heads.new values.new deadlines.new nexts.new prevs.new turns.new marks.new) }
{
    let call = Call::Poll(time);
    ask(
        elapsed, occupied, tops, hand, until, heads, values, deadlines, nexts, prevs, turns, marks,
        call, answer,
    );
}

// A poll of at most `limit` moves: it hands out a timer that is due at `time`, or none, or tells that it is not yet done and stays in hand.
#[unsafe(no_mangle)]
pub extern "C" fn ngawdrelo_poll_some(
    elapsed: &mut u64,
    occupied: &mut [u64; 6],
    tops: &mut [u16; 4],
    hand: &mut u16,
    until: &mut u64,
    heads: &mut [[u16; 64]; 6],
    values: &mut [u64],
    deadlines: &mut [u64],
    nexts: &mut [u16],
    prevs: &mut [u16],
    turns: &mut [u64],
    marks: &mut [u16],
    time: u64,
    limit: u64,
    answer: &mut [u64; 6],
)
    ensures { Faced
        (PollSomeClaim (store_of elapsed.old occupied.old tops.old hand.old until.old heads.old values.old deadlines.old nexts.old prevs.old turns.old marks.old) time
        limit)
        answer.new (store_of elapsed.new occupied.new tops.new hand.new until.new heads.new values.new deadlines.new nexts.new prevs.new turns.new marks.new) }
{
    let call = Call::PollSome(time, limit);
    ask(
        elapsed, occupied, tops, hand, until, heads, values, deadlines, nexts, prevs, turns, marks,
        call, answer,
    );
}

// No timer is pending any more, and elapsed is 0.
#[unsafe(no_mangle)]
pub extern "C" fn ngawdrelo_clear(
    elapsed: &mut u64,
    occupied: &mut [u64; 6],
    tops: &mut [u16; 4],
    hand: &mut u16,
    until: &mut u64,
    heads: &mut [[u16; 64]; 6],
    values: &mut [u64],
    deadlines: &mut [u64],
    nexts: &mut [u16],
    prevs: &mut [u16],
    turns: &mut [u64],
    marks: &mut [u16],
    answer: &mut [u64; 6],
)
    ensures { Faced (ClearClaim (store_of elapsed.old occupied.old tops.old hand.old until.old heads.old values.old deadlines.old nexts.old prevs.old turns.old marks.old))
        answer.new (store_of elapsed.new occupied.new tops.new hand.new until.new heads.new values.new deadlines.new nexts.new prevs.new turns.new marks.new) }
{
    let call = Call::Clear;
    ask(
        elapsed, occupied, tops, hand, until, heads, values, deadlines, nexts, prevs, turns, marks,
        call, answer,
    );
}

// The time of the next wake. Nothing is changed.
#[unsafe(no_mangle)]
pub extern "C" fn ngawdrelo_next_wake(
    elapsed: &u64,
    occupied: &[u64; 6],
    tops: &[u16; 4],
    hand: &u16,
    until: &u64,
    heads: &[[u16; 64]; 6],
    values: &[u64],
    deadlines: &[u64],
    nexts: &[u16],
    prevs: &[u16],
    turns: &[u64],
    marks: &[u16],
    answer: &mut [u64; 6],
)
    ensures { Told (WakeClaim (store_of elapsed.now occupied.now tops.now hand.now until.now heads.now values.now deadlines.now nexts.now prevs.now turns.now marks.now))
        answer.new }
{
    let a = wake_of(
        *elapsed, occupied, tops, *hand, *until, heads, values, deadlines, nexts, prevs, turns,
        marks,
    );
    *answer = words::words_of(a);
}

// How many timers are pending. Nothing is changed.
#[unsafe(no_mangle)]
pub extern "C" fn ngawdrelo_length(
    elapsed: &u64,
    occupied: &[u64; 6],
    tops: &[u16; 4],
    hand: &u16,
    until: &u64,
    heads: &[[u16; 64]; 6],
    values: &[u64],
    deadlines: &[u64],
    nexts: &[u16],
    prevs: &[u16],
    turns: &[u64],
    marks: &[u16],
    answer: &mut [u64; 6],
)
    ensures { Told (LengthClaim (store_of elapsed.now occupied.now tops.now hand.now until.now heads.now values.now deadlines.now nexts.now prevs.now turns.now marks.now))
        answer.new }
{
    let a = length_of(
        *elapsed, occupied, tops, *hand, *until, heads, values, deadlines, nexts, prevs, turns,
        marks,
    );
    *answer = words::words_of(a);
}

// ---- a run

// A run of commands, each of four words, on a store that is judged once: the answers, each of six words, how many there are, and why there
// are no more.
#[unsafe(no_mangle)]
pub extern "C" fn ngawdrelo_run(
    elapsed: &mut u64,
    occupied: &mut [u64; 6],
    tops: &mut [u16; 4],
    hand: &mut u16,
    until: &mut u64,
    heads: &mut [[u16; 64]; 6],
    values: &mut [u64],
    deadlines: &mut [u64],
    nexts: &mut [u16],
    prevs: &mut [u16],
    turns: &mut [u64],
    marks: &mut [u16],
    commands: &[u64],
    answers: &mut [u64],
    done: &mut u64,
    why: &mut u64,
)
    ensures { Says why_word why.new
        (λ w. RunClaim (store_of elapsed.old occupied.old tops.old hand.old until.old heads.old values.old deadlines.old nexts.old prevs.old turns.old marks.old)
        commands.now answers.old done.new w
        (store_of elapsed.new occupied.new tops.new hand.new until.new heads.new values.new deadlines.new nexts.new prevs.new turns.new marks.new) answers.new) }
{
    let e = *elapsed;
    let h = *hand;
    let u = *until;
    let sound = judged(
        e, occupied, tops, h, u, heads, values, deadlines, nexts, prevs, turns, marks,
    );
    let went = run::answer_all(
        sound, e, occupied, tops, heads, values, deadlines, nexts, prevs, turns, marks, h, u,
        commands, answers,
    );
    *elapsed = went.elapsed;
    *hand = went.hand;
    *until = went.until;
    *done = went.done as u64;
    *why = words::why_of(went.why);
}

// ---- the journal

// A call of four words, as a command of a run, with the bytes to be written before its answer is given: 0, 18 or 36 of them. Words that are no
// command are told by the kind 11, and change nothing.
#[unsafe(no_mangle)]
pub extern "C" fn ngawdrelo_act(
    elapsed: &mut u64,
    occupied: &mut [u64; 6],
    tops: &mut [u16; 4],
    hand: &mut u16,
    until: &mut u64,
    heads: &mut [[u16; 64]; 6],
    values: &mut [u64],
    deadlines: &mut [u64],
    nexts: &mut [u16],
    prevs: &mut [u16],
    turns: &mut [u64],
    marks: &mut [u16],
    kind: u64,
    a: u64,
    b: u64,
    c: u64,
    answer: &mut [u64; 6],
    bytes: &mut [u8; 36],
    size: &mut u64,
)
    ensures { ActsOn (kind ∷ a ∷ b ∷ c ∷ [])
        (store_of elapsed.old occupied.old tops.old hand.old until.old heads.old values.old deadlines.old nexts.old prevs.old turns.old marks.old)
        answer.new (store_of elapsed.new occupied.new tops.new hand.new until.new heads.new values.new deadlines.new nexts.new prevs.new turns.new marks.new) size.new
        bytes.new }
{
    let group = run::call_of(kind, a, b, c);
    let Some(call) = group else {
        let nothing = entries::no_bytes();
        *answer = [11, 0, 0, 0, 0, 0];
        *size = nothing.as_slice().len() as u64;
        *bytes = nothing.padded();
        return;
    };
    ask(
        elapsed, occupied, tops, hand, until, heads, values, deadlines, nexts, prevs, turns, marks,
        call, answer,
    );
    let noted = journal::note(Step::Asks(call), words::refusal_in(answer));
    *size = noted.as_slice().len() as u64;
    *bytes = noted.padded();
}

// Opens or closes the patch of the journal: 13 where it is so already.
fn turn_patch(
    so: bool,
    patch: &mut u64,
    answer: &mut [u64; 6],
    bytes: &mut [u8; 36],
    size: &mut u64,
)
    ensures { Patches (patch_step so) patch.old patch.new answer.new size.new bytes.new }
{
    let step = if so { Step::Open } else { Step::Close };
    let said = journal::patched((*patch != 0) == so);
    let noted = journal::note(step, said);
    *patch = words::flag_word(*patch, so);
    *answer = words::words_of(said);
    *size = noted.as_slice().len() as u64;
    *bytes = noted.padded();
}

// Opens a patch of the journal, with the bytes to be written before its answer is given: 13 where one is open already. It asks nothing of a
// store.
#[unsafe(no_mangle)]
pub extern "C" fn ngawdrelo_open(
    patch: &mut u64,
    answer: &mut [u64; 6],
    bytes: &mut [u8; 36],
    size: &mut u64,
)
    ensures { Patches Step.Open patch.old patch.new answer.new size.new bytes.new }
{
    turn_patch(true, patch, answer, bytes, size);
}

// Closes the patch of the journal, with the bytes to be written before its answer is given: 13 where none is open.
#[unsafe(no_mangle)]
pub extern "C" fn ngawdrelo_close(
    patch: &mut u64,
    answer: &mut [u64; 6],
    bytes: &mut [u8; 36],
    size: &mut u64,
)
    ensures { Patches Step.Close patch.old patch.new answer.new size.new bytes.new }
{
    turn_patch(false, patch, answer, bytes, size);
}

// The store after the steps of a journal that are kept, from no store: the length kept, where reading stopped, and why. What the store was
// before does not matter.
#[unsafe(no_mangle)]
pub extern "C" fn ngawdrelo_recover(
    elapsed: &mut u64,
    occupied: &mut [u64; 6],
    tops: &mut [u16; 4],
    hand: &mut u16,
    until: &mut u64,
    heads: &mut [[u16; 64]; 6],
    values: &mut [u64],
    deadlines: &mut [u64],
    nexts: &mut [u16],
    prevs: &mut [u16],
    turns: &mut [u64],
    marks: &mut [u16],
    bytes: &[u8],
    kept: &mut u64,
    at: &mut u64,
    ending: &mut [u64; 2],
)
    ensures { Says ending_words ending.new (λ e. ReplayClaim bytes.now
        (without_store values.old deadlines.old nexts.old prevs.old turns.old marks.old)
        (found kept.new at.new e
        (store_of elapsed.new occupied.new tops.new hand.new until.new heads.new values.new deadlines.new nexts.new prevs.new turns.new marks.new))) }
{
    let start = recover::unread();
    let seen = recover::scan(start, bytes, values, deadlines, nexts, prevs, turns, marks);
    *occupied = [0; 6];
    *tops = [0, links::NOBODY, links::NOBODY, links::NOBODY];
    *heads = [[links::NOBODY; 64]; 6];
    let went = recover::apply_parts(
        &bytes[..seen.kept],
        false,
        0,
        occupied,
        tops,
        heads,
        values,
        deadlines,
        nexts,
        prevs,
        turns,
        marks,
        links::NOBODY,
        0,
    );
    *elapsed = went.elapsed;
    *hand = went.hand;
    *until = went.until;
    *kept = seen.kept as u64;
    *at = seen.at as u64;
    *ending = words::ending_of(seen.ending);
}

// ---- the gauge

// The gauge that C keeps as two floats and a flag's word.
fn gauge_in(smoothed: f64, worst: f64, any: u64) -> Gauge
    ensures { result ≡ gauge_of smoothed worst any }
{
    Gauge {
        smoothed,
        worst,
        any: any != 0,
    }
}

// Notes in a gauge what a poll at `time` answered. A fresh gauge is all 0.
#[unsafe(no_mangle)]
pub extern "C" fn ngawdrelo_gauge_note(
    smoothed: &mut f64,
    worst: &mut f64,
    any: &mut u64,
    time: u64,
    answer: &[u64; 6],
)
    ensures { NoteClaim (gauge_of smoothed.old worst.old any.old) time answer.now
        (gauge_of smoothed.new worst.new any.new) × FlagKept any.old any.new }
{
    let r = words::note_words(gauge_in(*smoothed, *worst, *any), time, *answer);
    *smoothed = r.smoothed;
    *worst = r.worst;
    *any = words::flag_word(*any, r.any);
}

// What a gauge reads at two limits: the light in two words, and the lateness that it shows.
#[unsafe(no_mangle)]
pub extern "C" fn ngawdrelo_gauge_read(
    smoothed: &f64,
    worst: &f64,
    any: &u64,
    slow: f64,
    late: f64,
    light: &mut [u64; 2],
    value: &mut f64,
)
    ensures { (light.new ≡ light_words (reading_of (gauge_of smoothed.now worst.now any.now) slow late))
        × (value.new ≡ light_value (reading_of (gauge_of smoothed.now worst.now any.now) slow late)) }
{
    let r = gauge::read(gauge_in(*smoothed, *worst, *any), slow, late);
    *light = words::light_of(r);
    *value = words::value_of(r);
}

// ---- the tick

// The 64-bit time, 0 at the start, moves on to the 32-bit tick of a board: 10 where it would pass 2^64-1.
#[unsafe(no_mangle)]
pub extern "C" fn ngawdrelo_tick_read(time: &mut u64, tick: u32, answer: &mut [u64; 6])
    ensures { Told (λ a. ReadClaim time.old tick a time.new) answer.new }
{
    match tick::read(Front { time: *time }, tick) {
        Ok(later) => {
            *time = later.time;
            *answer = words::words_of(Answer::Done);
        }
        Err(over) => *answer = words::words_of(Answer::from(over)),
    }
}

// Any call, which is made of the time that moves on to the tick. Where that is refused nothing is asked of the store.
fn ask_at<F: FnOnce(u64) -> Call>(
    time: &mut u64,
    elapsed: &mut u64,
    occupied: &mut [u64; 6],
    tops: &mut [u16; 4],
    hand: &mut u16,
    until: &mut u64,
    heads: &mut [[u16; 64]; 6],
    values: &mut [u64],
    deadlines: &mut [u64],
    nexts: &mut [u16],
    prevs: &mut [u16],
    turns: &mut [u64],
    marks: &mut [u16],
    tick: u32,
    call: F,
    answer: &mut [u64; 6],
)
    requires { F.IsAlwaysCallable call }
    ensures { Faced (λ a s. TickClaim (F.post call) time.old
        (store_of elapsed.old occupied.old tops.old hand.old until.old heads.old values.old deadlines.old nexts.old prevs.old turns.old marks.old) tick a time.new s)
        answer.new (store_of elapsed.new occupied.new tops.new hand.new until.new heads.new values.new deadlines.new nexts.new prevs.new turns.new marks.new) }
{
    match tick::read(Front { time: *time }, tick) {
        Ok(later) => {
            *time = later.time;
            ask(
                elapsed,
                occupied,
                tops,
                hand,
                until,
                heads,
                values,
                deadlines,
                nexts,
                prevs,
                turns,
                marks,
                call(later.time),
                answer,
            );
        }
        Err(over) => *answer = words::words_of(Answer::from(over)),
    }
}

// A poll at the 64-bit time that moves on to the 32-bit tick of a board. Where that is refused, with 10, nothing is asked of the store.
#[unsafe(no_mangle)]
pub extern "C" fn ngawdrelo_tick_poll(
    time: &mut u64,
    elapsed: &mut u64,
    occupied: &mut [u64; 6],
    tops: &mut [u16; 4],
    hand: &mut u16,
    until: &mut u64,
    heads: &mut [[u16; 64]; 6],
    values: &mut [u64],
    deadlines: &mut [u64],
    nexts: &mut [u16],
    prevs: &mut [u16],
    turns: &mut [u64],
    marks: &mut [u16],
    tick: u32,
    answer: &mut [u64; 6],
)
    ensures { Faced (λ a s. TickPollClaim time.old
        (store_of elapsed.old occupied.old tops.old hand.old until.old heads.old values.old deadlines.old nexts.old prevs.old turns.old marks.old) tick a time.new s)
        answer.new (store_of elapsed.new occupied.new tops.new hand.new until.new heads.new values.new deadlines.new nexts.new prevs.new turns.new marks.new) }
{
    ask_at(
        time,
        elapsed,
        occupied,
        tops,
        hand,
        until,
        heads,
        values,
        deadlines,
        nexts,
        prevs,
        turns,
        marks,
        tick,
        |now| Call::Poll(now),
        answer,
    );
}

// A poll of at most `limit` moves at the time that moves on to the tick of a board or, while a poll is in hand, at that poll's own time.
#[unsafe(no_mangle)]
pub extern "C" fn ngawdrelo_tick_poll_some(
    time: &mut u64,
    elapsed: &mut u64,
    occupied: &mut [u64; 6],
    tops: &mut [u16; 4],
    hand: &mut u16,
    until: &mut u64,
    heads: &mut [[u16; 64]; 6],
    values: &mut [u64],
    deadlines: &mut [u64],
    nexts: &mut [u16],
    prevs: &mut [u16],
    turns: &mut [u64],
    marks: &mut [u16],
    tick: u32,
    limit: u64,
    answer: &mut [u64; 6],
)
    ensures { Faced (λ a s. TickSomeClaim time.old
        (store_of elapsed.old occupied.old tops.old hand.old until.old heads.old values.old deadlines.old nexts.old prevs.old turns.old marks.old) tick limit a time.new
        s)
        answer.new (store_of elapsed.new occupied.new tops.new hand.new until.new heads.new values.new deadlines.new nexts.new prevs.new turns.new marks.new) }
{
    let h = *hand;
    let u = *until;
    ask_at(
        time,
        elapsed,
        occupied,
        tops,
        hand,
        until,
        heads,
        values,
        deadlines,
        nexts,
        prevs,
        turns,
        marks,
        tick,
        |now| -> Call
            ensures { result ≡ Call.PollSome (now_of now h u) limit }
        { Call::PollSome(tick::now_of(now, h, u), limit) },
        answer,
    );
}

// ---- the inspector

// One line more of another machine's log, without its newline. Keys and deadlines, of 1,024 words or more each, are the inspector's own; the
// state is all 0 before the first line.
#[unsafe(no_mangle)]
pub extern "C" fn ngawdrelo_inspect_line(
    state: &mut [u64; 4],
    keys: &mut [u64],
    deadlines: &mut [u64],
    line: &[u8],
)
    ensures { Says state_words state.new (λ t. InspectClaim (state_of state.old) keys.old deadlines.old
        line.now t keys.new deadlines.new) }
{
    let t = inspector::inspect_line(words::state_of(state), keys, deadlines, line);
    *state = words::state_words(t);
}

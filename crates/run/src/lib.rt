// A run of commands over one store: it is judged once, and then worked on without judging again.
#![tactic(auto)]

ghost use Rattle.std.specs.Prelude.{◌≡◌, ◌≢◌, ◌+◌, ◌≤◌, not, ◌∷◌, [], length};
ghost use Rattle.links.specs.Lists.{nobody};
ghost use Rattle.contracts.specs.Tells.{Tells};
ghost use Rattle.records.specs.Words.{words, parts, holding, Sound};
ghost use Rattle.delay_queue.specs.Claims.{FormatClaim, CallClaim};
ghost use Rattle.queue.specs.Told.{told};
ghost use Rattle.promises.specs.OneCall.{is_no};
ghost use Rattle.run.specs.Groups.{command_words, answer_words, GroupIs, BlankIs, Written};
ghost use Rattle.run.specs.Run.{MustWait, Knows, RunClaim, RunKnown};

use delay_queue::{Call, Heads};
use queue::{Answer, ReplyParts};
use refusals::Refusal;
use wheel::Wheel;

// An answer with elapsed and the poll in hand after it, and whether the store is sound then.
#[derive(Clone, Copy)]
pub struct KnownReply {
    pub answer: Answer,
    pub elapsed: u64,
    pub hand: u16,
    pub until: u64,
    pub sound: bool,
}

// Why a run stopped.
#[derive(Clone, Copy)]
pub enum Why {
    // fewer than four words are left
    NoWords,
    // the next four words are no command
    NoCommand,
    // six words of room are not left for the answer to the next command
    NoRoom,
}

// How many commands were answered and why no more were, elapsed and the poll in hand after them, and whether the store is
// sound then.
#[derive(Clone, Copy)]
pub struct RanParts {
    pub done: usize,
    pub why: Why,
    pub elapsed: u64,
    pub hand: u16,
    pub until: u64,
    pub sound: bool,
}

// How many commands were answered and why no more were, and the state and the heads after them.
#[derive(Clone, Copy)]
pub struct Ran {
    pub done: usize,
    pub why: Why,
    pub state: Wheel,
    pub heads: Heads,
}

// The call, where the words that it does not use are 0.
fn if_blank(x: u64, y: u64, z: u64, call: Call) -> Option<Call>
    ensures { BlankIs x y z call result }
{
    if x == 0 && y == 0 && z == 0 {
        Some(call)
    } else {
        None
    }
}

// What four words ask, if it is a call: a kind, and the numbers of a call in the papers' order with 0 behind them. The kinds are those of the
// journal, and 12 and 13 for the calls that change nothing.
pub fn call_of(kind: u64, a: u64, b: u64, c: u64) -> Option<Call>
    ensures { GroupIs (kind ∷ a ∷ b ∷ c ∷ []) result }
{
    match kind {
        1 => if_blank(0, 0, c, Call::Format(a, b)),
        2 => if_blank(0, 0, 0, Call::Insert(a, b, c)),
        3 => if_blank(0, 0, c, Call::Reset(a, b)),
        4 => if_blank(0, b, c, Call::Remove(a)),
        5 => if_blank(0, b, c, Call::Poll(a)),
        6 => if_blank(a, b, c, Call::Clear),
        11 => if_blank(0, 0, c, Call::PollSome(a, b)),
        12 => if_blank(a, b, c, Call::Wake),
        13 => if_blank(a, b, c, Call::Length),
        _ => None,
    }
}

// The words of a call as a command.
pub fn command_of(call: Call) -> [u64; 4]
    ensures { result ≡ command_words call }
{
    match call {
        Call::Format(n, turn) => [1, n, turn, 0],
        Call::Insert(value, when, period) => [2, value, when, period],
        Call::Reset(key, when) => [3, key, when, 0],
        Call::Remove(key) => [4, key, 0, 0],
        Call::Poll(time) => [5, time, 0, 0],
        Call::PollSome(time, limit) => [11, time, limit, 0],
        Call::Wake => [12, 0, 0, 0],
        Call::Length => [13, 0, 0, 0],
        Call::Clear => [6, 0, 0, 0],
    }
}

// An answer as six words: its number, and its numbers in the papers' order, with 0 behind them.
pub fn words_of(answer: Answer) -> [u64; 6]
    ensures { result ≡ answer_words (told answer) }
{
    match answer {
        Answer::Done => [0, 0, 0, 0, 0, 0],
        Answer::Key(key) => [1, key, 0, 0, 0, 0],
        Answer::Gone(value, deadline) => [2, value, deadline, 0, 0, 0],
        Answer::Out(key, value, deadline, moves, drains) => [
            3, key, value, deadline, moves, drains,
        ],
        Answer::Last(key, value, deadline, moves, drains) => [
            4, key, value, deadline, moves, drains,
        ],
        Answer::Nothing(moves, drains) => [5, moves, drains, 0, 0, 0],
        Answer::Wake(time) => [6, time, 0, 0, 0, 0],
        Answer::NoWake => [7, 0, 0, 0, 0, 0],
        Answer::Length(n) => [8, n, 0, 0, 0, 0],
        Answer::No(number) => [9, number, 0, 0, 0, 0],
        Answer::NotYet(moves, drains) => [10, moves, drains, 0, 0, 0],
    }
}

// The words of an answer from `at` on.
fn write_answer(to: &mut [u64], at: usize, answer: Answer)
    requires { at + 6 ≤ length to.old }
    ensures { Written at (answer_words (told answer)) to.old to.new }
{
    to[at..at + 6].copy_from_slice(&words_of(answer));
}

// Format, of the parts.
fn formats(
    elapsed: u64,
    occupied: &mut [u64; 6],
    tops: &mut [u16; 4],
    heads: &mut [[u16; 64]; 6],
    values: &mut [u64],
    deadlines: &mut [u64],
    nexts: &mut [u16],
    prevs: &mut [u16],
    turns: &mut [u64],
    marks: &mut [u16],
    hand: u16,
    until: u64,
    n: u64,
    turn: u64,
) -> ReplyParts
    ensures { FormatClaim (holding hand until (parts elapsed occupied.old tops.old heads.old values.old deadlines.old nexts.old prevs.old turns.old marks.old))
        n turn result.answer (holding result.hand result.until
        (parts result.elapsed occupied.new tops.new heads.new values.new deadlines.new nexts.new prevs.new turns.new marks.new)) }
{
    let taken = records::format_no(values, deadlines, nexts, prevs, turns, marks, n, turn);
    if let Err(refusal) = taken {
        return ReplyParts {
            answer: Answer::No(refusal.number()),
            elapsed,
            hand,
            until,
        };
    }
    records::make(
        tops, heads, values, deadlines, nexts, prevs, turns, marks, n as u16, turn,
    );
    *occupied = [0; 6];
    ReplyParts {
        answer: Answer::Done,
        elapsed: 0,
        hand: links::NOBODY,
        until: 0,
    }
}

// Whether the call must wait until the poll in hand ends. A poll judges that itself.
fn must_wait(hand: u16, call: Call) -> bool
    ensures { Tells ((hand ≢ nobody) × MustWait call) result }
{
    if hand == links::NOBODY {
        return false;
    }
    matches!(
        call,
        Call::Insert(..) | Call::Reset(..) | Call::Remove(_) | Call::Wake
    )
}

// Any call on a sound store, which stays sound.
fn on_sound(
    elapsed: u64,
    occupied: &mut [u64; 6],
    tops: &mut [u16; 4],
    heads: &mut [[u16; 64]; 6],
    values: &mut [u64],
    deadlines: &mut [u64],
    nexts: &mut [u16],
    prevs: &mut [u16],
    turns: &mut [u64],
    marks: &mut [u16],
    hand: u16,
    until: u64,
    call: Call,
) -> ReplyParts
    requires { Sound (holding hand until (parts elapsed occupied.old tops.old heads.old values.old deadlines.old nexts.old prevs.old turns.old marks.old)) }
    ensures { CallClaim call
        (holding hand until (parts elapsed occupied.old tops.old heads.old values.old deadlines.old nexts.old prevs.old turns.old marks.old))
        result.answer (holding result.hand result.until
        (parts result.elapsed occupied.new tops.new heads.new values.new deadlines.new nexts.new prevs.new turns.new marks.new)) }
{
    if must_wait(hand, call) {
        return ReplyParts {
            answer: Answer::No(Refusal::PollInHand as u64),
            elapsed,
            hand,
            until,
        };
    }
    match call {
        Call::Format(n, turn) => formats(
            elapsed, occupied, tops, heads, values, deadlines, nexts, prevs, turns, marks, hand,
            until, n, turn,
        ),
        Call::Poll(time) => queue::poll(
            elapsed,
            occupied,
            tops,
            heads,
            values,
            deadlines,
            nexts,
            prevs,
            turns,
            marks,
            hand,
            until,
            time,
            u64::MAX,
        ),
        Call::PollSome(time, limit) => queue::poll(
            elapsed, occupied, tops, heads, values, deadlines, nexts, prevs, turns, marks, hand,
            until, time, limit,
        ),
        Call::Length => {
            let n = queue::length(places::count_of(tops), marks);
            ReplyParts {
                answer: Answer::Length(n),
                elapsed,
                hand,
                until,
            }
        }
        Call::Clear => {
            let answer = queue::clear(
                elapsed, occupied, tops, heads, values, deadlines, nexts, prevs, turns, marks,
            );
            ReplyParts {
                answer,
                elapsed: 0,
                hand: links::NOBODY,
                until: 0,
            }
        }
        Call::Insert(value, when, period) => {
            let answer = queue::insert(
                elapsed, occupied, tops, heads, values, deadlines, nexts, prevs, turns, marks,
                value, when, period,
            );
            ReplyParts {
                answer,
                elapsed,
                hand: links::NOBODY,
                until: 0,
            }
        }
        Call::Reset(key, when) => {
            let answer = queue::reset(
                elapsed, occupied, tops, heads, values, deadlines, nexts, prevs, turns, marks, key,
                when,
            );
            ReplyParts {
                answer,
                elapsed,
                hand: links::NOBODY,
                until: 0,
            }
        }
        Call::Remove(key) => {
            let answer = queue::remove(
                elapsed, occupied, tops, heads, values, deadlines, nexts, prevs, turns, marks, key,
            );
            ReplyParts {
                answer,
                elapsed,
                hand: links::NOBODY,
                until: 0,
            }
        }
        Call::Wake => {
            let expired = places::first_expired(tops);
            let parked = places::first_parked(tops);
            let answer = queue::next_wake(elapsed, occupied, deadlines, expired, parked);
            ReplyParts {
                answer,
                elapsed,
                hand,
                until,
            }
        }
    }
}

// Whether the answer is no refusal.
fn accepted(answer: Answer) -> bool
    ensures { result ≡ not (is_no (told answer)) }
{
    !matches!(answer, Answer::No(_))
}

// Any call on a store of which it is known whether it is sound: it is not judged again, and known after it.
pub fn known(
    sound: bool,
    elapsed: u64,
    occupied: &mut [u64; 6],
    tops: &mut [u16; 4],
    heads: &mut [[u16; 64]; 6],
    values: &mut [u64],
    deadlines: &mut [u64],
    nexts: &mut [u16],
    prevs: &mut [u16],
    turns: &mut [u64],
    marks: &mut [u16],
    hand: u16,
    until: u64,
    call: Call,
) -> KnownReply
    requires { Tells (Sound (holding hand until
        (parts elapsed occupied.old tops.old heads.old values.old deadlines.old nexts.old prevs.old turns.old marks.old))) sound }
    ensures { Knows call (holding hand until (parts elapsed occupied.old tops.old heads.old values.old deadlines.old nexts.old prevs.old turns.old marks.old))
        result.answer (holding result.hand result.until
        (parts result.elapsed occupied.new tops.new heads.new values.new deadlines.new nexts.new prevs.new turns.new marks.new)) result.sound }
{
    if sound {
        let out = on_sound(
            elapsed, occupied, tops, heads, values, deadlines, nexts, prevs, turns, marks, hand,
            until, call,
        );
        let answer = out.answer;
        return KnownReply {
            answer,
            elapsed: out.elapsed,
            hand: out.hand,
            until: out.until,
            sound: true,
        };
    }
    let Call::Format(n, turn) = call else {
        let answer = Answer::No(Refusal::NotSound as u64);
        return KnownReply {
            answer,
            elapsed,
            hand,
            until,
            sound: false,
        };
    };
    let out = formats(
        elapsed, occupied, tops, heads, values, deadlines, nexts, prevs, turns, marks, hand, until,
        n, turn,
    );
    let answer = out.answer;
    let taken = accepted(answer);
    KnownReply {
        answer,
        elapsed: out.elapsed,
        hand: out.hand,
        until: out.until,
        sound: taken,
    }
}

// The commands one after the other, as long as there is one and room for its answer, on a store of which it is known whether
// it is sound.
pub fn answer_all(
    sound: bool,
    elapsed: u64,
    occupied: &mut [u64; 6],
    tops: &mut [u16; 4],
    heads: &mut [[u16; 64]; 6],
    values: &mut [u64],
    deadlines: &mut [u64],
    nexts: &mut [u16],
    prevs: &mut [u16],
    turns: &mut [u64],
    marks: &mut [u16],
    hand: u16,
    until: u64,
    commands: &[u64],
    answers: &mut [u64],
) -> RanParts
    requires { Tells (Sound (holding hand until
        (parts elapsed occupied.old tops.old heads.old values.old deadlines.old nexts.old prevs.old turns.old marks.old))) sound }
    ensures { RunKnown (holding hand until (parts elapsed occupied.old tops.old heads.old values.old deadlines.old nexts.old prevs.old turns.old marks.old))
        commands.now answers.old result.done result.why (holding result.hand result.until
        (parts result.elapsed occupied.new tops.new heads.new values.new deadlines.new nexts.new prevs.new turns.new marks.new)) answers.new result.sound }
{
    let mut e = elapsed;
    let mut h = hand;
    let mut u = until;
    let mut fine = sound;
    let many = commands.len() / 4;
    let room = answers.len() / 6;
    for i in 0..many {
        let at = 4 * i;
        let group = call_of(
            commands[at],
            commands[at + 1],
            commands[at + 2],
            commands[at + 3],
        );
        let Some(call) = group else {
            return RanParts {
                done: i,
                why: Why::NoCommand,
                elapsed: e,
                hand: h,
                until: u,
                sound: fine,
            };
        };
        if room <= i {
            return RanParts {
                done: i,
                why: Why::NoRoom,
                elapsed: e,
                hand: h,
                until: u,
                sound: fine,
            };
        }
        let said = known(
            fine, e, occupied, tops, heads, values, deadlines, nexts, prevs, turns, marks, h, u,
            call,
        );
        e = said.elapsed;
        h = said.hand;
        u = said.until;
        fine = said.sound;
        write_answer(answers, 6 * i, said.answer);
    }
    RanParts {
        done: many,
        why: Why::NoWords,
        elapsed: e,
        hand: h,
        until: u,
        sound: fine,
    }
}

// A run of commands: the store is judged once. What is answered and left is what the calls answer and leave one by one, and
// it says how many were answered and why no more were.
pub fn run(
    state: Wheel,
    mut heads: [[u16; 64]; 6],
    values: &mut [u64],
    deadlines: &mut [u64],
    nexts: &mut [u16],
    prevs: &mut [u16],
    turns: &mut [u64],
    marks: &mut [u16],
    commands: &[u64],
    answers: &mut [u64],
) -> Ran
    ensures { RunClaim (words state heads values.old deadlines.old nexts.old prevs.old turns.old marks.old)
        commands.now answers.old result.done result.why
        (words result.state result.heads.heads values.new deadlines.new nexts.new prevs.new turns.new marks.new) answers.new }
{
    let sound = judge::is_sound(state, heads, values, deadlines, nexts, prevs, turns, marks);
    let mut occupied = state.occupied;
    let mut tops = places::tops_in(state.tops);
    let went = answer_all(
        sound,
        state.elapsed,
        &mut occupied,
        &mut tops,
        &mut heads,
        values,
        deadlines,
        nexts,
        prevs,
        turns,
        marks,
        state.hand,
        state.until,
        commands,
        answers,
    );
    let after = records::wheel_of(went.elapsed, occupied, tops, went.hand, went.until);
    let h = delay_queue::heads_of(heads);
    let why = went.why;
    Ran {
        done: went.done,
        why,
        state: after,
        heads: h,
    }
}

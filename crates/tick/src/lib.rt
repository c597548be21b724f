// The front part of a board that counts milliseconds in 32 bits and starts again at 0: it keeps the 64-bit time. It
// must be read again before 2^32 ms are over, that is within 49 days and 17 hours: a longer gap cannot be seen.
#![tactic(auto)]

ghost use Rattle.queue.specs.declared.Answer.TheVariants.{No};
ghost use Rattle.records.specs.Words.{words};
ghost use Rattle.std.specs.Prelude.{◌≡◌};
ghost use Rattle.tick.specs.Claims.{difference_of, StartClaim, ReadClaim, TickPollClaim, now_of, TickSomeClaim};
ghost use Rattle.tick.specs.Reads.{answered, time_after};

use delay_queue::{Reply, unchanged};
use queue::Answer;
use refusals::Refusal;
use wheel::Wheel;

// The ticks after which a board's count starts again at 0.
const ROUND: u64 = 1 << 32;

// The time. A board keeps the last one only.
#[derive(Clone, Copy, Debug, PartialEq, Eq)]
pub struct Front {
    pub time: u64,
}

// Why a reading is refused: the time would pass 2^64-1.
#[derive(Clone, Copy, Debug, PartialEq, Eq)]
pub struct TimeOver;

// As an answer it is number 10.
impl From<TimeOver> for Answer {
    ghost from_gives = { λ _ a. a ≡ No 10 };

    fn from(_over: TimeOver) -> Answer {
        Answer::No(Refusal::TimeOver as u64)
    }
}

// What a poll through the front part hands back.
#[derive(Clone, Copy)]
pub struct TickReply {
    pub reply: Reply,
    pub front: Front,
}

pub fn start() -> Front
    ensures { StartClaim result.time }
{
    Front { time: 0 }
}

// How far the tick is ahead of the low 32 bits of the time, round the 2^32.
fn difference(time: u64, tick: u32) -> u64
    ensures { result ≡ difference_of time tick }
{
    let low = (time % ROUND) as u32;
    u64::from(tick.wrapping_sub(low))
}

// The time moves on to the tick, or the reading is refused.
pub fn read(front: Front, tick: u32) -> Result<Front, TimeOver>
    ensures { ReadClaim front.time tick (answered result) (time_after front.time result) }
{
    let step = difference(front.time, tick);
    let time = front.time.checked_add(step).ok_or(TimeOver)?;
    Ok(Front { time })
}

// A poll at the time that the tick tells. A reading that is refused asks nothing of the store; one that is taken stays
// taken, whatever the poll answers.
pub fn poll(
    front: Front,
    state: Wheel,
    heads: [[u16; 64]; 6],
    values: &[u64],
    deadlines: &mut [u64],
    nexts: &mut [u16],
    prevs: &mut [u16],
    turns: &mut [u64],
    marks: &mut [u16],
    tick: u32,
) -> TickReply
    ensures { TickPollClaim front.time (words state heads values.now deadlines.old nexts.old prevs.old turns.old marks.old)
        tick result.reply.answer result.front.time
        (words result.reply.state result.reply.heads.heads values.now deadlines.new nexts.new prevs.new turns.new marks.new) }
{
    match read(front, tick) {
        Ok(moved) => {
            let reply = delay_queue::poll(
                state, heads, values, deadlines, nexts, prevs, turns, marks, moved.time,
            );
            TickReply {
                reply,
                front: moved,
            }
        }
        Err(over) => {
            let reply = unchanged(Answer::from(over), state, heads);
            TickReply { reply, front }
        }
    }
}

// The now to poll with: that of the poll in hand, if there is one, which no other now goes on with, and else the time.
pub fn now_of(time: u64, hand: u16, until: u64) -> u64
    ensures { result ≡ now_of time hand until }
{
    if hand == links::NOBODY {
        return time;
    }
    until
}

// `poll` and `poll_some` stay two: a closure that polls would hold the lent slices, and how it leaves them its caller could not know;
// one that gives now and limit would poll by `poll_some` alone, whose claim is another than that of a poll without a limit.

// A poll with a limit at the time that the tick tells, or, while a poll is in hand, at its now: the clock may have moved on
// since it paused. A reading is refused and taken as by `poll`.
pub fn poll_some(
    front: Front,
    state: Wheel,
    heads: [[u16; 64]; 6],
    values: &[u64],
    deadlines: &mut [u64],
    nexts: &mut [u16],
    prevs: &mut [u16],
    turns: &mut [u64],
    marks: &mut [u16],
    tick: u32,
    limit: u64,
) -> TickReply
    ensures { TickSomeClaim front.time (words state heads values.now deadlines.old nexts.old prevs.old turns.old marks.old)
        tick limit result.reply.answer result.front.time
        (words result.reply.state result.reply.heads.heads values.now deadlines.new nexts.new prevs.new turns.new marks.new) }
{
    match read(front, tick) {
        Ok(later) => {
            let now = now_of(later.time, state.hand, state.until);
            let reply = delay_queue::poll_some(
                state, heads, values, deadlines, nexts, prevs, turns, marks, now, limit,
            );
            TickReply {
                reply,
                front: later,
            }
        }
        Err(over) => {
            let same = unchanged(Answer::from(over), state, heads);
            TickReply { reply: same, front }
        }
    }
}

// Any call of the queue, by one function.
#![tactic(auto)]

ghost use Rattle.records.specs.Words.{words};
ghost use Rattle.delay_queue.specs.Claims.{CallClaim};

use delay_queue::{Call, Reply};
use wheel::Wheel;

pub fn ask(
    state: Wheel,
    heads: [[u16; 64]; 6],
    values: &mut [u64],
    deadlines: &mut [u64],
    nexts: &mut [u16],
    prevs: &mut [u16],
    turns: &mut [u64],
    marks: &mut [u16],
    call: Call,
) -> Reply
    ensures { CallClaim
        call
        (words state heads values.old deadlines.old nexts.old prevs.old turns.old marks.old)
        result.answer
        (words result.state result.heads.heads values.new deadlines.new nexts.new prevs.new turns.new marks.new) }
{
    match call {
        Call::Format(n, turn) => delay_queue::format(
            state, heads, values, deadlines, nexts, prevs, turns, marks, n, turn,
        ),
        Call::Insert(value, when, period) => delay_queue::insert(
            state, heads, values, deadlines, nexts, prevs, turns, marks, value, when, period,
        ),
        Call::Reset(key, when) => delay_queue::reset(
            state, heads, values, deadlines, nexts, prevs, turns, marks, key, when,
        ),
        Call::Remove(key) => delay_queue::remove(
            state, heads, values, deadlines, nexts, prevs, turns, marks, key,
        ),
        Call::Poll(time) => delay_queue::poll(
            state, heads, values, deadlines, nexts, prevs, turns, marks, time,
        ),
        Call::PollSome(time, limit) => delay_queue::poll_some(
            state, heads, values, deadlines, nexts, prevs, turns, marks, time, limit,
        ),
        Call::Wake => {
            let answer = delay_queue::next_wake(
                state, heads, values, deadlines, nexts, prevs, turns, marks,
            );
            delay_queue::unchanged(answer, state, heads)
        }
        Call::Length => {
            let answer = delay_queue::length(
                state, heads, values, deadlines, nexts, prevs, turns, marks,
            );
            delay_queue::unchanged(answer, state, heads)
        }
        Call::Clear => delay_queue::clear(
            state, heads, values, deadlines, nexts, prevs, turns, marks,
        ),
    }
}

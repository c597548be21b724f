// How a claim is cited: code that lends a store, with a contract of its own that follows from the claims of the calls it makes.
#![tactic(auto)]

ghost use Rattle.records.specs.Words.{words};
ghost use Rattle.lending.specs.Lending.{CancelsTwice};

use delay_queue::{Reply, remove};
use wheel::Wheel;

// Cancels the timer of a key twice, and hands back the second reply: whatever the key, a sound store refuses it then with number 6.
pub fn cancel_twice(
    state: Wheel,
    heads: [[u16; 64]; 6],
    values: &[u64],
    deadlines: &[u64],
    nexts: &mut [u16],
    prevs: &mut [u16],
    turns: &mut [u64],
    marks: &mut [u16],
    key: u64,
) -> Reply
    ensures { CancelsTwice
        (words state heads values.now deadlines.now nexts.old prevs.old turns.old marks.old)
        key
        result.answer
        (words result.state result.heads.heads values.now deadlines.now nexts.new prevs.new turns.new marks.new) }
{
    let first = remove(
        state, heads, values, deadlines, nexts, prevs, turns, marks, key,
    );
    let s = first.state;
    let heads_after = first.heads;
    let h = delay_queue::heads_in(heads_after);
    remove(s, h, values, deadlines, nexts, prevs, turns, marks, key)
}

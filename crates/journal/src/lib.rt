// A store with its journal: a step acts, and leaves the bytes to be written before its answer is given.
#![tactic(auto)]

ghost use Rattle.records.specs.Words.{words};
ghost use Rattle.std.specs.Prelude.{◌≡◌, cond};
ghost use Rattle.queue.specs.Told.{told};
ghost use Rattle.queue.specs.Told as T;
ghost use Rattle.journal.specs.Journal.{unwritten, written, ActClaim};

use delay_queue::Heads;
use entries::{Bytes, Step};
use queue::Answer;
use refusals::Refusal;
use wheel::Wheel;

// The answer, whether a patch is open, the bytes to be written, and the state and the heads after the step.
#[derive(Clone, Copy)]
pub struct Acted {
    pub answer: Answer,
    pub patch: bool,
    pub bytes: Bytes,
    pub state: Wheel,
    pub heads: Heads,
}

// Whether a step with this answer is not written.
fn is_unwritten(answer: Answer) -> bool
    ensures { result ≡ unwritten (told answer) }
{
    matches!(answer, Answer::No(1 | 2 | 13))
}

// The bytes of a step with its answer.
pub fn note(step: Step, answer: Answer) -> Bytes
    ensures { result ≡ written step (told answer) }
{
    if is_unwritten(answer) {
        return entries::no_bytes();
    }
    entries::bytes_of(step)
}

// The answer to an open or a close: 13 where a patch is open already, or none is.
pub fn patched(refused: bool) -> Answer
    ensures { told result ≡ cond refused (T.no 13) T.ok }
{
    if refused {
        return Answer::No(Refusal::BadPatch as u64);
    }
    Answer::Done
}

// Does a step where a patch is open or not. Its bytes, 0, 18 or 36, are to be written before its answer is given.
pub fn act(
    patch: bool,
    state: Wheel,
    heads: [[u16; 64]; 6],
    values: &mut [u64],
    deadlines: &mut [u64],
    nexts: &mut [u16],
    prevs: &mut [u16],
    turns: &mut [u64],
    marks: &mut [u16],
    step: Step,
) -> Acted
    ensures { ActClaim patch (words state heads values.old deadlines.old nexts.old prevs.old turns.old marks.old) step
        result.answer result.patch (words result.state result.heads.heads values.new deadlines.new nexts.new prevs.new turns.new marks.new)
        result.bytes }
{
    match step {
        Step::Asks(call) => {
            let r = any_call::ask(
                state, heads, values, deadlines, nexts, prevs, turns, marks, call,
            );
            let answer = r.answer;
            Acted {
                answer,
                patch,
                bytes: note(step, answer),
                state: r.state,
                heads: r.heads,
            }
        }
        Step::Open => {
            let answer = patched(patch);
            Acted {
                answer,
                patch: true,
                bytes: note(step, answer),
                state,
                heads: delay_queue::heads_of(heads),
            }
        }
        Step::Close => {
            let answer = patched(!patch);
            Acted {
                answer,
                patch: false,
                bytes: note(step, answer),
                state,
                heads: delay_queue::heads_of(heads),
            }
        }
    }
}

// One line of the bench: it is read, asked of the store, and answered with a line.
#![tactic(auto)]

ghost use Rattle.contracts.specs.Tells.{Tells};
ghost use Rattle.records.specs.Words.{words, parts, holding, Sound};
ghost use Rattle.bench.specs.Line.{LineClaim};
ghost use Rattle.bench.specs.Parts.{Known, Heard, LineKnown};

use answering::{write_answer, write_bad};
use asking::read_line;
use delay_queue::{Call, Heads};
use wheel::Wheel;

// Where the answer ends in what is written, and the state and the heads after it.
#[derive(Clone, Copy)]
pub struct LineDone {
    pub at: usize,
    pub state: Wheel,
    pub heads: Heads,
}

// Whether the bench knows the letter of the call: q, of a poll with a limit, only where it knows limits.
fn is_known(limits: bool, call: Call) -> bool
    ensures { Tells (Known limits call) result }
{
    match call {
        Call::PollSome(_, _) => limits,
        _ => true,
    }
}

// What a line asks.
fn hear(limits: bool, line: &[u8]) -> Option<Call>
    ensures { Heard limits line.now result }
{
    let call = read_line(line)?;
    if is_known(limits, call) {
        return Some(call);
    }
    None
}

// Answers the line, which comes without its newline, into out from at on.
pub fn answer_line(
    limits: bool,
    line: &[u8],
    state: Wheel,
    heads: Heads,
    values: &mut [u64],
    deadlines: &mut [u64],
    nexts: &mut [u16],
    prevs: &mut [u16],
    turns: &mut [u64],
    marks: &mut [u16],
    out: &mut [u8],
    at: usize,
) -> LineDone
    ensures { LineClaim
        limits
        line.now
        (words state heads.heads values.old deadlines.old nexts.old prevs.old turns.old marks.old)
        out.old
        at
        (words result.state result.heads.heads values.new deadlines.new nexts.new prevs.new turns.new marks.new)
        out.new
        result.at }
{
    match hear(limits, line) {
        Some(call) => {
            let reply = any_call::ask(
                state,
                delay_queue::heads_in(heads),
                values,
                deadlines,
                nexts,
                prevs,
                turns,
                marks,
                call,
            );
            LineDone {
                at: write_answer(out, at, reply.answer),
                state: reply.state,
                heads: reply.heads,
            }
        }
        None => LineDone {
            at: write_bad(out, at),
            state,
            heads,
        },
    }
}

// Where the answer ends in what is written, elapsed and the poll in hand after it, and whether the store is sound then.
#[derive(Clone, Copy)]
pub struct Found {
    pub at: usize,
    pub elapsed: u64,
    pub hand: u16,
    pub until: u64,
    pub sound: bool,
}

// The same on a store of which it is known whether it is sound, which is not judged again.
pub fn answer_known(
    limits: bool,
    line: &[u8],
    sound: bool,
    elapsed: u64,
    occupied: &mut [u64; 6],
    tops: &mut [u16; 4],
    heads: &mut [[u16; 64]; 6],
    values: &mut [u64],
    deadlines: &mut [u64],
    nexts: &mut [u16],
    prevs: &mut [u16],
    turns: &mut [u64],
    marks: &mut [u16],
    hand: u16,
    until: u64,
    out: &mut [u8],
    at: usize,
) -> Found
    requires { Tells (Sound (holding hand until
        (parts elapsed occupied.old tops.old heads.old values.old deadlines.old nexts.old prevs.old turns.old marks.old))) sound }
    ensures { LineKnown
        limits
        line.now
        (holding hand until (parts elapsed occupied.old tops.old heads.old values.old deadlines.old nexts.old prevs.old turns.old marks.old))
        out.old
        at
        (holding result.hand result.until (parts result.elapsed occupied.new tops.new heads.new values.new deadlines.new nexts.new prevs.new turns.new marks.new))
        out.new
        result.at
        result.sound }
{
    match hear(limits, line) {
        Some(call) => {
            let said = run::known(
                sound, elapsed, occupied, tops, heads, values, deadlines, nexts, prevs, turns,
                marks, hand, until, call,
            );
            Found {
                at: write_answer(out, at, said.answer),
                elapsed: said.elapsed,
                hand: said.hand,
                until: said.until,
                sound: said.sound,
            }
        }
        None => Found {
            at: write_bad(out, at),
            elapsed,
            hand,
            until,
            sound,
        },
    }
}

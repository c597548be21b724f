// Recovery: the bytes of a journal, cut or damaged anywhere, and the store after the steps that are kept. They may come in
// chunks: `scan` goes over them first and says how far they are kept; `apply` goes over those that are kept.
#![tactic(auto)]

ghost use Rattle.std.specs.Prelude.{◌≡◌, ◌+◌, ◌^◌, ◌≤◌, ◌<◌, drop};
ghost use Rattle.contracts.specs.Tells.{Tells};
ghost use Rattle.records.specs.Slices.{slices_of, Fits};
ghost use Rattle.records.specs.Words.{words, parts, holding, Sound};
ghost use Rattle.recover.specs.Replay.{no_heads, without_store, found, size, ReplayClaim};
ghost use Rattle.recover.specs.Scan.{Short, NumberOf, Admits, live_after, open_after, calls_of, at_start, behind, is_cut, ScanClaim};
ghost use Rattle.recover.specs.Apply.{Applies};
ghost use Rattle.recover.specs.Parts.{MakesKnown};

use delay_queue::{Call, Heads};
use entries::{Ending, Step};
use refusals::Refusal;
use wheel::Wheel;

// The length kept, where reading stopped and why, and the state and the heads of the store.
#[derive(Clone, Copy)]
pub struct Recovered {
    pub kept: usize,
    pub at: usize,
    pub ending: Ending,
    pub state: Wheel,
    pub heads: Heads,
}

// How far a journal was read: the length kept so far, where the next step stands, how many calls lie between, which are of a
// patch that is not closed, whether there is a store and a patch is open there, and why nothing more was read. A cut is no
// damage: more bytes may come.
#[derive(Clone, Copy)]
pub struct Seen {
    pub kept: usize,
    pub at: usize,
    pub left: usize,
    pub live: bool,
    pub patch: bool,
    pub ending: Ending,
}

// How many bytes were used, and the state and the heads of the store behind them.
#[derive(Clone, Copy)]
pub struct Applied {
    pub used: usize,
    pub state: Wheel,
    pub heads: Heads,
}

// Elapsed and the poll in hand of a store, and whether it is sound.
#[derive(Clone, Copy)]
struct Held {
    elapsed: u64,
    hand: u16,
    until: u64,
    sound: bool,
}

// How many bytes were used, and elapsed and the poll in hand of the store behind them.
#[derive(Clone, Copy)]
pub struct AppliedParts {
    pub used: usize,
    pub elapsed: u64,
    pub hand: u16,
    pub until: u64,
}

// How many bytes a step has.
fn size_of(step: Step) -> usize
    ensures { result ≡ size step }
{
    let Step::Asks(call) = step else {
        return 18;
    };
    match call {
        Call::Insert(_, _, period) => if period == 0 { 18 } else { 36 },
        Call::Wake | Call::Length => 0,
        _ => 18,
    }
}

// 1 for a format that is refused with it.
fn format_number(
    n: u64,
    values: &[u64],
    deadlines: &[u64],
    nexts: &[u16],
    prevs: &[u16],
    turns: &[u64],
    marks: &[u16],
) -> Option<u64>
    ensures { Short (Fits (slices_of values.now deadlines.now nexts.now prevs.now turns.now marks.now) n) result }
{
    if n == 0 || (records::LIMIT as u64) < n {
        return Some(Refusal::NoRoom as u64);
    }
    if !records::has_room(n as u16, values, deadlines, nexts, prevs, turns, marks) {
        return Some(Refusal::NoRoom as u64);
    }
    None
}

// The number of a step, if it is 1, 2 or 13.
fn number_of(
    step: Step,
    live: bool,
    patch: bool,
    values: &[u64],
    deadlines: &[u64],
    nexts: &[u16],
    prevs: &[u16],
    turns: &[u64],
    marks: &[u16],
) -> Option<u64>
    ensures { NumberOf (slices_of values.now deadlines.now nexts.now prevs.now turns.now marks.now) live patch step result }
{
    match step {
        Step::Asks(call) => match call {
            Call::Format(n, _turn) => format_number(
                n, values, deadlines, nexts, prevs, turns, marks,
            ),
            _ => (!live).then_some(2),
        },
        Step::Open => patch.then_some(13),
        Step::Close => (!patch).then_some(13),
    }
}

// Whether there is a store after a step that is not refused with 1 or 2.
fn lives(live: bool, step: Step) -> bool
    ensures { result ≡ live_after live step }
{
    match step {
        Step::Asks(call) => match call {
            Call::Format(_, turn) => live || turn != 0 && turn <= records::LAST_TURN,
            _ => live,
        },
        _ => live,
    }
}

// Whether a patch is open after a step.
fn opens(patch: bool, step: Step) -> bool
    ensures { result ≡ open_after patch step }
{
    match step {
        Step::Asks(_) => patch,
        Step::Open => true,
        Step::Close => false,
    }
}

// Opens and closes are no calls.
fn calls_of(step: Step) -> usize
    ensures value { result ≡ calls_of step }
    ensures upper_bound { result ≤ 1 }
{
    match step {
        Step::Asks(_) => 1,
        Step::Open => 0,
        Step::Close => 0,
    }
}

// How far a journal was read, a step more: where no patch is open behind it, all is kept.
fn behind(step: Step, seen: Seen) -> Seen
    requires { (seen.at + size step < 2 ^ 64) × (seen.left + 1 < 2 ^ 64) }
    ensures { result ≡ behind step seen }
{
    let at = seen.at + size_of(step);
    let live = lives(seen.live, step);
    let patch = opens(seen.patch, step);
    let ending = Ending::Cut;
    if patch {
        return Seen {
            kept: seen.kept,
            at,
            left: seen.left + calls_of(step),
            live,
            patch,
            ending,
        };
    }
    Seen {
        kept: at,
        at,
        left: 0,
        live,
        patch,
        ending,
    }
}

// Before anything is read.
pub fn unread() -> Seen
    ensures { result ≡ at_start }
{
    Seen {
        kept: 0,
        at: 0,
        left: 0,
        live: false,
        patch: false,
        ending: Ending::Cut,
    }
}

// Whether it is a cut and no damage.
pub fn is_cut(ending: Ending) -> bool
    ensures { result ≡ is_cut ending }
{
    matches!(ending, Ending::Cut)
}

// The step that the bytes from at on begin with, if it gets none of 1, 2 and 13.
fn admitted(
    bytes: &[u8],
    at: usize,
    live: bool,
    patch: bool,
    values: &[u64],
    deadlines: &[u64],
    nexts: &[u16],
    prevs: &[u16],
    turns: &[u64],
    marks: &[u16],
) -> Result<Step, Ending>
    ensures { Admits (slices_of values.now deadlines.now nexts.now prevs.now turns.now marks.now) live patch (drop at bytes.now) result }
{
    let step = entries::read_step(bytes, at)?;
    match number_of(
        step, live, patch, values, deadlines, nexts, prevs, turns, marks,
    ) {
        Some(number) => Err(Ending::Gets(number)),
        None => Ok(step),
    }
}

// Reads on in the bytes that stand from `seen.at` on, as many of them as there are: where their last step is not whole, the
// next chunk begins with it. It needs no store, but the lengths of its slices.
pub fn scan(
    seen: Seen,
    bytes: &[u8],
    values: &[u64],
    deadlines: &[u64],
    nexts: &[u16],
    prevs: &[u16],
    turns: &[u64],
    marks: &[u16],
) -> Seen
    ensures { ScanClaim (slices_of values.now deadlines.now nexts.now prevs.now turns.now marks.now) bytes.now seen result }
{
    if !is_cut(seen.ending) {
        return seen;
    }
    if usize::MAX - seen.at < bytes.len() || seen.at < seen.left {
        return seen;
    }
    let mut now = seen;
    // no `for`: it ends at the entry that is not admitted, which is handed back
    loop {
        let i = now.at - seen.at;
        match admitted(
            bytes, i, now.live, now.patch, values, deadlines, nexts, prevs, turns, marks,
        ) {
            Err(ending) => return Seen { ending, ..now },
            Ok(step) => now = behind(step, now),
        }
    }
}

// One step, asked of a store of which it is known whether it is sound, as a run of one command; opens and closes leave it.
fn one(
    step: Step,
    sound: bool,
    elapsed: u64,
    occupied: &mut [u64; 6],
    tops: &mut [u16; 4],
    heads: &mut [[u16; 64]; 6],
    values: &mut [u64],
    deadlines: &mut [u64],
    nexts: &mut [u16],
    prevs: &mut [u16],
    turns: &mut [u64],
    marks: &mut [u16],
    hand: u16,
    until: u64,
) -> Held
    requires { Tells (Sound (holding hand until
        (parts elapsed occupied.old tops.old heads.old values.old deadlines.old nexts.old prevs.old turns.old marks.old))) sound }
    ensures { MakesKnown step
        (holding hand until (parts elapsed occupied.old tops.old heads.old values.old deadlines.old nexts.old prevs.old turns.old marks.old))
        (holding result.hand result.until
        (parts result.elapsed occupied.new tops.new heads.new values.new deadlines.new nexts.new prevs.new turns.new marks.new)) result.sound }
{
    match step {
        Step::Asks(call) => {
            let command = run::command_of(call);
            let mut answer = [0u64; 6];
            let said = run::answer_all(
                sound,
                elapsed,
                occupied,
                tops,
                heads,
                values,
                deadlines,
                nexts,
                prevs,
                turns,
                marks,
                hand,
                until,
                &command,
                &mut answer,
            );
            Held {
                elapsed: said.elapsed,
                hand: said.hand,
                until: said.until,
                sound: said.sound,
            }
        }
        Step::Open | Step::Close => Held {
            elapsed,
            hand,
            until,
            sound,
        },
    }
}

// The steps that the bytes begin with, one after the other, as many as are whole. The store is not judged.
pub fn apply_parts(
    bytes: &[u8],
    sound: bool,
    elapsed: u64,
    occupied: &mut [u64; 6],
    tops: &mut [u16; 4],
    heads: &mut [[u16; 64]; 6],
    values: &mut [u64],
    deadlines: &mut [u64],
    nexts: &mut [u16],
    prevs: &mut [u16],
    turns: &mut [u64],
    marks: &mut [u16],
    hand: u16,
    until: u64,
) -> AppliedParts
    requires { Tells (Sound (holding hand until
        (parts elapsed occupied.old tops.old heads.old values.old deadlines.old nexts.old prevs.old turns.old marks.old))) sound }
    ensures { Applies bytes.now (holding hand until
        (parts elapsed occupied.old tops.old heads.old values.old deadlines.old nexts.old prevs.old turns.old marks.old)) result.used
        (holding result.hand result.until
        (parts result.elapsed occupied.new tops.new heads.new values.new deadlines.new nexts.new prevs.new turns.new marks.new)) }
{
    let mut used: usize = 0;
    let mut e = elapsed;
    let mut h = hand;
    let mut u = until;
    let mut fine = sound;
    // no `for`: how long a step is only the step says
    while let Ok(step) = entries::read_step(bytes, used) {
        let r = one(
            step, fine, e, occupied, tops, heads, values, deadlines, nexts, prevs, turns, marks, h,
            u,
        );
        e = r.elapsed;
        h = r.hand;
        u = r.until;
        fine = r.sound;
        used += size_of(step);
    }
    AppliedParts {
        used,
        elapsed: e,
        hand: h,
        until: u,
    }
}

// Asks the steps that the bytes begin with of a store, one after the other, as many as are whole; opens and closes leave it.
// The store is judged once.
pub fn apply(
    bytes: &[u8],
    state: Wheel,
    heads: Heads,
    values: &mut [u64],
    deadlines: &mut [u64],
    nexts: &mut [u16],
    prevs: &mut [u16],
    turns: &mut [u64],
    marks: &mut [u16],
) -> Applied
    ensures { Applies bytes.now (words state heads.heads values.old deadlines.old nexts.old prevs.old turns.old marks.old) result.used
        (words result.state result.heads.heads values.new deadlines.new nexts.new prevs.new turns.new marks.new) }
{
    let mut here = delay_queue::heads_in(heads);
    let sound = judge::is_sound(state, here, values, deadlines, nexts, prevs, turns, marks);
    let mut occupied = state.occupied;
    let mut tops = places::tops_in(state.tops);
    let r = apply_parts(
        bytes,
        sound,
        state.elapsed,
        &mut occupied,
        &mut tops,
        &mut here,
        values,
        deadlines,
        nexts,
        prevs,
        turns,
        marks,
        state.hand,
        state.until,
    );
    let behind = records::wheel_of(r.elapsed, occupied, tops, r.hand, r.until);
    let h = delay_queue::heads_of(here);
    Applied {
        used: r.used,
        state: behind,
        heads: h,
    }
}

// Nobody is the head of any slot.
pub fn no_heads() -> Heads
    ensures { result.heads ≡ no_heads }
{
    let grid = [[links::NOBODY; 64]; 6];
    delay_queue::heads_of(grid)
}

// Reads the bytes of a journal, and makes in what is lent the store after the steps that are kept, from no store.
pub fn replay(
    bytes: &[u8],
    values: &mut [u64],
    deadlines: &mut [u64],
    nexts: &mut [u16],
    prevs: &mut [u16],
    turns: &mut [u64],
    marks: &mut [u16],
) -> Recovered
    ensures { ReplayClaim bytes.now (without_store values.old deadlines.old nexts.old prevs.old turns.old marks.old)
        (found result.kept result.at result.ending
        (words result.state result.heads.heads values.new deadlines.new nexts.new prevs.new turns.new marks.new)) }
{
    let start = unread();
    let s = scan(start, bytes, values, deadlines, nexts, prevs, turns, marks);
    let none = delay_queue::no_store();
    let heads = no_heads();
    let r = apply(
        &bytes[..s.kept],
        none,
        heads,
        values,
        deadlines,
        nexts,
        prevs,
        turns,
        marks,
    );
    Recovered {
        kept: s.kept,
        at: s.at,
        ending: s.ending,
        state: r.state,
        heads: r.heads,
    }
}

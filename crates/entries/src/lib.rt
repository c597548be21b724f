// Entries of the journal: the bytes of a step, and what bytes say.
#![tactic(auto)]

ghost use Rattle.std.specs.Prelude.{◌≡◌, [], ◌++◌, ◌+◌, ◌≤◌, ◌<◌, length, drop, MatchOption};
ghost use Rattle.writing.specs.Writing.{Wrote};
ghost use Rattle.entries.specs.Entries.{entry, insert_bytes, step_bytes};
ghost use Rattle.entries.specs.Reading.{entry_in, field_zeros, zeros, checked};
ghost use Rattle.entries.specs.Reading.{pair_of, repeating, step_of, next};
ghost use Rattle.entries.specs.Writing.{blank};

use delay_queue::Call;
use std::marker::Model;

// What is asked of a store that has a journal: a call, or that a patch is opened or closed.
#[derive(Clone, Copy)]
pub enum Step {
    Asks(Call),
    Open,
    Close,
}

// Where reading stops: at a cut, which is no damage; at a bad kind, a 1 where zero is due, a broken pair, or a step
// that gets 1, 2 or 13.
#[derive(Clone, Copy)]
pub enum Ending {
    Cut,
    Kind,
    Zero,
    Pair,
    Gets(u64),
}

// An entry in its parts.
#[derive(Clone, Copy)]
pub struct Entry {
    pub kind: u64,
    pub spare: u64,
    pub a: u64,
    pub b: u64,
}

// The bytes of a step, as a list: the first `size` of the room, behind which it is blank.
#[derive(Clone, Copy)]
pub struct Bytes {
    size: usize,
    bytes: [u8; 36],
}

impl Model for Bytes {
    ghost use Rattle.std.specs.Prelude.{◌≡◌, ℕ, ◌≤◌, List, ◌++◌, length, take, drop};
    ghost use Rattle.entries.specs.Writing.{blank};
    ghost use Rattle.std.proofs.Common.{ap, sym, ◌∙◌, take-append-drop, length-take-le};

    ghost Value = { List ℕ };

    ghost view = { λ b. take b.size b.bytes };

    ghost invariant = { λ b. (b.size ≤ length b.bytes) × (length b.bytes ≡ 36) × (drop b.size b.bytes ≡ drop b.size blank) };

    ghost inverse = { λ l. record { size = length l; bytes = l ++ drop (length l) blank } };

    ghost inverse_ok = { λ b h i. record {
      size = length-take-le b.size b.bytes h.0 i;
      bytes = (ap (λ (n : ℕ). take b.size b.bytes ++ drop n blank) (length-take-le b.size b.bytes h.0)
          ∙ ap (λ (l : List ℕ). take b.size b.bytes ++ l) (sym h.2)
          ∙ take-append-drop b.size b.bytes) i;
    } };
}

impl Bytes {
    // Those bytes.
    pub fn as_slice(&self) -> &[u8]
        ensures { result.now ≡ self.now }
    {
        &self.bytes[..self.size]
    }

    // The room that they stand in front of.
    pub fn padded(&self) -> [u8; 36]
        ensures { Wrote blank 0 self.now (length self.now) result }
    {
        self.bytes
    }
}

// Room for the bytes of a step, which are not written yet.
fn room() -> [u8; 36]
    ensures { result ≡ blank }
{
    [0; 36]
}

// Writes an entry into out from at on, and says where it ends.
fn push_entry(out: &mut [u8], at: usize, kind: u8, a: u64, b: u64) -> usize
    requires { at + 18 ≤ length out.old }
    ensures { Wrote out.old at (entry kind a b) result out.new }
{
    let head = u16::from(kind).wrapping_mul(4096);
    let i = writing::push(out, at, &head.to_be_bytes());
    let j = writing::push(out, i, &a.to_be_bytes());
    writing::push(out, j, &b.to_be_bytes())
}

// No bytes.
pub fn no_bytes() -> Bytes
    ensures { result ≡ [] }
{
    let bytes = room();
    Bytes { size: 0, bytes }
}

// Those of one entry.
fn single(kind: u8, a: u64, b: u64) -> Bytes
    ensures { result ≡ entry kind a b }
{
    let mut bytes = room();
    let size = push_entry(&mut bytes, 0, kind, a, b);
    Bytes { size, bytes }
}

// Those of a kind 9 and the kind 10 behind it.
fn double(value: u64, when: u64, period: u64) -> Bytes
    ensures { result ≡ entry 9 value when ++ entry 10 period 0 }
{
    let mut bytes = room();
    let i = push_entry(&mut bytes, 0, 9, value, when);
    let size = push_entry(&mut bytes, i, 10, period, 0);
    Bytes { size, bytes }
}

// Those of an insert.
fn insert_bytes(value: u64, when: u64, period: u64) -> Bytes
    ensures { result ≡ insert_bytes value when period }
{
    if period == 0 {
        return single(2, value, when);
    }
    double(value, when, period)
}

// The bytes of a step: 0, 18 or 36.
pub fn bytes_of(step: Step) -> Bytes
    ensures { result ≡ step_bytes step }
{
    match step {
        Step::Asks(call) => match call {
            Call::Format(n, turn) => single(1, n, turn),
            Call::Insert(value, when, period) => insert_bytes(value, when, period),
            Call::Reset(key, when) => single(3, key, when),
            Call::Remove(key) => single(4, key, 0),
            Call::Poll(time) => single(5, time, 0),
            Call::PollSome(time, limit) => single(11, time, limit),
            Call::Wake => no_bytes(),
            Call::Length => no_bytes(),
            Call::Clear => single(6, 0, 0),
        },
        Step::Open => single(7, 0, 0),
        Step::Close => single(8, 0, 0),
    }
}

// The entry that bytes begin with, and what stands behind it, where there are 18 at least.
fn first_entry(bytes: &[u8]) -> Option<(Entry, &[u8])>
    ensures { MatchOption result (length bytes.now < 18)
        (λ p. (18 ≤ length bytes.now) × (p.0 ≡ entry_in bytes.now) × (p.1.now ≡ drop 18 bytes.now)) }
{
    let (head, behind) = bytes.split_first_chunk::<2>()?;
    let (a, behind) = behind.split_first_chunk::<8>()?;
    let (b, behind) = behind.split_first_chunk::<8>()?;
    let head = u16::from_be_bytes(*head) as u64;
    let e = Entry {
        kind: head / 4096,
        spare: head % 4096,
        a: u64::from_be_bytes(*a),
        b: u64::from_be_bytes(*b),
    };
    Some((e, behind))
}

// Whether the fields of an entry are zero where it is due.
fn has_field_zeros(kind: u64, a: u64, b: u64) -> bool
    ensures { result ≡ field_zeros kind a b }
{
    match kind {
        4 | 5 | 10 => b == 0,
        6..=8 => a == 0 && b == 0,
        _ => true,
    }
}

// Whether an entry has zeros where they are due.
fn has_zeros(e: Entry) -> bool
    ensures { result ≡ zeros e }
{
    e.spare == 0 && has_field_zeros(e.kind, e.a, e.b)
}

// The damage that an entry shows by itself.
fn check(e: Entry) -> Result<(), Ending>
    ensures { result ≡ checked e (Ok tt) }
{
    if e.kind == 0 || 11 < e.kind {
        return Err(Ending::Kind);
    }
    if !has_zeros(e) {
        return Err(Ending::Zero);
    }
    Ok(())
}

// The insert of a kind 9 and the entry behind it.
fn pair(e: Entry, p: Entry) -> Result<Step, Ending>
    ensures { result ≡ pair_of e p }
{
    if p.kind != 10 || p.a == 0 {
        return Err(Ending::Pair);
    }
    Ok(Step::Asks(Call::Insert(e.a, e.b, p.a)))
}

// The same where these bytes stand behind the kind 9.
fn repeats(e: Entry, behind: &[u8]) -> Result<Step, Ending>
    ensures { result ≡ repeating e behind.now }
{
    let Some((p, _)) = first_entry(behind) else {
        return Err(Ending::Cut);
    };
    check(p)?;
    pair(e, p)
}

// The step of an entry, behind which these bytes stand. The kinds are the document's numbers: a match here and one in `bytes_of`
// are all that knows them, and an enum of kinds between the two would name each step twice.
fn step_of(e: Entry, behind: &[u8]) -> Result<Step, Ending>
    ensures { result ≡ step_of e behind.now }
{
    match e.kind {
        1 => Ok(Step::Asks(Call::Format(e.a, e.b))),
        2 => Ok(Step::Asks(Call::Insert(e.a, e.b, 0))),
        3 => Ok(Step::Asks(Call::Reset(e.a, e.b))),
        4 => Ok(Step::Asks(Call::Remove(e.a))),
        5 => Ok(Step::Asks(Call::Poll(e.a))),
        6 => Ok(Step::Asks(Call::Clear)),
        7 => Ok(Step::Open),
        8 => Ok(Step::Close),
        9 => repeats(e, behind),
        11 => Ok(Step::Asks(Call::PollSome(e.a, e.b))),
        _ => Err(Ending::Pair),
    }
}

// What bytes begin with: a step, or why there is none.
fn first_step(bytes: &[u8]) -> Result<Step, Ending>
    ensures { result ≡ next bytes.now }
{
    let Some((e, behind)) = first_entry(bytes) else {
        return Err(Ending::Cut);
    };
    check(e)?;
    step_of(e, behind)
}

// The same for the bytes from at on. From behind the end on there is nothing, a cut.
pub fn read_step(bytes: &[u8], at: usize) -> Result<Step, Ending>
    ensures { result ≡ next (drop at bytes.now) }
{
    if bytes.len() < at {
        return Err(Ending::Cut);
    }
    first_step(&bytes[at..])
}

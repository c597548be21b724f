// Lines to calls.
#![tactic(auto)]

ghost use Rattle.std.specs.Prelude.{◌≡◌, ◌∷◌, Some};
ghost use Rattle.asking.specs.Text.{ReadClaim};
ghost use Rattle.asking.specs.Parts.{Holds, call_of};

use delay_queue::Call;
use splitting::First;

// The numbers behind a line's letter, of which no call has more than three.
#[derive(Clone, Copy)]
enum Fields {
    Empty,
    One(u64),
    Two(u64, u64),
    Three(u64, u64, u64),
}

// The one to three numbers that begin behind a space.
fn numbers(s: &[u8]) -> Option<Fields>
    ensures { Holds 3 (32 ∷ s.now) result }
{
    let (a, s) = match splitting::first_of(s)? {
        First::Only(a) => return Some(Fields::One(a)),
        First::Then(a, f) => (a, &s[f..]),
    };
    let (b, s) = match splitting::first_of(s)? {
        First::Only(b) => return Some(Fields::Two(a, b)),
        First::Then(b, f) => (b, &s[f..]),
    };
    match splitting::first_of(s)? {
        First::Only(c) => Some(Fields::Three(a, b, c)),
        First::Then(_, _) => None,
    }
}

// The numbers that s is, each with one space in front, if there are no more than three.
fn fields_in(s: &[u8]) -> Option<Fields>
    ensures { Holds 3 s.now result }
{
    match s {
        [] => Some(Fields::Empty),
        [b' ', rest @ ..] => numbers(rest),
        _ => None,
    }
}

// The call with that letter and those numbers, if there is one.
#[tactic(auto, unfolding(crate::specs::Parts::call_of))]
fn call_of(letter: u8, numbers: Fields) -> Option<Call>
    ensures { result ≡ call_of letter (Some numbers) }
{
    Some(match (letter, numbers) {
        (b'w', Fields::Empty) => Call::Wake,
        (b'l', Fields::Empty) => Call::Length,
        (b'c', Fields::Empty) => Call::Clear,
        (b'r', Fields::One(x)) => Call::Remove(x),
        (b'p', Fields::One(x)) => Call::Poll(x),
        (b'f', Fields::Two(x, y)) => Call::Format(x, y),
        (b's', Fields::Two(x, y)) => Call::Reset(x, y),
        (b'q', Fields::Two(x, y)) => Call::PollSome(x, y),
        (b'i', Fields::Three(x, y, z)) => Call::Insert(x, y, z),
        _ => return None,
    })
}

// What a line asks, which is handed over without its newline; None where the bench knows no such call. The inspector reads its lines
// by the same steps over other fields and entries: a trait for both would have more lines than the two have.
pub fn read_line(line: &[u8]) -> Option<Call>
    ensures { ReadClaim line.now result }
{
    if 80 < line.len() {
        return None;
    }
    let [letter, rest @ ..] = line else {
        return None;
    };
    call_of(*letter, fields_in(rest)?)
}

// Fields split by one space, for whoever reads lines: where the first ends, and the number that it is.
#![tactic(auto)]

ghost use Rattle.splitting.specs.Fields.{EndsAt, Begins};

// What numbers begin with: one that is all of them, or one behind which the next begins at that place.
#[derive(Clone, Copy)]
pub enum First {
    Only(u64),
    Then(u64, usize),
}

// Where the first field of s ends: at the first space, or at the end.
fn field_end(s: &[u8]) -> usize
    ensures { EndsAt s.now result }
{
    s.iter().position(|&b| b == b' ').unwrap_or(s.len())
}

// The first of the numbers that begin behind a space.
pub fn first_of(s: &[u8]) -> Option<First>
    ensures { Begins s.now result }
{
    let e = field_end(s);
    let a = decimals::number(&s[..e])?;
    if s.len() <= e {
        return Some(First::Only(a));
    }
    Some(First::Then(a, e + 1))
}

// Decimals of the bench: the reading of one. What decimals and fields are stands in specs/, their laws in proofs/laws/.
#![tactic(auto)]

ghost use Rattle.decimals.specs.Number.{NumberOf};

// The number that s, from its first byte to its last, is the decimal of.
pub fn number(s: &[u8]) -> Option<u64>
    ensures { NumberOf s.now result }
{
    // a zero in front of another digit is spare
    if s.is_empty() || 1 < s.len() && s[0] == b'0' {
        return None;
    }
    let mut acc: u64 = 0;
    for &b in s {
        if b < b'0' || b'9' < b {
            return None;
        }
        let d = (b - b'0') as u64;
        acc = acc.checked_mul(10)?.checked_add(d)?;
    }
    Some(acc)
}

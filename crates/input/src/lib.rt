// Reads standard input, or a file from a place on, for every program that reads to the end. Which bytes come no contract can
// say; but that they have ended only a read can tell, since no other crate can make a `Got`.
#![tactic(auto)]

ghost use Rattle.std.specs.Prelude.{◌≡◌, false, ◌<◌, ◌^◌};
ghost use Rattle.io.specs.Counts.{IsPrefixLen};

use std::fs::File;
use std::io::{Read, Stdin};
use std::os::unix::fs::FileExt;

// What a read gave: how many bytes, and whether the input has ended. Where it failed, none came and it has not. No enum: its
// variants could be made outside, and the fields are private so that only a read can say `ended`.
#[derive(Clone, Copy)]
pub struct Got {
    bytes: usize,
    ended: bool,
    pub ghost apart: { 0 < bytes → ended ≡ false },
}

// What a read that failed gave, and what there is before the first.
const NOTHING: Got = Got {
    bytes: 0,
    ended: false,
};

// The last place that a file has.
const LAST: usize = i64::MAX as usize;

// What a read into buf gave, by its answer.
fn told(got: std::io::Result<usize>, buf: &[u8]) -> Got
    ensures { IsPrefixLen result.bytes buf.now }
{
    match got {
        Ok(0) => Got {
            bytes: 0,
            ended: true,
        },
        Ok(n) => Got {
            bytes: n.min(buf.len()),
            ended: false,
        },
        Err(_) => NOTHING,
    }
}

// Reads the next bytes of the input to the front of buf.
pub fn more(from: &mut Stdin, buf: &mut [u8]) -> Got
    ensures { IsPrefixLen result.bytes buf.new }
{
    let got = from.read(buf);
    told(got, buf)
}

// Reads the bytes of the file from `at` on to the front of buf. No file has a byte from 2^63 on.
pub fn more_from(file: &File, at: usize, buf: &mut [u8]) -> Got
    ensures { IsPrefixLen result.bytes buf.new × (0 < result.bytes → at < 2 ^ 63) }
{
    if at > LAST {
        return NOTHING;
    }
    let got = file.read_at(buf, at as u64);
    told(got, buf)
}

// Before the first read.
pub fn nothing() -> Got
    ensures { result.ended ≡ false }
{
    NOTHING
}

pub fn count(got: Got) -> usize
    ensures { result ≡ got.bytes }
{
    got.bytes
}

pub fn at_end(got: Got) -> bool
    ensures { result ≡ got.ended }
{
    got.ended
}

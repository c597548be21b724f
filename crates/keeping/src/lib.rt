// "Write each call that could change the store before its answer is given": bytes are written to a file and synced, and
// answers are given only behind what they need of it. What is written no contract can say; but how much of a file is
// kept only a sync can tell, since no other crate can make a `Synced`, and without one that goes far enough there is no
// answer.
#![tactic(auto)]

ghost use Rattle.std.specs.Prelude.{◌+◌, ◌≤◌, length};
ghost use Rattle.keeping.specs.Keeping.{KeepsFile};

use std::fs::{File, OpenFile};
use std::os::unix::fs::FileExt;

// Standard output.
const STDOUT_FILENO: i32 = 1;

// The last place in a file.
const LAST: u64 = 9223372036854775807;

// A file, and how many bytes of it are written and synced.
#[derive(Clone, Copy)]
pub struct Synced<'a> {
    file: &'a File,
    length: u64,
}

// Whether all went well, and what is kept then. No Result: `KeepsFile.none` holds what is handed back where it failed, too.
#[derive(Clone, Copy)]
pub struct Keeping<'a> {
    pub fine: bool,
    pub kept: Synced<'a>,
}

// The file is cut to that length and synced. Where that fails nothing is said to be kept.
pub fn cut(file: &File, length: u64) -> Keeping<'_>
    ensures { KeepsFile 0 length result.fine result.kept.length }
{
    let none = Synced { file, length: 0 };
    if LAST < length {
        return Keeping {
            fine: false,
            kept: none,
        };
    }
    if file.set_len(length).is_err() {
        return Keeping {
            fine: false,
            kept: none,
        };
    }
    if file.sync_all().is_err() {
        return Keeping {
            fine: false,
            kept: none,
        };
    }
    let kept = Synced { file, length };
    Keeping { fine: true, kept }
}

// Writes the bytes to the file from at on, and says whether all of them are written. A short write is carried on: of an Err std's write_all_at
// does not say how much it wrote.
fn write_at(file: &File, at: u64, bytes: &[u8]) -> bool
    requires { at + length bytes.now ≤ 9223372036854775807 }
{
    let mut i: usize = 0;
    while i < bytes.len() {
        let put = file.write_at(&bytes[i..], at + i as u64);
        let done = put.unwrap_or(0);
        if done == 0 {
            return false;
        }
        i += done;
    }
    true
}

// The bytes are written behind what is kept, and synced; where there are none neither is done.
pub fn keep<'a>(kept: Synced<'a>, bytes: &[u8]) -> Keeping<'a>
    ensures { KeepsFile kept.entry.length (length bytes.now) result.fine result.kept.length }
{
    let n = bytes.len() as u64;
    if n == 0 {
        return Keeping { fine: true, kept };
    }
    let at = kept.length;
    if LAST < at {
        return Keeping { fine: false, kept };
    }
    if LAST - at < n {
        return Keeping { fine: false, kept };
    }
    let file = kept.file;
    if !write_at(file, at, bytes) {
        return Keeping { fine: false, kept };
    }
    if file.sync_data().is_err() {
        return Keeping { fine: false, kept };
    }
    let more = Synced {
        file,
        length: at + n,
    };
    Keeping {
        fine: true,
        kept: more,
    }
}

// Gives the answers to calls that write n bytes behind what was kept `before` them, now that these are kept, and says
// whether all went well.
pub fn say(before: Synced<'_>, n: usize, kept: Synced<'_>, answers: &[u8]) -> bool
    requires { before.length + n ≤ kept.length }
{
    io::write_all(STDOUT_FILENO, answers)
}

// Restores a store from the file of a journal, which is read twice: scanned first, and then what is kept of it is applied.
// Which bytes are read no contract can say. What is claimed: of bytes as many as were counted the scan found what it says,
// and bytes as many as are kept were applied; the law `restored` says what that means if they were the same.
#![tactic(auto)]

ghost use Rattle.records.specs.Words.{words};
ghost use Rattle.std.specs.Prelude.{◌≡◌, true, ◌<◌, IfSome};
ghost use Rattle.records.specs.Slices.{slices_of};
ghost use Rattle.recover.specs.Replay.{without_store};
ghost use Rattle.recover.specs.Scan.{is_cut};
ghost use Rattle.restore.specs.Restore.{is_whole, ScannedSo, AppliedSo};

use delay_queue::Heads;
use input::Got;
use recover::Seen;
use std::fs::File;
use wheel::Wheel;

// How many bytes were seen, what was found in them, and what a read behind them gave.
#[derive(Clone, Copy)]
pub struct Scanned {
    pub bytes: usize,
    pub seen: Seen,
    pub last: Got,
}

// Reads the file from its front on, chunk by chunk, each from where the scan stands: until damage is found, or a chunk brings
// it no further. Then the file has ended behind that chunk, or it cannot be read.
pub fn scan_file(
    file: &File,
    values: &[u64],
    deadlines: &[u64],
    nexts: &[u16],
    prevs: &[u16],
    turns: &[u64],
    marks: &[u16],
) -> Scanned
    ensures { ScannedSo (slices_of values.now deadlines.now nexts.now prevs.now turns.now marks.now) result.bytes result.seen }
{
    let mut buf = io::large_buffer();
    let mut seen = recover::unread();
    let mut at = seen.at;
    // no `for`: how far a chunk brings the scan, the scan says
    loop {
        let got = input::more_from(file, at, &mut buf);
        let k = input::count(got);
        seen = recover::scan(
            seen,
            &buf[..k],
            values,
            deadlines,
            nexts,
            prevs,
            turns,
            marks,
        );
        if !goes_on(seen, at) {
            let last = input::more_from(file, at + k, &mut buf);
            return Scanned {
                bytes: at + k,
                seen,
                last,
            };
        }
        at = seen.at;
    }
}

// Whether a chunk brought the scan further than `at`, and showed no damage.
fn goes_on(seen: Seen, at: usize) -> bool
    ensures { result ≡ true → (at < seen.at) × (is_cut seen.ending ≡ true) }
{
    recover::is_cut(seen.ending) && at < seen.at
}

// Whether the scan saw all of the file: it has ended behind what was seen, or damage was found before.
pub fn is_whole(scanned: Scanned) -> bool
    ensures { result ≡ is_whole scanned }
{
    !recover::is_cut(scanned.seen.ending) || input::at_end(scanned.last)
}

// The state and the heads of the store after all that is kept.
#[derive(Clone, Copy)]
pub struct Restored {
    pub state: Wheel,
    pub heads: Heads,
}

// Reads the first `kept` bytes of the file again, and asks their steps of no store. There is none where they cannot be read.
pub fn apply_file(
    file: &File,
    kept: usize,
    values: &mut [u64],
    deadlines: &mut [u64],
    nexts: &mut [u16],
    prevs: &mut [u16],
    turns: &mut [u64],
    marks: &mut [u16],
) -> Option<Restored>
    ensures { IfSome result (λ r. AppliedSo kept (without_store values.old deadlines.old nexts.old prevs.old turns.old marks.old)
        (words r.state r.heads.heads values.new deadlines.new nexts.new prevs.new turns.new marks.new)) }
{
    let mut buf = io::large_buffer();
    let mut at: usize = 0;
    let mut state = delay_queue::no_store();
    let mut heads = recover::no_heads();
    // no `for`: how many bytes of a chunk are used, `apply` says
    while at < kept {
        let got = input::more_from(file, at, &mut buf);
        let k = input::count(got).min(kept - at);
        let r = recover::apply(
            &buf[..k],
            state,
            heads,
            values,
            deadlines,
            nexts,
            prevs,
            turns,
            marks,
        );
        if r.used == 0 {
            return None;
        }
        state = r.state;
        heads = r.heads;
        at += r.used;
    }
    Some(Restored { state, heads })
}

// What the file of a journal holds: `recovered FILE` writes the length kept, the damage and the store, and changes nothing. A
// file that cannot be read is told on standard error, and nothing is written.
#![tactic(auto)]

use entries::Ending;
use pen::{Page, Pen};
use recover::Seen;
use restore::Restored;
use std::env::Env;
use std::fmt::{self, Display, Write};
use std::fs::File;

// What stands in the way.
#[derive(Clone, Copy)]
enum Trouble {
    NotOpened,
    NotRead,
    NotWritten,
}

impl Display for Trouble {
    fn fmt<W: Write>(&self, f: &mut fmt::Formatter<W>) -> fmt::Result {
        match self {
            Trouble::NotOpened => write!(f, "cannot open the file"),
            Trouble::NotRead => write!(f, "cannot read the file"),
            Trouble::NotWritten => write!(f, "cannot write"),
        }
    }
}

// The length kept, and the damage.
fn write_seen(page: &mut Page<'_>, seen: Seen) -> fmt::Result {
    let kept = seen.kept;
    writeln!(page, "kept {kept}")?;
    match seen.ending {
        Ending::Cut => writeln!(page, "damage -"),
        Ending::Kind => writeln!(page, "damage kind"),
        Ending::Zero => writeln!(page, "damage zero"),
        Ending::Pair => writeln!(page, "damage pair"),
        Ending::Gets(number) => writeln!(page, "damage refused-{number}"),
    }
}

// Writes what was found.
fn show(
    seen: Seen,
    left: Restored,
    values: &[u64],
    deadlines: &[u64],
    nexts: &[u16],
    turns: &[u64],
    marks: &[u16],
) -> Result<(), Trouble> {
    let mut room = io::large_buffer();
    let mut page = Page::behind(&mut room, Pen { at: 0, fine: true });
    page.write_by(|p| write_seen(p, seen));
    let heads = delay_queue::heads_in(left.heads);
    listing::write_store(
        &mut page, left.state, heads, values, deadlines, nexts, turns, marks,
    );
    if page.end() {
        Ok(())
    } else {
        Err(Trouble::NotWritten)
    }
}

// Reads the file twice, and writes what it holds. There is room for 65,535 records, with two words of values each.
fn show_file(file: &File) -> Result<(), Trouble> {
    let mut values = [0; 131070];
    let mut deadlines = [0; 65535];
    let mut nexts = [0; 65535];
    let mut prevs = [0; 65535];
    let mut turns = [0; 65535];
    let mut marks = [0; 65535];
    let scanned = restore::scan_file(file, &values, &deadlines, &nexts, &prevs, &turns, &marks);
    if !restore::is_whole(scanned) {
        return Err(Trouble::NotRead);
    }
    let seen = scanned.seen;
    let left = restore::apply_file(
        file,
        seen.kept,
        &mut values,
        &mut deadlines,
        &mut nexts,
        &mut prevs,
        &mut turns,
        &mut marks,
    )
    .ok_or(Trouble::NotRead)?;
    show(seen, left, &values, &deadlines, &nexts, &turns, &marks)
}

// Opens the file of that name, and writes what it holds.
fn show_named(rt: &HostRuntime, path: &str) -> Result<(), Trouble> {
    let file = File::open(rt, path).map_err(|_| Trouble::NotOpened)?;
    show_file(&file)
}

// A name that is no text in UTF-8 is that of no file.
fn main(rt: HostRuntime) {
    let mut name = io::buffer();
    let n = rt.arg(1, &mut name).unwrap_or(0);
    let path = std::str::from_utf8(&name[..n]).unwrap_or("");
    if let Err(trouble) = show_named(&rt, path) {
        let _ = eprintln!(rt; "recovered: {trouble}");
    }
}

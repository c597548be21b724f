// The contents of a store's lists as one line: `# e=64 x=[2] 0.6=[0,1]` is elapsed, the expired stack, and LEVEL.SLOT with the
// records in it, head first. What lies in the lists is tested here and not asked for, so a broken store has its line too.
#![tactic(auto)]

ghost use Rattle.std.specs.Prelude.{◌≡◌};
ghost use Rattle.std.specs.Iterator.{YieldsFirst, item_count};
ghost use Rattle.contents.specs.Members.{chain, rest};
ghost use Rattle.pen.specs.Pen.{SameRoom};

use pen::Page;
use std::fmt::{self, Write};
use wheel::Wheel;

// The records of a list, head first. No list of n records is longer than n, so that the walk of one that goes round ends too.
#[derive(Drop)]
pub struct Members<'a> {
    nexts: &'a [u16],
    left: u16,
    at: u16,
}

impl<'a> Members<'a> {
    // Those of the list whose head is given, in a store of n records.
    pub fn of(nexts: &'a [u16], n: u16, head: u16) -> Members<'a>
        ensures { rest result ≡ chain nexts.now n head }
    {
        Members {
            nexts,
            left: n,
            at: head,
        }
    }
}

impl Iterator for Members<'_> {
    type Item = u16;

    ghost next_gives = { YieldsFirst rest };

    ghost remaining = { item_count rest };

    fn next(&mut self) -> Option<u16> {
        if self.left == 0 || self.at == links::NOBODY {
            return None;
        }
        let i = self.at;
        self.left -= 1;
        self.at = self.nexts.get(i as usize).copied().unwrap_or(links::NOBODY);
        Some(i)
    }
}

// The records of a list in brackets, a comma between two. Each piece is written by itself: lists may be long, and `write!`
// would cost the program a quarter more.
fn list(page: &mut Page<'_>, nexts: &[u16], n: u16, head: u16) -> fmt::Result {
    page.write_str("[")?;
    let mut records = Members::of(nexts, n, head);
    if let Some(first) = records.next() {
        page.write(first)?;
    }
    for i in records {
        page.write_str(",")?;
        page.write(i)?;
    }
    page.write_str("]")
}

// All of it: the slots that are not empty, levels and slots rising, and behind them the parking list as slot 0 of level 6.
fn line(page: &mut Page<'_>, state: Wheel, heads: &[[u16; 64]; 6], nexts: &[u16]) -> fmt::Result {
    let elapsed = state.elapsed;
    let n = state.tops.n;
    let tops = places::tops_in(state.tops);
    write!(page, "# e={elapsed} x=")?;
    list(page, nexts, n, state.tops.expired)?;
    for place in 0..=places::PARKING {
        let head = places::head_of(&tops, heads, place);
        if head != links::NOBODY {
            let level = places::level_of(place);
            let slot = places::slot_of(place);
            write!(page, " {level}.{slot}=")?;
            list(page, nexts, n, head)?;
        }
    }
    writeln!(page)
}

// The line of a store, behind what waits in the page.
pub fn write_lists(page: &mut Page<'_>, state: Wheel, heads: [[u16; 64]; 6], nexts: &[u16])
    ensures { SameRoom page.old page.new }
{
    page.write_by(|p| line(p, state, &heads, nexts));
}

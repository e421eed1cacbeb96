// The tally of the received lists, and what it makes of echoes and candidates. The lists rise, so one walk goes along all of them together, least number
// first. It passes each place of a list once, and a number is settled as soon as it is passed.
ghost use Rattle.std.specs.Prelude.{[], ◌≡◌, ◌≤◌, is_some};
ghost use Rattle.wire.specs.Limits.{max_numbers};
ghost use Rattle.wire.specs.Numbers.{stored};
ghost use Rattle.controller.specs.Work.Received.{Ready};
ghost use Rattle.controller.specs.Work.Tally.{GrowsLists, Tallies};

use crate::heads::{Heads, SLOTS};
use crate::lists::{has_at, insert_at, no_numbers, place_from};
use crate::open_list::{END, OpenLists};
use crate::opened::{open_lists, own_alone};
use crate::own::count_own;
use crate::received::{NotedTray, sent_count};
use crate::state::State;
use wire::frame::Numbers;
use wire::limits::MAX_NUMBERS;

// What the numbers passed so far make: which are echoed, the candidates with those that join, and how many of these are surely below the next number.
#[derive(Clone, Copy)]
pub(crate) struct Settled {
    pub echoed: Numbers,
    pub candidates: Numbers,
    pub place: usize,
}

impl Settled {
    ghost use Rattle.controller.specs.Work.Tally.{Settleable, Startable, OneList, SettlesNext, SortsAll, SortsOne};

    // Settles the number `x`, which is in `count` of `h` lists. It is echoed if that is a third and it is no candidate, and joins the candidates if it
    // is two thirds. `None` where there are too many.
    fn settle(&mut self, x: u32, count: usize, h: usize) -> Option<()>
        requires { Settleable self.old x count h }
        ensures { SettlesNext self.old x count h result self.new }
    {
        if 3 * count < h {
            return Some(());
        }
        let place = place_from(&self.candidates, self.place, x);
        if has_at(&self.candidates, place, x) {
            return Some(());
        }
        let echoed = self.echoed.len;
        if MAX_NUMBERS <= echoed {
            return None;
        }
        insert_at(&mut self.echoed, echoed, x);
        self.place = place;
        if 3 * count < 2 * h {
            return Some(());
        }
        if MAX_NUMBERS <= self.candidates.len {
            return None;
        }
        insert_at(&mut self.candidates, place, x);
        Some(())
    }

    // Settles each number of the open lists, least first, until the lists have ended or there are too many. The loop counts no
    // index: the keys end it.
    fn settle_all(&mut self, opened: &OpenLists, h: usize) -> Option<()>
        requires { Startable self.old h }
        ensures { SortsAll opened.now h self.old.candidates result self.new }
    {
        let mut heads = Heads::NONE;
        heads.line_up(opened);
        let mut key = heads.tree[1];
        while key / SLOTS < END {
            let passed = heads.pass(opened, key);
            self.settle((key / SLOTS) as u32, passed.count, h)?;
            key = passed.first;
        }
        Some(())
    }

    // Settles each number of the own list, which `count` of `h` sent.
    fn settle_own(&mut self, own: &[u32], count: usize, h: usize) -> Option<()>
        requires start { Startable self.old h }
        requires list { OneList own.now }
        requires few { count ≤ max_numbers }
        ensures { SortsOne own.now count h self.old.candidates result self.new }
    {
        for &number in own {
            self.settle(number, count, h)?;
        }
        Some(())
    }
}

// Goes along the received lists, from the candidates that were and no echoes. Where more than two thirds sent the own list, the others change nothing: its
// numbers have reached two thirds without them, and no other number can reach a third. `None` where there are too many. What is settled is lent, since a
// value that is returned would be copied.
fn tally(state: &State, noted: &NotedTray, settled: &mut Settled) -> Option<()>
    requires ready { Ready state.now noted.now.tray.now noted.now.notes }
    requires echoes { settled.old.echoed ≡ stored [] }
    requires candidates { settled.old.candidates ≡ state.now.candidates }
    requires place { settled.old.place ≡ 0 }
    ensures { Tallies state.now noted.now.tray.now result settled.new }
{
    let h = state.heard.len;
    let equal = count_own(state, noted);
    if 2 * h < 3 * equal {
        let own = &state.echoes.at[..sent_count(state)];
        settled.settle_own(own, equal, h)
    } else {
        let mut opened = own_alone(&state.echoes.at, noted.tray, sent_count(state));
        open_lists(state, noted, &mut opened);
        settled.settle_all(&opened, h)
    }
}

// Echoes and candidates after the tray. `None` where one of them does not fit; the state then stays as it is.
pub(crate) fn grow(state: &mut State, noted: &NotedTray) -> Option<()>
    requires { Ready state.old noted.now.tray.now noted.now.notes }
    ensures { GrowsLists state.old noted.now.tray.now (is_some result) state.new }
{
    let mut settled = Settled {
        echoed: no_numbers(),
        candidates: state.candidates,
        place: 0,
    };
    tally(state, noted, &mut settled)?;
    // Lengths and places apart: a copy of 256 bytes is straight, one of a whole list is a loop.
    state.echoes.len = settled.echoed.len;
    state.echoes.at = settled.echoed.at;
    state.candidates.len = settled.candidates.len;
    state.candidates.at = settled.candidates.at;
    Some(())
}

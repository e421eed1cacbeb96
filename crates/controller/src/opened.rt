// The received lists, opened for the tally: where each lies, how many numbers it has, and how many controllers sent it. The first is the own one, in
// the state; the others are read where they lie in the tray.
ghost use Rattle.std.specs.Prelude.{true, ◌≡◌, ◌≤◌, ◌<◌, length, take};
ghost use Rattle.wire.specs.Frame.{content};
ghost use Rattle.wire.specs.Limits.{max_numbers};
ghost use Rattle.wire.specs.Words.{words_at};
ghost use Rattle.controller.specs.Received.{read_in, list_in};
ghost use Rattle.controller.specs.Work.Received.{noted, Ready, sent_count};
ghost use Rattle.controller.specs.Work.OpenList.{NumbersIn, start_limit};
ghost use Rattle.controller.specs.Work.Opened.{SpanOf, OpensOwn, OpensAll};
ghost use Rattle.controller.specs.Work.Tally.{OneList};

use crate::open_list::{MAX_LISTS, NO_LIST, OpenList, OpenLists};
use crate::received::NotedTray;
use crate::state::State;
use wire::found::{Found, NO_FRAME, found_by, same_frames};
use wire::limits::{FRAME_HEADER, NUMBER_WIDTH};
use wire::read::{check_frame, number_count, read_number};
use wire::tray::part_of;

// How many numbers bytes list in a round; 0 where they are void.
fn list_count(bytes: &[u8], round: u32) -> usize
    ensures { result ≡ length (list_in (content bytes.now round)) }
{
    if check_frame(bytes, round).is_ok() {
        number_count(bytes)
    } else {
        0
    }
}

// The list of the frame that a note is of, which one sent; an empty one where the frame is void or there is not one.
fn list_of(tray: &[u8], note: u32, round: u32) -> OpenList
    ensures span { SpanOf tray.now (list_in (read_in round (noted tray.now note))) result.start result.count }
    ensures sent { result.sent ≡ 1 }
{
    if let Found::At(offset, len) = found_by(note) {
        OpenList {
            start: offset + FRAME_HEADER,
            count: list_count(part_of(tray, offset, len), round),
            sent: 1,
        }
    } else {
        OpenList { sent: 1, ..NO_LIST }
    }
}

// Whether the list that lies at a place of the tray has the numbers of the own list. It is no `==`, since its numbers lie there in their bytes.
fn same_list(tray: &[u8], start: usize, own: &[u32]) -> bool
    requires low { start < start_limit }
    requires few { length own.now ≤ max_numbers }
    requires inside { NumbersIn tray.now start (length own.now) }
    ensures { result ≡ true → words_at tray.now start (length own.now) ≡ own.now }
{
    for (i, &number) in own.iter().enumerate() {
        if read_number(tray, start + NUMBER_WIDTH * i) != number {
            return false;
        }
    }
    true
}

impl OpenLists<'_> {
    ghost use Rattle.controller.specs.Work.Opened.{received_list, Recalls, Finds, Placeable, Adds};

    // The place of an open list that is sure to be the one received with a note; where there is none, as an error, that list. `slot` is the place of the list
    // that was received with the note `last`.
    fn find_list(&self, round: u32, note: u32, last: u32, slot: usize) -> Result<usize, OpenList>
        requires { Recalls round self.now last slot }
        ensures { Finds (received_list round self.now note) self.now result }
    {
        if note == NO_FRAME {
            return Ok(0);
        }
        if same_frames(self.tray, last, note) {
            return Ok(slot);
        }
        let list = list_of(self.tray, note, round);
        let count = self.lists[0].count;
        if list.count == count && same_list(self.tray, list.start, &self.own[..count]) {
            return Ok(0);
        }
        Err(list)
    }

    // Counts the list received with a note, and returns its place: that of an open one that is sure to be equal, else the one behind them, where it is opened.
    fn place_list(&mut self, round: u32, note: u32, last: u32, slot: usize) -> usize
        requires { Placeable round self.old last slot }
        ensures { Adds (received_list round self.old note) self.old result self.new }
    {
        match self.find_list(round, note, last, slot) {
            Ok(place) => {
                self.lists[place].sent += 1;
                place
            }
            Err(list) => {
                let place = self.len;
                self.lists[place] = list;
                self.len += 1;
                place
            }
        }
    }
}

// The own list, of so many numbers, with nobody counted for it.
pub(crate) fn own_alone<'a>(own: &'a [u32], tray: &'a [u8], count: usize) -> OpenLists<'a>
    requires few { count ≤ max_numbers }
    requires inside { count ≤ length own.now }
    requires list { OneList (take count own.now) }
    ensures { OpensOwn own.now tray.now count result }
{
    let mut lists = [NO_LIST; MAX_LISTS];
    lists[0].count = count;
    OpenLists {
        own,
        tray,
        lists,
        len: 1,
    }
}

// Opens the list received with each note, behind the own one that alone is open. A list that is equal to the own one is counted with that one, and so is that
// of a controller with no entry. Of the others, those whose frames have the bytes of the frame before theirs are counted with it; those with no entry in
// between do not part them. The lists are lent, since a value that is returned would be copied.
pub(crate) fn open_lists(state: &State, noted: &NotedTray, opened: &mut OpenLists)
    requires ready { Ready state.now noted.now.tray.now noted.now.notes }
    requires own { OpensOwn state.now.echoes.at noted.now.tray.now (sent_count state.now) opened.old }
    ensures { OpensAll state.now noted.now.tray.now noted.now.notes opened.new }
{
    let mut last = NO_FRAME;
    let mut slot = 0;
    for &note in &noted.notes[..state.heard.len] {
        let place = opened.place_list(state.round, note, last, slot);
        if note != NO_FRAME {
            last = note;
            slot = place;
        }
    }
}

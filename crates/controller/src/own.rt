// The own list, and how many of those heard sent the same one. Mostly all do.
ghost use Rattle.std.specs.Prelude.{true, ◌≡◌, ℕ, ◌≤◌, length};
ghost use Rattle.wire.specs.Frame.{content};
ghost use Rattle.wire.specs.Limits.{max_frame, max_numbers};
ghost use Rattle.controller.specs.Received.{list_in};
ghost use Rattle.controller.specs.Work.Received.{Ready, sent_count};
ghost use Rattle.controller.specs.Work.Opened.{list_under};
ghost use Rattle.controller.specs.Work.Own.{SharesList, WritesOwn, AgreesOwn};

use crate::received::{NotedTray, sent_count};
use crate::state::State;
use wire::found::{Found, found_by, same_bytes};
use wire::frame::kind_of;
use wire::limits::{FRAME_HEADER, MAX_FRAME, NO_BIT, TURN};
use wire::write::lay_frame;

// Whether a note is sure to be of the list that a frame has: of no frame, since who has no entry counts as having sent it, or of one with the same bytes.
// Eight bytes list nothing, void or not.
fn sent_list(frame: &[u8], tray: &[u8], note: u32) -> bool
    ensures { (t : ℕ) → result ≡ true → list_under t (list_in (content frame.now t)) tray.now note ≡ list_in (content frame.now t) }
{
    match found_by(note) {
        Found::Nothing => true,
        Found::At(_, len) if len != frame.len() => false,
        Found::At(_, len) if len == FRAME_HEADER => true,
        Found::At(offset, len) => match tray.get(offset..offset + len) {
            Some(list) => same_bytes(list, frame),
            None => false,
        },
        Found::Several => false,
    }
}

// How many of some notes are sure to be of the list that a frame has.
fn count_list(frame: &[u8], tray: &[u8], notes: &[u32]) -> usize
    ensures { SharesList (length notes.now) frame.now tray.now notes.now result }
{
    let mut count = 0;
    for &note in notes {
        if sent_list(frame, tray, note) {
            count += 1;
        }
    }
    count
}

// Writes the own frame, without an opinion, as one that is silent counts as having sent it; returns its length.
fn write_own(state: &State, out: &mut [u8]) -> usize
    requires room { max_frame ≤ length out.old }
    requires few { sent_count state.now ≤ max_numbers }
    ensures { WritesOwn state.now out.new result }
{
    let bit = if kind_of(state.round) == TURN {
        NO_BIT
    } else {
        state.said
    };
    let own = &state.echoes.at[..sent_count(state)];
    lay_frame(state.round, bit, own, out)
}

// How many of those heard are sure to have sent the own list.
pub(crate) fn count_own(state: &State, noted: &NotedTray) -> usize
    requires { Ready state.now noted.now.tray.now noted.now.notes }
    ensures { AgreesOwn state.now noted.now.tray.now noted.now.notes result }
{
    let mut room = [0; MAX_FRAME];
    let len = write_own(state, &mut room);
    count_list(&room[..len], noted.tray, &noted.notes[..state.heard.len])
}

// What is received in a round: who is heard, and what the frame under each heard number says.
ghost use Rattle.std.specs.Prelude.{true, ◌≡◌, ℕ, replicate, is_some};
ghost use Rattle.wire.specs.Frame.{content, kind_of, bit_in};
ghost use Rattle.wire.specs.Heads.{Short, head_of};
ghost use Rattle.wire.specs.Limits.{max_numbers};
ghost use Rattle.wire.specs.Numbers.{listed};
ghost use Rattle.wire.specs.Notes.{no_frame};
ghost use Rattle.wire.specs.Tray.{entries};
ghost use Rattle.controller.specs.State.{sound_list};
ghost use Rattle.controller.specs.Received.{senders, read_in};
ghost use Rattle.controller.specs.Work.Received.{noted, others_only, HearsFrom, Hears};
ghost use Rattle.controller.specs.Work.Received.{received_by, bit_had, bit_under, Votes, CountsBits, Ready, sent_count};

use crate::counts::Counts;
use crate::lists::{find_near, insert_at, open_at, stands_before};
use crate::packed::PackedTray;
use crate::state::State;
use wire::found::{Found, NO_FRAME, found_by, note_with};
use wire::frame::{Numbers, bit_said, kind_of, max_count};
use wire::limits::{ENTRY_WIDTH, FRAME_HEADER, MAX_NUMBERS};
use wire::read::{head_of, read_frame, read_head};
use wire::tray::{directory, entry_count, entry_place, entry_sender, part_of};

// A tray, and beside each number heard a note on its frames in it. The numbers stand in the state, which is kept when the tray and its notes are gone.
#[derive(Clone, Copy)]
pub(crate) struct NotedTray<'a> {
    pub tray: &'a [u8],
    pub notes: [u32; MAX_NUMBERS],
}

// Whether no sender in the directory is 0 or the own number.
pub(crate) fn senders_fit(tray: &[u8], own: u32) -> bool
    ensures { result ≡ others_only own (senders (entries tray.now)) }
{
    let entries = directory(tray);
    for i in 0..entry_count(tray) {
        let sender = entry_sender(entries, i);
        if sender == 0 || sender == own {
            return false;
        }
    }
    true
}

// Makes a note on the frames of each sender, from the directory's end to its front, so that of equal copies the first is kept; up to one that is new, or the
// own number. Returns how many entries are left. Mostly none is: all are heard already, and the directory goes by rising senders.
fn note_known(tray: PackedTray, own: u32, heard: &Numbers, notes: &mut [u32; MAX_NUMBERS]) -> usize
    requires sound { sound_list heard.now ≡ true }
    requires empty { notes.old ≡ replicate max_numbers no_frame }
    ensures { HearsFrom own tray.entry.bytes.now (listed heard.now) heard.now notes.new result }
{
    let entries = directory(tray.bytes);
    let mut place = heard.len;
    for i in (0..entries.len() / ENTRY_WIDTH).rev() {
        let sender = entry_sender(entries, i);
        if sender == own {
            return i + 1;
        }
        if stands_before(heard, place, sender) {
            place -= 1;
        } else if let Ok(found) = find_near(heard, sender, 0) {
            place = found;
        } else {
            return i + 1;
        }
        notes[place] = note_with(tray.bytes, notes[place], entry_place(entries, i));
    }
    0
}

// Goes on with the `left` entries in front, and puts new senders into heard. `None` where they do not fit: one is 0 or the own number, or more than 64 would
// be heard.
fn hear_new(
    tray: PackedTray,
    own: u32,
    heard: &mut Numbers,
    left: usize,
    notes: &mut [u32; MAX_NUMBERS],
) -> Option<()>
    requires { HearsFrom own tray.bytes.now (listed heard.old) heard.old notes.old left }
    ensures { Hears own tray.entry.bytes.now (listed heard.old) (is_some result) heard.new notes.new }
{
    let entries = directory(tray.bytes);
    let mut next = 0;
    for i in (0..left).rev() {
        let sender = entry_sender(entries, i);
        if sender == own {
            return None;
        }
        let place = entry_place(entries, i);
        let at = match find_near(heard, sender, next) {
            Ok(at) => {
                notes[at] = note_with(tray.bytes, notes[at], place);
                at
            }
            Err(at) => {
                if sender == 0 || MAX_NUMBERS <= heard.len {
                    return None;
                }
                open_at(notes, heard.len, at, place);
                insert_at(heard, at, sender);
                at
            }
        };
        next = (at + MAX_NUMBERS - 1) % MAX_NUMBERS;
    }
    Some(())
}

// Puts the directory's senders into heard, and makes a note on the frames of each. `None` where one of them does not fit, or more than 64 would be heard;
// heard may then have some of them. It goes from the directory's end to its front, so that of equal copies the first is kept. The notes are lent, since a
// value that is returned would be copied.
pub(crate) fn hear(
    tray: PackedTray,
    own: u32,
    heard: &mut Numbers,
    notes: &mut [u32; MAX_NUMBERS],
) -> Option<()>
    requires sound { sound_list heard.old ≡ true }
    requires empty { notes.old ≡ replicate max_numbers no_frame }
    ensures { Hears own tray.entry.bytes.now (listed heard.old) (is_some result) heard.new notes.new }
{
    let left = note_known(tray, own, heard, notes);
    if left == 0 {
        return Some(());
    }
    hear_new(tray, own, heard, left, notes)
}

// The bit that bytes say in a round; none where they are void.
pub(crate) fn frame_bit(bytes: &[u8], round: u32) -> Option<u8>
    ensures { bit_had result ≡ bit_in (content bytes.now round) }
{
    let frame = read_frame(bytes, round).ok()?;
    Some(bit_said(frame.said))
}

// The bit of the frame that a note is of, read in a round; none where it is void, or where there is not one frame.
fn noted_bit(tray: &[u8], note: u32, round: u32) -> Option<u8>
    ensures { bit_had result ≡ bit_in (read_in round (noted tray.now note)) }
{
    let Found::At(offset, len) = found_by(note) else {
        return None;
    };
    frame_bit(part_of(tray, offset, len), round)
}

// The bit received with a note: `absent` where there is no entry, none where the frame is void or there are several.
pub(crate) fn received_bit(round: u32, absent: u8, tray: &[u8], note: u32) -> Option<u8>
    ensures { bit_had result ≡ bit_under round absent tray.now note }
{
    if note == NO_FRAME {
        Some(absent)
    } else {
        noted_bit(tray, note, round)
    }
}

// How many of the echoes a state's frame lists: all in a roster and a turn, else none.
pub(crate) fn sent_count(state: &State) -> usize
    ensures { result ≡ sent_count state.now }
{
    if 0 < max_count(kind_of(state.round)) {
        state.echoes.len
    } else {
        0
    }
}

// The header received with a note in a round whose frames list nothing, as one number: `own` where there is no entry, 0 where there is not one frame of eight
// bytes, which no header is. Such a frame is the one that says 0, the one that says 1, or neither of them.
fn short_head(own: u64, tray: &[u8], note: u32) -> u64
    ensures { (t d : ℕ) → Short t → own ≡ head_of t d → Votes t d tray.now note result }
{
    match found_by(note) {
        Found::Nothing => own,
        Found::At(offset, len) if len == FRAME_HEADER => read_head(tray, offset),
        _ => 0,
    }
}

// Counts the values or the proposals of the round, bit by bit. Who has no entry, oneself or one that is silent, says what oneself says.
pub(crate) fn count_bits(state: &State, noted: &NotedTray) -> Counts
    requires ready { Ready state.now noted.now.tray.now noted.now.notes }
    requires short { Short state.now.round }
    ensures { CountsBits (kind_of state.now.round) (received_by state.now noted.now.tray.now) result }
{
    let own = head_of(state.round, state.said);
    let zero = head_of(state.round, 0);
    let one = head_of(state.round, 1);
    let mut zeros = 0;
    let mut ones = 0;
    for &note in &noted.notes[..state.heard.len] {
        let head = short_head(own, noted.tray, note);
        zeros += (head == zero) as usize;
        ones += (head == one) as usize;
    }
    Counts { zeros, ones }
}

// What the faulty controller 3 sends, to each receiver and in each round, under each fault.
ghost use Rattle.std.specs.Prelude.{◌≤◌, ◌<◌};

use crate::packing::Packet;
use wire::frame::{Frame, kind_of, said_by};
use wire::limits::{MAX_FRAME, ROSTER, TURN};
use wire::write::write_frame;

#[derive(Clone, Copy)]
pub(crate) enum Fault {
    // Init to 5 and 7, then void frames to these and a roster of 3 alone to 9, then nothing: the last trial of document 01, as document 02, A7, has it.
    Trial,
    // Nothing.
    Silence,
    // Another value and another proposal to each receiver.
    Equivocation,
    // Another opinion to each receiver.
    King,
    // Bytes that are no frame.
    Void,
    // Its own number, listed to just so many that 5 alone has it as a candidate in the end.
    Division,
}

// A frame that lists the first `count` numbers of the network; none where the writer refuses it.
fn frame(round: u32, bit: u8, count: usize) -> Option<Packet>
    requires { count ≤ 4 }
{
    let numbers = [3, 5, 7, 9];
    let mut bytes = [0; MAX_FRAME];
    let said = said_by(kind_of(round), bit);
    let len = write_frame(Frame { round, said }, &numbers[..count], &mut bytes).ok()?;
    Some(Packet {
        sender: 3,
        len,
        bytes,
    })
}

fn by_trial(round: u32, to: u32) -> Option<Packet> {
    match (round, to) {
        (1, 9) => None,
        (1, _) => frame(1, 2, 0),
        (2, 9) => frame(2, 2, 1),
        (2, _) => Some(void()),
        _ => None,
    }
}

// Init, and the roster that a correct controller would send: 3 becomes a candidate, and the king of phase 0.
fn joining(round: u32) -> Option<Packet> {
    if round == 1 {
        frame(1, 2, 0)
    } else {
        frame(2, 2, 4)
    }
}

// The receiver's place among 5, 7 and 9.
fn place_of(to: u32) -> u32
    ensures { result < 3 }
{
    match to {
        5 => 0,
        7 => 1,
        _ => 2,
    }
}

// 0, 1 or 2 (none): another for each receiver in a phase, and for each receiver another in the next phase.
fn turned_bit(round: u32, to: u32) -> u8 {
    let turned = round / 3 + place_of(to);
    (turned % 3) as u8
}

// A value cannot be none: the writer refuses it, and that receiver gets no frame. As king, 3 has no opinion here.
fn equivocating(round: u32, to: u32) -> Option<Packet> {
    match kind_of(round) {
        0..=ROSTER => joining(round),
        TURN => frame(round, 2, 0),
        _ => frame(round, turned_bit(round, to), 0),
    }
}

// No value and no proposal, so that nobody in phase 0 is strong and all look to the king.
fn by_king(round: u32, to: u32) -> Option<Packet> {
    match kind_of(round) {
        0..=ROSTER => joining(round),
        TURN => frame(round, turned_bit(round, to), 0),
        _ => None,
    }
}

fn void() -> Packet {
    Packet {
        sender: 3,
        len: 8,
        bytes: [255; MAX_FRAME],
    }
}

// Whether 3 lists itself to this one: to one of them in rounds 2 and 5, who then echoes it, to two in round 8, and to 5 in round 11.
fn listed_to(round: u32, to: u32) -> bool {
    match round {
        2 => to == 7,
        5 => to == 9,
        8 => to != 9,
        11 => to == 5,
        _ => false,
    }
}

// A void frame where it does not list itself, since silence counts as the receiver's own list.
fn dividing(round: u32, to: u32) -> Option<Packet> {
    match (round, to) {
        (1, 5) => frame(1, 2, 0),
        (1, _) => None,
        _ if listed_to(round, to) => frame(round, 2, 1),
        _ => Some(void()),
    }
}

pub(crate) fn sent_to(fault: Fault, round: u32, to: u32) -> Option<Packet> {
    match fault {
        Fault::Trial => by_trial(round, to),
        Fault::Silence => None,
        Fault::Equivocation => equivocating(round, to),
        Fault::King => by_king(round, to),
        Fault::Void => Some(void()),
        Fault::Division => dividing(round, to),
    }
}

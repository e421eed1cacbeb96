// The bit: what is taken from the king, proposed and adopted. None is 2 in what a controller says itself (`proposal`, `opinion_of`, `Turn`), as in the state's
// `said`, which these bits become or are compared with.
ghost use Rattle.std.specs.Prelude.{cond, true, ◌≡◌, ◌+◌, ◌≤◌, eqb, IfSome};
ghost use Rattle.wire.specs.Frame.{kind_of, bit_chosen};
ghost use Rattle.wire.specs.Limits.{max_numbers};
ghost use Rattle.controller.specs.State.{view};
ghost use Rattle.controller.specs.Thirds.{two_thirds};
ghost use Rattle.controller.specs.Bit.{king_opinion, bit_taken};
ghost use Rattle.controller.specs.Work.Received.{received_by, Ready};
ghost use Rattle.controller.specs.Work.Bit.{proposed_from, adopted_from, Turns};

use crate::counts::Counts;
use crate::lists::{has_at, place_in};
use crate::received::{NotedTray, received_bit};
use crate::state::State;
use wire::limits::NO_BIT;

// The opinion of the state's king, if it has one. A king that is not heard sent nothing, and one that is silent counts as sending no opinion.
fn king_opinion(state: &State, noted: &NotedTray) -> Option<u8>
    requires ready { Ready state.now noted.now.tray.now noted.now.notes }
    requires kind { kind_of state.now.round ≡ 5 }
    ensures opinion { bit_chosen result ≡ king_opinion (view state.now) (received_by state.now noted.now.tray.now) }
    ensures bit { IfSome result (λ b. b ≤ 1) }
{
    let place = place_in(&state.heard, state.king);
    if !has_at(&state.heard, place, state.king) {
        return None;
    }
    // Without an entry it is oneself, or silent.
    let absent = opinion_of(state, state.said);
    match received_bit(state.round, absent, noted.tray, noted.notes[place]) {
        Some(bit) if bit <= 1 => Some(bit),
        _ => None,
    }
}

// (a): the own bit, or the king's opinion.
pub(crate) fn bit_taken(state: &State, noted: &NotedTray) -> u8
    requires ready { Ready state.now noted.now.tray.now noted.now.notes }
    requires kind { kind_of (state.now.round + 1) ≡ 3 }
    ensures { result ≡ bit_taken (view state.now) (received_by state.now noted.now.tray.now) }
{
    if state.round < 3 || state.strong != 0 {
        return state.bit;
    }
    king_opinion(state, noted).unwrap_or(state.bit)
}

// The bit whose values reach two thirds of `h`, else 2.
pub(crate) fn proposal(counts: Counts, h: usize) -> u8
    requires { h ≤ max_numbers }
    ensures { result ≡ proposed_from counts.zeros counts.ones h }
{
    if 2 * h <= 3 * counts.zeros {
        0
    } else if 2 * h <= 3 * counts.ones {
        1
    } else {
        NO_BIT
    }
}

// What making round 5 + 3r gives of the bit.
#[derive(Clone, Copy)]
pub(crate) struct Turn {
    pub bit: u8,
    pub strong: u8,
    pub said: u8,
}

// The own bit, or the only bit whose proposals reach a third of `h`.
fn adopted(bit: u8, counts: Counts, h: usize) -> u8
    ensures { result ≡ adopted_from bit counts.zeros counts.ones h }
{
    match (h <= 3 * counts.zeros, h <= 3 * counts.ones) {
        (true, false) => 0,
        (false, true) => 1,
        _ => bit,
    }
}

// 1 where a count of proposals reaches two thirds of `h`.
fn strong_of(count: usize, h: usize) -> u8
    requires few { count ≤ max_numbers }
    requires most { h ≤ max_numbers }
    ensures { result ≡ cond (two_thirds count h) 1 0 }
{
    (2 * h <= 3 * count) as u8
}

// The bit, where the king is oneself; else 2.
fn opinion_of(state: &State, bit: u8) -> u8
    ensures { result ≡ cond (eqb state.now.king state.now.own) bit 2 }
{
    if state.king == state.own { bit } else { NO_BIT }
}

// What the counts of proposals among those heard make of the bit.
pub(crate) fn spoken(state: &State, counts: Counts) -> Turn
    requires few { state.now.heard.len ≤ max_numbers }
    requires bit { state.now.bit ≤ 1 }
    ensures { Turns state.now counts result }
{
    let h = state.heard.len;
    let bit = adopted(state.bit, counts, h);
    let count = if bit == 0 { counts.zeros } else { counts.ones };
    Turn {
        bit,
        strong: strong_of(count, h),
        said: opinion_of(state, bit),
    }
}

// A controller's state, as document 01, "A controller's state", lists it, with the record of document 02, A8, and what a call returns.
ghost use Rattle.std.specs.Prelude.{Some};
ghost use Rattle.controller.specs.Texts.{refusal_text};

use std::error::Error;
use std::fmt;
use wire::frame::Numbers;
use wire::limits::MAX_NUMBERS;

// Any bytes make a state, and `tray`, `work` and `is_sound` promise an answer for each: so bits, the king and the decision are numbers here and no `Option`,
// and the lists have no invariant. The record stands beside heard, and not in it, as document 02 has it and `View` does without it.
#[derive(Clone, Copy)]
pub struct State {
    // The own number.
    pub own: u32,
    // The last round sent, or that of the decision, in which nothing is sent.
    pub round: u32,
    // The own bit, 0 or 1.
    pub bit: u8,
    // The bit said in the last frame, 2 for none; 2 from the decision on.
    pub said: u8,
    // 1 where two thirds proposed the own bit.
    pub strong: u8,
    // The coordinator of the phase, document 01's "king"; 0 for none.
    pub king: u32,
    // The decision, 2 for none.
    pub decision: u8,
    pub heard: Numbers,
    pub candidates: Numbers,
    pub echoes: Numbers,
    // Beside each number of heard, the round of the tray that first brought it; 0 for the own number.
    pub since: [u8; MAX_NUMBERS],
}

// The refusal, 0 for none; the state after the call; the length of the frame written, 0 when refused and when the call decides. It is no `Result`: document
// 01, "Refusals", has a state and a length returned with each refusal, and a number that is 0 for none, as `Promise` says.
#[derive(Clone, Copy)]
pub struct Answer {
    pub refusal: u8,
    pub state: State,
    pub length: usize,
}

// Why a call is refused: document 01's "Refusals", each with its number.
#[derive(Clone, Copy, Debug, PartialEq, Eq)]
pub enum Refusal {
    // The state is not sound.
    Unsound = 1,
    // The state's round is the last, or it has decided.
    Finished = 2,
    // The output buffer is shorter than the longest frame.
    NoRoom = 3,
    // The tray is not well packed.
    BadlyPacked = 4,
    // The tray is not of the state's round.
    OtherRound = 5,
    // A sender is 0 or the own number.
    BadSender = 6,
    // More than 64 numbers would be heard.
    TooManyHeard = 7,
    // Echoes or candidates would be more than 64.
    TooManyListed = 8,
    // A start with number 0, or with a bit over 1.
    BadStart = 9,
}

impl fmt::Display for Refusal {
    ghost output = { λ e. Some (refusal_text e) };

    fn fmt<W: fmt::Write>(&self, f: &mut fmt::Formatter<W>) -> fmt::Result {
        f.write_str(match self {
            Refusal::Unsound => "the state is not sound",
            Refusal::Finished => "nothing more is worked",
            Refusal::NoRoom => "no room for a frame",
            Refusal::BadlyPacked => "the tray is not well packed",
            Refusal::OtherRound => "the tray is of another round",
            Refusal::BadSender => "a sender is 0 or the own number",
            Refusal::TooManyHeard => "more than 64 would be heard",
            Refusal::TooManyListed => "more than 64 would be listed",
            Refusal::BadStart => "number 0, or no bit",
        })
    }
}

impl Error for Refusal {}

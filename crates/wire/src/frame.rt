// Frames: what a controller sends in a round, and how its fields go with one another. The layout is that of document 01, "Frames";
// specs/Frame.antt says what each call answers. src/read.rt reads a frame, src/write.rt writes one.
ghost use Rattle.std.specs.Prelude.{◌≡◌, Some};
ghost use Rattle.wire.specs.Numbers.{rising};
ghost use Rattle.wire.specs.Frame.{kind_of, chosen_by, said_by, bit_fits, max_count, round_fits, bit_chosen, kind_said, bit_said, unwritten_number};
ghost use Rattle.wire.specs.Texts.{void_text, unwritten_text};

use crate::limits::{INIT, LAST_ROUND, MAX_NUMBERS, NO_BIT, PROPOSE, ROSTER, TURN, VALUE};
use std::error::Error;
use std::fmt;

// What a frame says. The list of a roster or an opinion stands beside it. A proposal or an opinion is a bit or none: document 01's 2 (none) is `None` alone.
#[derive(Clone, Copy, Debug, PartialEq, Eq)]
pub enum Said {
    Init,
    Roster,
    Value(u8),
    Proposal(Option<u8>),
    Opinion(Option<u8>),
}

#[derive(Clone, Copy, Debug, PartialEq, Eq)]
pub struct Frame {
    pub round: u32,
    pub said: Said,
}

// A list of controller numbers: `len` used places, the others 0. It stays an array with its length, since a `Vec` could run out of memory, and no call of the
// engine can; any places make one, since a state with any lists is refused or worked (`tray`, `is_sound`).
#[derive(Clone, Copy)]
pub struct Numbers {
    pub len: usize,
    pub at: [u32; MAX_NUMBERS],
}

// Why bytes are void, document 01's word, in the round expected: the causes by which request A2 of document 02 sorts them, each with its number.
#[derive(Clone, Copy, Debug, PartialEq, Eq)]
pub enum Void {
    // Fewer bytes than a header has, or not as many as the count says.
    WrongLength = 11,
    // Of another round or kind; or there is no such round.
    WrongRound = 12,
    // A bit, a count or a list that its kind does not allow.
    WrongContent = 13,
}

impl fmt::Display for Void {
    ghost output = { λ e. Some (void_text e) };

    fn fmt<W: fmt::Write>(&self, f: &mut fmt::Formatter<W>) -> fmt::Result {
        f.write_str(match self {
            Void::WrongLength => "wrong length",
            Void::WrongRound => "wrong round or kind",
            Void::WrongContent => "wrong content",
        })
    }
}

impl Error for Void {}

// Why a frame is not written, each cause with its number.
#[derive(Clone, Copy, Debug, PartialEq, Eq)]
pub enum Unwritten {
    // The buffer is shorter than the longest frame.
    NoRoom = 3,
    // What is given is no frame.
    NoFrame = 10,
}

impl Unwritten {
    // Its number among the refusals.
    pub fn number(self) -> u8
        ensures { result ≡ unwritten_number self }
    {
        self as u8
    }
}

impl fmt::Display for Unwritten {
    ghost output = { λ e. Some (unwritten_text e) };

    fn fmt<W: fmt::Write>(&self, f: &mut fmt::Formatter<W>) -> fmt::Result {
        f.write_str(match self {
            Unwritten::NoRoom => "no room",
            Unwritten::NoFrame => "no frame",
        })
    }
}

impl Error for Unwritten {}

// The kind of a frame of a round.
pub fn kind_of(round: u32) -> u8
    ensures { result ≡ kind_of round }
{
    match round {
        1 => INIT,
        2 => ROSTER,
        _ => (3 + round % 3) as u8,
    }
}

// The most numbers that a frame of a kind may list.
pub fn max_count(kind: u8) -> usize
    ensures { result ≡ max_count kind }
{
    match kind {
        ROSTER | TURN => MAX_NUMBERS,
        _ => 0,
    }
}

pub fn round_fits(round: u32) -> bool
    ensures { result ≡ round_fits round }
{
    (1 <= round) & (round <= LAST_ROUND)
}

// What byte 5 of a proposal or an opinion stands for.
fn chosen_by(bit: u8) -> Option<u8>
    ensures { result ≡ chosen_by bit }
{
    if bit == NO_BIT { None } else { Some(bit) }
}

// What a frame of a kind with a bit says. The choice is made first, once: so the compiler keeps it out of memory.
pub fn said_by(kind: u8, bit: u8) -> Said
    ensures { result ≡ said_by kind bit }
{
    let choice = chosen_by(bit);
    match kind {
        INIT => Said::Init,
        ROSTER => Said::Roster,
        VALUE => Said::Value(bit),
        PROPOSE => Said::Proposal(choice),
        _ => Said::Opinion(choice),
    }
}

pub fn bit_fits(kind: u8, bit: u8) -> bool
    ensures { result ≡ bit_fits kind bit }
{
    match kind {
        0..=ROSTER => bit == NO_BIT,
        VALUE => bit <= 1,
        _ => bit <= 2,
    }
}

fn bit_chosen(choice: Option<u8>) -> u8
    ensures { result ≡ bit_chosen choice }
{
    choice.unwrap_or(NO_BIT)
}

// The kind of what is said, and in `bit_said` its bit: two numbers of one value, and `said_by` takes both. Each has its definition, and none is a `From`.
pub fn kind_said(said: Said) -> u8
    ensures { result ≡ kind_said said }
{
    match said {
        Said::Init => INIT,
        Said::Roster => ROSTER,
        Said::Value(_) => VALUE,
        Said::Proposal(_) => PROPOSE,
        Said::Opinion(_) => TURN,
    }
}

pub fn bit_said(said: Said) -> u8
    ensures { result ≡ bit_said said }
{
    match said {
        Said::Init | Said::Roster => NO_BIT,
        Said::Value(b) => b,
        Said::Proposal(c) | Said::Opinion(c) => bit_chosen(c),
    }
}

// Whether numbers rise strictly from above 0. A loop with no way out is compiled to tests of four numbers at once. `numbers_rise` asks the same of numbers in
// bytes: one function over an iterator would say it of what the iterator yields, and each caller what that is.
pub fn rise(numbers: &[u32]) -> bool
    ensures { result ≡ rising 0 numbers.now }
{
    let mut ok = true;
    let mut last = 0;
    for &number in numbers {
        ok &= last < number;
        last = number;
    }
    ok
}

// The frame reader: document 01, "Frames", and request A2 of document 02. A frame's numbers stay in its bytes. Where the bytes end before a number it is 0
// and no `None`, as `count_of`, `head_from` and the contract of `read_number` have it.
ghost use Rattle.std.specs.Prelude.{◌≡◌, cond, ◌+◌, ◌*◌, ◌≤◌, ◌<◌, leb, length, map, take, drop, MatchOption};
ghost use Rattle.std.specs.Int.{w32, from_be_bytes};
ghost use Rattle.wire.specs.Limits.{frame_header, number_width};
ghost use Rattle.wire.specs.Numbers.{rising};
ghost use Rattle.wire.specs.Words.{word_at};
ghost use Rattle.wire.specs.Heads.{head_of, head_from};
ghost use Rattle.wire.specs.Frame.{count_of, length_fits, head_fits, list_fits, body_fits, read_refusal, number_checked, FrameReads};

use crate::frame::{Frame, Void, bit_fits, kind_of, max_count, round_fits, said_by};
use crate::limits::{BIT_AT, COUNT_AT, FRAME_HEADER, KIND_AT, NUMBER_WIDTH};
use crate::word::{half, word};

// How many numbers the bytes of a frame list; 0 for bytes without a header.
pub fn number_count(bytes: &[u8]) -> usize
    ensures { result ≡ count_of bytes.now }
{
    if FRAME_HEADER <= bytes.len() {
        half(bytes, COUNT_AT)
    } else {
        0
    }
}

// The `N` bytes from a place on, where there are as many.
fn chunk_at<const N: usize>(bytes: &[u8], at: usize) -> Option<&[u8; N]>
    ensures { MatchOption result (length bytes.now < at + N) (λ chunk. (at + N ≤ length bytes.now) × (chunk.now ≡ take N (drop at bytes.now))) }
{
    bytes.get(at..)?.first_chunk()
}

// The number in the four bytes from a place on: one of a frame's list, in the frame or in the tray that it lies in. 0 where the bytes end before it.
pub fn read_number(bytes: &[u8], at: usize) -> u32
    ensures { result ≡ cond (leb (at + number_width) (length bytes.now)) (word_at bytes.now at) 0 }
{
    if let Some(number) = chunk_at(bytes, at) {
        u32::from_be_bytes(*number)
    } else {
        0
    }
}

// The header of a frame of a round that says a bit and lists nothing: its eight bytes as one number.
pub fn head_of(round: u32, bit: u8) -> u64
    ensures { result ≡ head_of round bit }
{
    round as u64 * 4294967296 + kind_of(round) as u64 * 16777216 + bit as u64 * 65536
}

// The eight bytes from a place on as one number; 0 where the bytes end before them.
pub fn read_head(bytes: &[u8], at: usize) -> u64
    ensures { result ≡ head_from bytes.now at }
{
    if let Some(head) = chunk_at(bytes, at) {
        u64::from_be_bytes(*head)
    } else {
        0
    }
}

// Whether the numbers of a group, of four bytes each, rise strictly from above the one in front of it. The loop has no way out, as that of `rise`.
fn group_rises(before: u32, group: &[[u8; NUMBER_WIDTH]]) -> bool
    ensures { result ≡ rising before (map (from_be_bytes w32) group.now) }
{
    let mut ok = true;
    let mut last = before;
    for number in group {
        let number = u32::from_be_bytes(*number);
        ok &= last < number;
        last = number;
    }
    ok
}

// Whether numbers of four bytes each rise strictly from above 0. Four at a time: a good list is tested fast, and one with a fault is left at its group.
fn numbers_rise(numbers: &[[u8; NUMBER_WIDTH]]) -> bool
    ensures { result ≡ rising 0 (map (from_be_bytes w32) numbers.now) }
{
    let (groups, rest) = numbers.as_chunks::<4>();
    let mut last = 0;
    for group in groups {
        if !group_rises(last, group) {
            return false;
        }
        last = u32::from_be_bytes(group[3]);
    }
    group_rises(last, rest)
}

fn length_fits(bytes: &[u8]) -> bool
    ensures { result ≡ length_fits bytes.now }
{
    bytes.len() == FRAME_HEADER + NUMBER_WIDTH * number_count(bytes)
}

fn head_fits(bytes: &[u8], round: u32) -> bool
    requires { frame_header ≤ length bytes.now }
    ensures { result ≡ head_fits bytes.now round }
{
    let kind = bytes[KIND_AT];
    round_fits(round) && word(bytes, 0) == round && kind == kind_of(round)
}

// Whether the numbers of bytes of a fitting length are such as a frame of a kind may list. Most frames list none.
fn list_fits(bytes: &[u8], kind: u8) -> bool
    requires { length bytes.now ≡ frame_header + number_width * count_of bytes.now }
    ensures { result ≡ list_fits bytes.now kind }
{
    let count = number_count(bytes);
    count == 0 || (count <= max_count(kind) && numbers_rise(bytes[FRAME_HEADER..].as_chunks().0))
}

// Whether the bit and the numbers of bytes of a fitting length are such as a frame of a kind may have.
fn body_fits(bytes: &[u8], kind: u8) -> bool
    requires { length bytes.now ≡ frame_header + number_width * count_of bytes.now }
    ensures { result ≡ body_fits bytes.now kind }
{
    bit_fits(kind, bytes[BIT_AT]) && list_fits(bytes, kind)
}

// Whether bytes are a frame of a round, or why they are void: for any bytes and any round. The causes are tested in the order of their numbers.
pub fn check_frame(bytes: &[u8], round: u32) -> Result<(), Void>
    ensures { number_checked result ≡ read_refusal bytes.now round }
{
    if !length_fits(bytes) {
        Err(Void::WrongLength)
    } else if !head_fits(bytes, round) {
        Err(Void::WrongRound)
    } else if !body_fits(bytes, bytes[KIND_AT]) {
        Err(Void::WrongContent)
    } else {
        Ok(())
    }
}

// What bytes say in a round, or why they are void: for any bytes and any round.
pub fn read_frame(bytes: &[u8], round: u32) -> Result<Frame, Void>
    ensures { FrameReads bytes.now round result }
{
    check_frame(bytes, round)?;
    let said = said_by(kind_of(round), bytes[BIT_AT]);
    Ok(Frame { round, said })
}

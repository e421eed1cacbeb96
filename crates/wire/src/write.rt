// The frame writer: document 01, "Frames".
ghost use Rattle.std.specs.Prelude.{◌≡◌, ◌+◌, ◌*◌, ◌≤◌, length};
ghost use Rattle.std.proofs.lemmas.List.Edits.{sets};
ghost use Rattle.wire.specs.Limits.{frame_header, number_width, max_numbers};
ghost use Rattle.wire.specs.Words.{words_bytes};
ghost use Rattle.wire.specs.Frame.{kind_of, kind_said, bit_said, chosen_fits, said_fits, writable, header_bytes, FrameWrites};
ghost use Rattle.wire.specs.Laid.{FrameLays};

use crate::frame::{
    Frame, Said, Unwritten, bit_said, kind_of, kind_said, max_count, rise, round_fits,
};
use crate::limits::{
    BIT_AT, COUNT_AT, FRAME_HEADER, KIND_AT, MAX_FRAME, MAX_NUMBERS, NUMBER_WIDTH,
};
use crate::word::{put_half, put_word};

fn chosen_fits(choice: Option<u8>) -> bool
    ensures { result ≡ chosen_fits choice }
{
    choice.is_none_or(|b| b <= 1)
}

fn said_fits(said: Said) -> bool
    ensures { result ≡ said_fits said }
{
    match said {
        Said::Init | Said::Roster => true,
        Said::Value(b) => b <= 1,
        Said::Proposal(c) | Said::Opinion(c) => chosen_fits(c),
    }
}

fn writable(frame: Frame, numbers: &[u32]) -> bool
    ensures { result ≡ writable (record { round = frame.round; said = frame.said; numbers = numbers.now }) }
{
    let kind = kind_said(frame.said);
    round_fits(frame.round)
        & (kind == kind_of(frame.round))
        & said_fits(frame.said)
        & (numbers.len() <= max_count(kind))
        & rise(numbers)
}

// The header by its parts: round, kind, bit and count.
fn lay_header(out: &mut [u8], round: u32, kind: u8, bit: u8, count: usize)
    requires room { frame_header ≤ length out.old }
    requires few { count ≤ max_numbers }
    ensures { out.new ≡ sets out.old 0 (header_bytes round kind bit count) }
{
    put_word(out, 0, round);
    out[KIND_AT] = kind;
    out[BIT_AT] = bit;
    put_half(out, COUNT_AT, count);
}

fn put_header(out: &mut [u8], frame: Frame, count: usize)
    requires room { frame_header ≤ length out.old }
    requires few { count ≤ max_numbers }
    ensures { out.new
        ≡ sets out.old 0 (header_bytes frame.round (kind_said frame.said) (bit_said frame.said) count) }
{
    lay_header(
        out,
        frame.round,
        kind_said(frame.said),
        bit_said(frame.said),
        count,
    );
}

fn put_numbers(out: &mut [u8], numbers: &[u32])
    requires { frame_header + number_width * length numbers.now ≤ length out.old }
    ensures { out.new ≡ sets out.old frame_header (words_bytes numbers.now) }
{
    for (i, &number) in numbers.iter().enumerate() {
        put_word(out, FRAME_HEADER + NUMBER_WIDTH * i, number);
    }
}

// Writes the bytes of a frame of a round at the start of `out`, and returns how many they are. What the frame says is not tested: that is for who knows
// that it is one. Nothing is written, and 0 returned, which is a length too (`FrameLays`), where `out` is too short for the longest frame or there are more
// than 64 numbers.
pub fn lay_frame(round: u32, bit: u8, numbers: &[u32], out: &mut [u8]) -> usize
    ensures { FrameLays round bit numbers.now out.old result out.new }
{
    if out.len() < MAX_FRAME {
        return 0;
    }
    if MAX_NUMBERS < numbers.len() {
        return 0;
    }
    lay_header(out, round, kind_of(round), bit, numbers.len());
    put_numbers(out, numbers);
    FRAME_HEADER + NUMBER_WIDTH * numbers.len()
}

// Writes a frame at the start of `out`, and returns how many bytes it has; or refuses (10, then 3) and leaves `out` as it is.
pub fn write_frame(frame: Frame, numbers: &[u32], out: &mut [u8]) -> Result<usize, Unwritten>
    ensures { FrameWrites (record { round = frame.round; said = frame.said; numbers = numbers.now })
        out.old result out.new }
{
    if !writable(frame, numbers) {
        return Err(Unwritten::NoFrame);
    }
    if out.len() < MAX_FRAME {
        return Err(Unwritten::NoRoom);
    }
    put_header(out, frame, numbers.len());
    put_numbers(out, numbers);
    Ok(FRAME_HEADER + NUMBER_WIDTH * numbers.len())
}

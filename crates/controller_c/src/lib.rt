// The calls that a host makes from C, on the image of a state that the host keeps: docs/IMAGE.md.
#![tactic(auto)]

ghost use Rattle.std.specs.Prelude.{cond, ◌≡◌, ◌≤◌, length, get_or};
ghost use Rattle.wire.specs.Numbers.{listed};
ghost use Rattle.wire.specs.Frame.{read_refusal};
ghost use Rattle.controller.specs.State.{first_rounds};
ghost use Rattle.controller_c.specs.Calls.{StartImagePromise, TrayImagePromise, field_of};
ghost use Rattle.controller_c.specs.Image.{echoes_at, sound_image, taken_apart};
ghost use Rattle.controller_c.specs.Words.{number_at};

use crate::image::{is_sound_image, lay_out, lay_over, reserved_zero, take_apart};
use crate::layout::{
    CANDIDATES_AT, COUNT_BYTES, DECISION_AT, ECHOES_AT, HEARD_AT, IMAGE_BYTES, KING_AT, ROUND_AT,
    SINCE_AT,
};
use crate::word::word;
use controller::calls::{start, work};
use controller::state::Refusal;
use wire::limits::{MAX_NUMBERS, NUMBER_WIDTH};
use wire::read::check_frame;

mod image;
mod layout;
mod word;

// Refuses what is no image.
fn no_image(written: &mut usize) -> u8
    ensures number { result ≡ 1 }
    ensures written { written.new ≡ 0 }
{
    *written = 0;
    Refusal::Unsound as u8
}

// Begins a run with a number and a bit, and writes the init frame. Refusals 1, 9, 3. The image is not read.
#[unsafe(no_mangle)]
pub extern "C" fn controller_start(
    number: u32,
    bit: u8,
    image: &mut [u8],
    out: &mut [u8],
    written: &mut usize,
) -> u8
    ensures { StartImagePromise number bit image.old out.old result image.new out.new written.new }
{
    let Some(image) = image.as_mut_array::<IMAGE_BYTES>() else {
        return no_image(written);
    };
    let answer = start(number, bit, out);
    *written = answer.length;
    if answer.refusal == 0 {
        lay_out(&answer.state, image);
    }
    answer.refusal
}

// Works a tray of the round of the image's state and writes the next frame, or none if the controller decides. Refusals 1 to 8.
#[unsafe(no_mangle)]
pub extern "C" fn controller_tray(
    image: &mut [u8],
    tray: &[u8],
    out: &mut [u8],
    written: &mut usize,
) -> u8
    ensures { TrayImagePromise image.old tray.now out.old result image.new out.new written.new }
{
    let Some(image) = image.as_mut_array::<IMAGE_BYTES>() else {
        return no_image(written);
    };
    if !reserved_zero(image) {
        return no_image(written);
    }
    let mut state = take_apart(image);
    let known = state.heard.len;
    match work(&mut state, tray, out) {
        Ok(length) => {
            *written = length;
            lay_over(known, &state, image);
            0
        }
        Err(refusal) => {
            *written = 0;
            refusal as u8
        }
    }
}

// Why bytes are void in a round, 11, 12 or 13; 0 where they are a frame of it. For whoever sorts damaged frames by their cause.
#[unsafe(no_mangle)]
pub extern "C" fn controller_frame(frame: &[u8], round: u32) -> u8
    ensures { result ≡ read_refusal frame.now round }
{
    match check_frame(frame, round) {
        Ok(()) => 0,
        Err(void) => void as u8,
    }
}

// The decision of the image's state, 2 for none; 255 for an image that is not sound.
#[unsafe(no_mangle)]
pub extern "C" fn controller_decision(image: &[u8]) -> u8
    ensures { result ≡ cond (sound_image image.now) (taken_apart image.now).decision 255 }
{
    if is_sound_image(image) {
        image[DECISION_AT]
    } else {
        255
    }
}

// The number in the four bytes at `at`; 0 for an image that is not sound.
fn field(image: &[u8], at: usize) -> u32
    requires { at ≤ echoes_at }
    ensures { result ≡ field_of image.now (number_at image.now at) }
{
    if is_sound_image(image) {
        word(image, at)
    } else {
        0
    }
}

// The last round sent.
#[unsafe(no_mangle)]
pub extern "C" fn controller_round(image: &[u8]) -> u32
    ensures { result ≡ field_of image.now (taken_apart image.now).round }
{
    field(image, ROUND_AT)
}

// The king, 0 for none.
#[unsafe(no_mangle)]
pub extern "C" fn controller_king(image: &[u8]) -> u32
    ensures { result ≡ field_of image.now (taken_apart image.now).king }
{
    field(image, KING_AT)
}

// How many numbers are heard.
#[unsafe(no_mangle)]
pub extern "C" fn controller_heard(image: &[u8]) -> u32
    ensures { result ≡ field_of image.now (taken_apart image.now).heard.len }
{
    field(image, HEARD_AT)
}

// How many numbers are candidates.
#[unsafe(no_mangle)]
pub extern "C" fn controller_candidates(image: &[u8]) -> u32
    ensures { result ≡ field_of image.now (taken_apart image.now).candidates.len }
{
    field(image, CANDIDATES_AT)
}

// How many numbers are echoed.
#[unsafe(no_mangle)]
pub extern "C" fn controller_echoes(image: &[u8]) -> u32
    ensures { result ≡ field_of image.now (taken_apart image.now).echoes.len }
{
    field(image, ECHOES_AT)
}

// The number at place `i` of heard, from 0; 0 past the end.
#[unsafe(no_mangle)]
pub extern "C" fn controller_heard_number(image: &[u8], i: u32) -> u32
    ensures { result ≡ field_of image.now (get_or (listed (taken_apart image.now).heard) i 0) }
{
    let place = i as usize;
    if place < MAX_NUMBERS {
        field(image, HEARD_AT + COUNT_BYTES + NUMBER_WIDTH * place)
    } else {
        0
    }
}

// The round of the tray that first brought the number at place `i` of heard; 0 for the own number, and past the end.
#[unsafe(no_mangle)]
pub extern "C" fn controller_first_round(image: &[u8], i: u32) -> u32
    ensures { result ≡ field_of image.now (get_or (first_rounds (taken_apart image.now)) i 0) }
{
    let place = i as usize;
    if place < MAX_NUMBERS && is_sound_image(image) {
        image[SINCE_AT + place] as u32
    } else {
        0
    }
}

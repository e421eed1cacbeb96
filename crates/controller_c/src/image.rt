// A state and its image: 1,024 bytes, laid out as docs/IMAGE.md has them. Of a list all 64 places are read and written, used or not: a loop of a fixed
// count over words in the machine's order is a plain copy, which the compiler makes wide.
ghost use Rattle.std.specs.Prelude.{true, ◌≡◌, ◌+◌, ◌*◌, ◌≤◌, length, drop};
ghost use Rattle.std.proofs.lemmas.List.Edits.{sets};
ghost use Rattle.wire.specs.Limits.{max_numbers, number_width};
ghost use Rattle.controller.specs.State.{sound};
ghost use Rattle.controller_c.specs.Image.{since_at, reserved_at, list_width, Sized, SizedRotation, head_bytes, list_bytes, zeros_from};
ghost use Rattle.controller_c.specs.Image.{laid_out, with_rotation, places_at, list_at, rounds_at, taken_apart, zeros, sound_image};
ghost use Rattle.controller_c.specs.Image.{renewed_heard, renewed_rotation, LaysOver};
ghost use Rattle.controller_c.specs.Words.{numbers_bytes};

use crate::layout::{
    CANDIDATES_AT, COUNT_BYTES, DECISION_AT, ECHOES_AT, HEARD_AT, IMAGE_BYTES, KING_AT, OWN_AT,
    OWN_BIT_AT, RESERVED_AT, ROUND_AT, SAID_AT, SINCE_AT, STRONG_AT,
};
use crate::word::{put_word, word};
use controller::sound::is_sound;
use controller::state::State;
use wire::frame::{Numbers, kind_of};
use wire::limits::{MAX_NUMBERS, NUMBER_WIDTH, VALUE};

// Whether the reserved bytes are 0. They are joined by `|`, so that the loop has no way out to wait for.
pub(crate) fn reserved_zero(image: &[u8; IMAGE_BYTES]) -> bool
    ensures { result ≡ zeros (drop reserved_at image.now) }
{
    let mut all = 0;
    for &byte in &image[RESERVED_AT..] {
        all |= byte;
    }
    all == 0
}

// ---- from an image to the state in it

// The places of a list.
fn take_places(image: &[u8], from: usize) -> [u32; MAX_NUMBERS]
    requires { from + number_width * max_numbers ≤ length image.now }
    ensures { result ≡ places_at image.now from }
{
    let mut at = [0; MAX_NUMBERS];
    for i in 0..MAX_NUMBERS {
        at[i] = word(image, from + NUMBER_WIDTH * i);
    }
    at
}

fn take_list(image: &[u8], from: usize) -> Numbers
    requires { from + list_width ≤ length image.now }
    ensures { result ≡ list_at image.now from }
{
    Numbers {
        len: word(image, from) as usize,
        at: take_places(image, from + COUNT_BYTES),
    }
}

// The record, a byte for each place.
fn take_rounds(image: &[u8; IMAGE_BYTES]) -> [u8; MAX_NUMBERS]
    ensures { result ≡ rounds_at image.now }
{
    let mut rounds = [0; MAX_NUMBERS];
    rounds.copy_from_slice(&image[SINCE_AT..RESERVED_AT]);
    rounds
}

// The state in an image, sound or not.
pub(crate) fn take_apart(image: &[u8; IMAGE_BYTES]) -> State
    ensures { result ≡ taken_apart image.now }
{
    State {
        own: word(image, OWN_AT),
        round: word(image, ROUND_AT),
        bit: image[OWN_BIT_AT],
        said: image[SAID_AT],
        strong: image[STRONG_AT],
        king: word(image, KING_AT),
        decision: image[DECISION_AT],
        heard: take_list(image, HEARD_AT),
        candidates: take_list(image, CANDIDATES_AT),
        echoes: take_list(image, ECHOES_AT),
        since: take_rounds(image),
    }
}

pub(crate) fn is_sound_image(image: &[u8]) -> bool
    ensures { result ≡ sound_image image.now }
{
    let Some(image) = image.as_array::<IMAGE_BYTES>() else {
        return false;
    };
    reserved_zero(image) && is_sound(&take_apart(image))
}

// ---- from a state to its image

fn put_head(image: &mut [u8; IMAGE_BYTES], state: &State)
    ensures { image.new ≡ sets image.old 0 (head_bytes state.now) }
{
    put_word(image, OWN_AT, state.own);
    put_word(image, ROUND_AT, state.round);
    image[OWN_BIT_AT] = state.bit;
    image[SAID_AT] = state.said;
    image[STRONG_AT] = state.strong;
    put_word(image, KING_AT, state.king);
    image[DECISION_AT] = state.decision;
}

fn put_places(image: &mut [u8], from: usize, at: &[u32; MAX_NUMBERS])
    requires { from + number_width * max_numbers ≤ length image.old }
    ensures { image.new ≡ sets image.old from (numbers_bytes at.now) }
{
    for i in 0..MAX_NUMBERS {
        put_word(image, from + NUMBER_WIDTH * i, at[i]);
    }
}

fn put_list(image: &mut [u8], from: usize, list: &Numbers)
    requires sized { Sized list.now }
    requires room { from + list_width ≤ length image.old }
    ensures { image.new ≡ sets image.old from (list_bytes list.now) }
{
    put_word(image, from, list.len as u32);
    put_places(image, from + COUNT_BYTES, &list.at);
}

// Candidates and echoes.
fn put_rotation(image: &mut [u8; IMAGE_BYTES], state: &State)
    requires { SizedRotation state.now }
    ensures { image.new ≡ with_rotation state.now image.old }
{
    put_list(image, CANDIDATES_AT, &state.candidates);
    put_list(image, ECHOES_AT, &state.echoes);
}

// From a copy, which the compiler knows to lie apart from the image, so that it moves the bytes wide.
fn put_rounds(image: &mut [u8; IMAGE_BYTES], since: &[u8; MAX_NUMBERS])
    ensures { image.new ≡ sets image.old since_at since.now }
{
    let rounds = *since;
    image[SINCE_AT..RESERVED_AT].copy_from_slice(&rounds);
}

fn clear_reserved(image: &mut [u8; IMAGE_BYTES])
    ensures { image.new ≡ sets image.old reserved_at (zeros_from reserved_at) }
{
    image[RESERVED_AT..].fill(0);
}

// Every byte of the image, from a sound state.
pub(crate) fn lay_out(state: &State, image: &mut [u8; IMAGE_BYTES])
    requires { sound state.now ≡ true }
    ensures { image.new ≡ laid_out state.now }
{
    put_head(image, state);
    put_list(image, HEARD_AT, &state.heard);
    put_rotation(image, state);
    put_rounds(image, &state.since);
    clear_reserved(image);
}

// ---- from a state to the image of the one before it

// Those heard, with the record beside them. Nobody is ever dropped, so where they are still `known` in number they are the same, and so is the record.
fn renew_heard(image: &mut [u8; IMAGE_BYTES], known: usize, state: &State)
    requires { Sized state.now.heard }
    ensures { image.new ≡ renewed_heard known state.now image.old }
{
    if state.heard.len != known {
        put_list(image, HEARD_AT, &state.heard);
        put_rounds(image, &state.since);
    }
}

// Candidates and echoes, which a step changes only where it makes a roster or a value.
fn renew_rotation(image: &mut [u8; IMAGE_BYTES], state: &State)
    requires { SizedRotation state.now }
    ensures { image.new ≡ renewed_rotation state.now image.old }
{
    if kind_of(state.round) <= VALUE {
        put_rotation(image, state);
    }
}

// Makes the image of the state before a step, in which `known` are heard, that of the state made. A list that the step left as it was is not stored again,
// nor are the reserved bytes, which are 0 already: most steps change the head alone.
pub(crate) fn lay_over(known: usize, state: &State, image: &mut [u8; IMAGE_BYTES])
    requires { LaysOver known state.now image.old }
    ensures { image.new ≡ laid_out state.now }
{
    put_head(image, state);
    renew_heard(image, known, state);
    renew_rotation(image, state);
}

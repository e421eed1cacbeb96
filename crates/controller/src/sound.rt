// The soundness of a state, document 01's "sound".
ghost use Rattle.std.specs.Prelude.{◌≡◌};
ghost use Rattle.controller.specs.Lists.{count_if};
ghost use Rattle.controller.specs.State.{view, sound_list, sound, sound_said};
ghost use Rattle.controller.specs.Work.First.{is_zero};
ghost use Rattle.controller.specs.Work.Sound.{empty_sound, bits_sound, fields_sound, lists_sound};

use crate::first::rounds_sound;
use crate::lists::{has_at, place_in};
use crate::state::State;
use wire::frame::{Numbers, bit_fits, kind_of, rise, round_fits};
use wire::limits::{MAX_NUMBERS, NO_BIT, VALUE};

// How many of the 64 places are 0. They are counted in words of their own width, so that the loop takes four at a time;
// `zeros` counts bytes.
fn zero_places(at: &[u32; MAX_NUMBERS]) -> u32
    ensures { result ≡ count_if is_zero at.now }
{
    let mut zeros = 0;
    for &number in at {
        zeros += (number == 0) as u32;
    }
    zeros
}

// Whether the numbers rise and the unused places are 0: the stored form of a list. Numbers that rise are not 0, so if as many places are 0 as are unused, they
// are those.
fn is_list(list: &Numbers) -> bool
    ensures { result ≡ sound_list list.now }
{
    list.len <= MAX_NUMBERS
        && (rise(&list.at[..list.len]) & (zero_places(&list.at) as usize + list.len == MAX_NUMBERS))
}

fn said_sound(state: &State) -> bool
    ensures { result ≡ sound_said (view state.now) }
{
    let kind = kind_of(state.round);
    if state.decision == NO_BIT {
        bit_fits(kind, state.said) & ((kind != VALUE) | (state.said == state.bit))
    } else {
        state.said == NO_BIT
    }
}

// Candidates are empty in rounds 1 and 2, echoes in round 1.
fn empty_sound(state: &State) -> bool
    ensures { result ≡ empty_sound state.now }
{
    ((2 < state.round) | (state.candidates.len == 0))
        & ((1 < state.round) | (state.echoes.len == 0))
}

fn bits_sound(state: &State) -> bool
    ensures { result ≡ bits_sound state.now }
{
    (state.bit <= 1) & (state.strong <= 1) & (state.decision <= NO_BIT)
}

// What soundness asks of all but the own number and the lists' numbers.
fn fields_sound(state: &State) -> bool
    ensures { result ≡ fields_sound state.now }
{
    round_fits(state.round) & said_sound(state) & empty_sound(state) & bits_sound(state)
}

// Whether the three lists are in their stored form.
fn lists_sound(state: &State) -> bool
    ensures { result ≡ lists_sound state.now }
{
    is_list(&state.heard) & is_list(&state.candidates) & is_list(&state.echoes)
}

// Whether a state is sound. The lists come first: only a rising list can be searched for the own number.
pub fn is_sound(state: &State) -> bool
    ensures { result ≡ sound state.now }
{
    if !lists_sound(state) {
        return false;
    }
    let place = place_in(&state.heard, state.own);
    has_at(&state.heard, place, state.own)
        && (fields_sound(state)
            & (state.own != 0)
            & rounds_sound(&state.since, state.heard.len, place))
}

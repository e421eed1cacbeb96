// The two calls: start, and tray, which works a tray of frames or refuses it; and work, which is tray on a state that is lent.
ghost use Rattle.std.specs.Prelude.{◌≡◌, ◌≤◌, length, IfOk};
ghost use Rattle.wire.specs.Limits.{max_numbers, max_frame};
ghost use Rattle.controller.specs.State.{zero_state, stored_state, start_view, start_rounds};
ghost use Rattle.controller.specs.Calls.{StartPromise, TrayPromise, WorkPromise, refusal_number, number_tested};
ghost use Rattle.controller.specs.Work.Calls.{early_refusal, Checked, SendsState};

use crate::first::take_over;
use crate::lists::no_numbers;
use crate::packed::PackedTray;
use crate::received::{NotedTray, hear, senders_fit, sent_count};
use crate::sound::is_sound;
use crate::state::{Answer, Refusal, State};
use crate::step::step;
use wire::found::NO_FRAME;
use wire::limits::{LAST_ROUND, MAX_FRAME, MAX_NUMBERS, NO_BIT};
use wire::tray::{tray_round, well_formed};
use wire::write::lay_frame;

fn zero_state() -> State
    ensures { result ≡ zero_state }
{
    State {
        own: 0,
        round: 0,
        bit: 0,
        said: 0,
        strong: 0,
        king: 0,
        decision: 0,
        heard: no_numbers(),
        candidates: no_numbers(),
        echoes: no_numbers(),
        since: [0; MAX_NUMBERS],
    }
}

fn first_state(number: u32, bit: u8) -> State
    ensures { result ≡ stored_state (start_view number bit) start_rounds }
{
    let mut heard = no_numbers();
    heard.len = 1;
    heard.at[0] = number;
    State {
        own: number,
        round: 1,
        bit,
        said: NO_BIT,
        decision: NO_BIT,
        heard,
        ..zero_state()
    }
}

fn refused(refusal: Refusal, state: State) -> Answer
    ensures { result ≡ record { refusal = refusal_number refusal; state = state; length = 0 } }
{
    Answer {
        refusal: refusal as u8,
        state,
        length: 0,
    }
}

// Writes the frame that is sent with a state, and returns its length; a decided one sends nothing.
fn send(state: &State, out: &mut [u8]) -> usize
    requires room { max_frame ≤ length out.old }
    requires few { state.now.echoes.len ≤ max_numbers }
    ensures { SendsState state.now out.old result out.new }
{
    if state.decision != NO_BIT {
        return 0;
    }
    let echoes = &state.echoes.at[..sent_count(state)];
    lay_frame(state.round, state.said, echoes, out)
}

// Begins a run with a number and a bit, and writes the init frame. Refusals 9, then 3.
pub fn start(number: u32, bit: u8, out: &mut [u8]) -> Answer
    ensures { StartPromise number bit out.old result out.new }
{
    if number == 0 || 1 < bit {
        return refused(Refusal::BadStart, zero_state());
    }
    if out.len() < MAX_FRAME {
        return refused(Refusal::NoRoom, zero_state());
    }
    let state = first_state(number, bit);
    let length = send(&state, out);
    Answer {
        refusal: 0,
        state,
        length,
    }
}

// Tests 1 to 5, in their order. They look at no sender and no frame.
fn test_early<'a>(state: &State, tray: &'a [u8], room: usize) -> Result<PackedTray<'a>, Refusal>
    ensures number { number_tested result ≡ early_refusal state.now tray.now room }
    ensures tray { IfOk result (λ t. t.bytes.now ≡ tray.now) }
{
    if !is_sound(state) {
        Err(Refusal::Unsound)
    } else if (LAST_ROUND <= state.round) | (state.decision != NO_BIT) {
        Err(Refusal::Finished)
    } else if room < MAX_FRAME {
        Err(Refusal::NoRoom)
    } else if !well_formed(tray) {
        Err(Refusal::BadlyPacked)
    } else if tray_round(tray) != state.round {
        Err(Refusal::OtherRound)
    } else {
        Ok(PackedTray { bytes: tray })
    }
}

// Tests 6 to 8, and the step between the last two.
fn work_checked(state: &mut State, tray: PackedTray, out: &mut [u8]) -> Result<usize, Refusal>
    requires { Checked state.old tray.bytes.now (length out.old) }
    ensures { WorkPromise state.old tray.entry.bytes.now out.old result state.new out.new }
{
    let heard = state.heard;
    let round = state.round as u8;
    let mut noted = NotedTray {
        tray: tray.bytes,
        notes: [NO_FRAME; MAX_NUMBERS],
    };
    if hear(tray, state.own, &mut state.heard, &mut noted.notes).is_none() {
        state.heard = heard;
        return Err(if senders_fit(tray.bytes, state.own) {
            Refusal::TooManyHeard
        } else {
            Refusal::BadSender
        });
    }
    if step(state, &noted).is_none() {
        state.heard = heard;
        return Err(Refusal::TooManyListed);
    }
    take_over(&heard, &state.heard, round, &mut state.since);
    Ok(send(state, out))
}

// Works a tray, as `tray` does, on a state that is lent: returns the length of the frame written, 0 where the call decides. Refused, the state and `out` stay
// as they are. Tests 1 to 8, in their order.
pub fn work(state: &mut State, tray: &[u8], out: &mut [u8]) -> Result<usize, Refusal>
    ensures { WorkPromise state.old tray.now out.old result state.new out.new }
{
    let packed = test_early(state, tray, out.len())?;
    work_checked(state, packed, out)
}

// Works a tray of the state's round and writes the next frame, if the controller has not decided then; or refuses the tray.
pub fn tray(state: State, tray: &[u8], out: &mut [u8]) -> Answer
    ensures { TrayPromise state tray.now out.old result out.new }
{
    let mut state = state;
    match work(&mut state, tray, out) {
        Ok(length) => Answer {
            refusal: 0,
            state,
            length,
        },
        Err(refusal) => refused(refusal, state),
    }
}

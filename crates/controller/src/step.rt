// One step: what a tray makes of a state. All senders of the tray are heard already. That a state is ready for its tray (`Ready`) is asked by each function
// and is no type's invariant: such a type would borrow the state that a step writes, and be made anew, with its proof, wherever one only reads.
ghost use Rattle.std.specs.Prelude.{◌≡◌, ◌+◌, ◌≤◌, ◌<◌, is_some};
ghost use Rattle.wire.specs.Limits.{max_numbers, last_round};
ghost use Rattle.controller.specs.Work.Received.{Ready};
ghost use Rattle.controller.specs.Work.Step.{named_state, Due, Makes, MakesAll};

use crate::bit::{bit_taken, proposal, spoken};
use crate::received::{NotedTray, count_bits};
use crate::rotation::{king_at, roster};
use crate::state::State;
use crate::tally::grow;
use wire::frame::kind_of;
use wire::limits::{NO_BIT, PROPOSE, ROSTER, VALUE};

// (c): the decision or the king of a phase, where lists and bit are made. A controller that decides says nothing any more.
fn name_king(state: &mut State, phase: usize)
    requires { state.old.candidates.len ≤ max_numbers }
    ensures { state.new ≡ named_state state.old phase }
{
    state.king = king_at(&state.candidates, phase);
    if state.candidates.len <= phase {
        state.decision = state.bit;
        state.said = NO_BIT;
    }
}

fn make_roster(state: &mut State, noted: &NotedTray)
    requires { Due 2 state.old noted.now.tray.now noted.now.notes }
    ensures { MakesAll state.old noted.now.tray.now state.new }
{
    state.echoes = roster(state, noted);
    state.round += 1;
}

fn make_propose(state: &mut State, noted: &NotedTray)
    requires { Due 4 state.old noted.now.tray.now noted.now.notes }
    ensures { MakesAll state.old noted.now.tray.now state.new }
{
    let counts = count_bits(state, noted);
    state.said = proposal(counts, state.heard.len);
    state.round += 1;
}

fn make_turn(state: &mut State, noted: &NotedTray)
    requires { Due 5 state.old noted.now.tray.now noted.now.notes }
    ensures { MakesAll state.old noted.now.tray.now state.new }
{
    let turn = spoken(state, count_bits(state, noted));
    state.bit = turn.bit;
    state.strong = turn.strong;
    state.said = turn.said;
    state.round += 1;
}

// `None` where candidates or echoes do not fit; the state then stays as it is.
fn make_value(state: &mut State, noted: &NotedTray) -> Option<()>
    requires { Due 3 state.old noted.now.tray.now noted.now.notes }
    ensures { Makes state.old noted.now.tray.now (is_some result) state.new }
{
    let bit = bit_taken(state, noted);
    let phase = (state.round / 3) as usize;
    grow(state, noted)?;
    state.bit = bit;
    state.said = bit;
    state.round += 1;
    name_king(state, phase);
    Some(())
}

// The step, by the kind of the frame that is made: the rules fix the four, and no caller brings one, so that it is a `match`. `None` where the lists do not
// fit; the state then stays as it is.
pub(crate) fn step(state: &mut State, noted: &NotedTray) -> Option<()>
    requires ready { Ready state.old noted.now.tray.now noted.now.notes }
    requires early { state.old.round < last_round }
    ensures { Makes state.old noted.now.tray.now (is_some result) state.new }
{
    match kind_of(state.round + 1) {
        ROSTER => make_roster(state, noted),
        VALUE => make_value(state, noted)?,
        PROPOSE => make_propose(state, noted),
        _ => make_turn(state, noted),
    }
    Some(())
}

// The coordinator rotation: the roster, and whom the controller names king.
ghost use Rattle.std.specs.Prelude.{◌≡◌, ◌+◌, ◌≤◌, get_or};
ghost use Rattle.wire.specs.Frame.{kind_of};
ghost use Rattle.wire.specs.Limits.{max_numbers};
ghost use Rattle.wire.specs.Numbers.{stored, listed};
ghost use Rattle.controller.specs.Rotation.{roster};
ghost use Rattle.controller.specs.Work.Received.{received_by, Ready};

use crate::lists::no_numbers;
use crate::received::{NotedTray, received_bit};
use crate::state::State;
use wire::frame::Numbers;
use wire::limits::NO_BIT;

// The senders of init, own included.
pub(crate) fn roster(state: &State, noted: &NotedTray) -> Numbers
    requires ready { Ready state.now noted.now.tray.now noted.now.notes }
    requires kind { kind_of state.now.round ≡ 1 }
    ensures { result ≡ stored (roster (received_by state.now noted.now.tray.now)) }
{
    let mut list = no_numbers();
    for j in 0..state.heard.len {
        let bit = received_bit(state.round, state.said, noted.tray, noted.notes[j]);
        if bit == Some(NO_BIT) {
            list.at[list.len] = state.heard.at[j];
            list.len += 1;
        }
    }
    list
}

// The candidate at the phase's place, 0 where there is none, as the state's king is.
pub(crate) fn king_at(candidates: &Numbers, phase: usize) -> u32
    requires { candidates.now.len ≤ max_numbers }
    ensures { result ≡ get_or (listed candidates.now) phase 0 }
{
    if phase < candidates.len {
        candidates.at[phase]
    } else {
        0
    }
}

// One controller's part in a run: its state, and the two calls, start and tray. Bytes are known through the crate wire alone.
#![tactic(auto)]

mod bit;
pub mod calls;
mod counts;
mod first;
mod heads;
mod lists;
mod open_list;
mod opened;
mod own;
mod packed;
mod received;
mod rotation;
pub mod sound;
pub mod state;
mod step;
mod tally;

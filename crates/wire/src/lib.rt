// Frames and trays: the bytes that controllers exchange, and what they say. Nothing here knows a controller's state.
#![tactic(auto)]

pub mod found;
pub mod frame;
pub mod limits;
pub mod read;
pub mod tray;
mod word;
pub mod write;

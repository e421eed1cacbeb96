// Offsets, widths and limits of the two formats, as specs/Limits.antt has them.

// Frames: the header's length, a number's width, the fields' offsets.
pub const FRAME_HEADER: usize = 8;

pub const NUMBER_WIDTH: usize = 4;

pub const KIND_AT: usize = 4;

pub const BIT_AT: usize = 5;

pub const COUNT_AT: usize = 6;

// Frames: document 01's kinds. They stay numbers: `max_count`, `bit_fits` and `said_by` promise an answer for any; the enum of what a frame says is `Said`.
pub const INIT: u8 = 1;

pub const ROSTER: u8 = 2;

pub const VALUE: u8 = 3;

pub const PROPOSE: u8 = 4;

pub const TURN: u8 = 5;

// Document 01's 2: no bit. Init and roster have it, and a proposal, an opinion or a decision that there is not. It stays a number, as the contracts of
// `bit_fits` and `said_by` take any byte, and a state has any.
pub const NO_BIT: u8 = 2;

// Frames: the most numbers, the longest frame, the last round.
pub const MAX_NUMBERS: usize = 64;

pub const MAX_FRAME: usize = 264;

pub const LAST_ROUND: u32 = 195;

// Trays: the header's length and its fields' offsets; an entry's width and its fields' offsets.
pub const TRAY_HEADER: usize = 8;

pub const ENTRIES_AT: usize = 4;

pub const ZERO_AT: usize = 6;

pub const ENTRY_WIDTH: usize = 8;

pub const OFFSET_AT: usize = 4;

pub const LENGTH_AT: usize = 6;

// Trays: the longest tray, the most entries.
pub const MAX_TRAY: usize = 65535;

pub const MAX_ENTRIES: usize = 256;

// Offsets of an image's fields, as specs/Image.antt has them.
pub(crate) const IMAGE_BYTES: usize = 1024;

pub(crate) const OWN_AT: usize = 0;

pub(crate) const ROUND_AT: usize = 4;

pub(crate) const OWN_BIT_AT: usize = 8;

pub(crate) const SAID_AT: usize = 9;

pub(crate) const STRONG_AT: usize = 10;

pub(crate) const KING_AT: usize = 11;

pub(crate) const DECISION_AT: usize = 15;

pub(crate) const HEARD_AT: usize = 16;

pub(crate) const CANDIDATES_AT: usize = 276;

pub(crate) const ECHOES_AT: usize = 536;

pub(crate) const SINCE_AT: usize = 796;

pub(crate) const RESERVED_AT: usize = 860;

// A list's count, before its places.
pub(crate) const COUNT_BYTES: usize = 4;

// What a tray has under a number: one frame, none, or several that differ (specs/Found.antt). Who goes along a directory, from its end to its front, keeps
// a note for each number; specs/Notes.antt says what that tells.
ghost use Rattle.std.specs.Prelude.{◌≡◌};
ghost use Rattle.wire.specs.Found.{same_bytes};
ghost use Rattle.wire.specs.Notes.{found_by, same_frames, note_with};

// Where a number's frame lies, offset and length (of equal copies, the first); or that it has none, or several that differ.
#[derive(Clone, Copy, Debug, PartialEq, Eq)]
pub enum Found {
    At(usize, usize),
    Nothing,
    Several,
}

// A note is a place, the directory's word of offset and length, or one of these: no frame lies so far in front. As an enum it would say no more: `found_by`
// gives the enum where a note is looked at.
pub const NO_FRAME: u32 = 0;

pub const DIFFERENT: u32 = 1;

// What a note says.
pub fn found_by(note: u32) -> Found
    ensures { result ≡ found_by note }
{
    match note {
        NO_FRAME => Found::Nothing,
        DIFFERENT => Found::Several,
        _ => Found::At(note as usize / 65536, note as usize % 65536),
    }
}

// Whether two parts have the same bytes. It goes from the end to the front, in blocks: lists that differ mostly differ in their last numbers.
pub fn same_bytes(a: &[u8], b: &[u8]) -> bool
    ensures { result ≡ same_bytes a.now b.now }
{
    if a.len() != b.len() {
        return false;
    }
    let (a_front, a_blocks) = a.as_rchunks::<64>();
    let (b_front, b_blocks) = b.as_rchunks::<64>();
    for i in (0..a_blocks.len()).rev() {
        if a_blocks[i] != b_blocks[i] {
            return false;
        }
    }
    a_front == b_front
}

// Whether two notes are of one frame each, which lie in the tray and have the same bytes.
pub fn same_frames(tray: &[u8], a: u32, b: u32) -> bool
    ensures { result ≡ same_frames tray.now a b }
{
    let (Found::At(offset, len), Found::At(other, other_len)) = (found_by(a), found_by(b)) else {
        return false;
    };
    let first = tray.get(offset..offset + len);
    let second = tray.get(other..other + other_len);
    match (first, second) {
        (Some(first), Some(second)) => same_bytes(first, second),
        _ => false,
    }
}

// The note on a number, once a frame at `place` is met under it: equal copies count once, and the one in front is kept.
// Small, and called for each entry: inlined it saves a value tray of 64 some 250 instructions.
#[inline]
pub fn note_with(tray: &[u8], note: u32, place: u32) -> u32
    ensures { result ≡ note_with tray.now note place }
{
    if note == NO_FRAME {
        return place;
    }
    if same_frames(tray, place, note) {
        place
    } else {
        DIFFERENT
    }
}

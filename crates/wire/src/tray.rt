// Trays: the frames of one round, as a host hands them over. The layout is that of document 01, "Trays"; specs/Tray.antt says what each call
// answers, outside the directory too: there a number is 0 and no `None`, as `round_of`, `entry_count` and `word_of` have it. Each reads its own field where
// there is a header; what they share is one test.
ghost use Rattle.std.specs.Prelude.{◌≡◌, ◌+◌, ◌≤◌, leb, length};
ghost use Rattle.wire.specs.Limits.{entry_width, offset_at};
ghost use Rattle.wire.specs.Tray.{well_formed, round_of, entry_count, entry_at, directory, word_of, chained, part};

use crate::limits::{
    ENTRIES_AT, ENTRY_WIDTH, LENGTH_AT, MAX_ENTRIES, MAX_TRAY, OFFSET_AT, TRAY_HEADER, ZERO_AT,
};
use crate::word::{half, word};

// The round in which the tray's frames were sent; 0 for a tray without a header.
pub fn tray_round(tray: &[u8]) -> u32
    ensures { result ≡ round_of tray.now }
{
    if TRAY_HEADER <= tray.len() {
        word(tray, 0)
    } else {
        0
    }
}

// How many entries the tray says it has; 0 for a tray without a header.
pub fn entry_count(tray: &[u8]) -> usize
    ensures { result ≡ entry_count tray.now }
{
    if TRAY_HEADER <= tray.len() {
        half(tray, ENTRIES_AT)
    } else {
        0
    }
}

// Whether the `len` bytes from `offset` on lie in the tray. No sum is made that could wrap.
fn lies_in(tray: &[u8], offset: usize, len: usize) -> bool
    ensures { result ≡ leb (offset + len) (length tray.now) }
{
    offset <= tray.len() && len <= tray.len() - offset
}

// The `len` bytes from `offset` on; no bytes where they run past the tray's end. Document 01 names this form of a part.
pub fn part_of(tray: &[u8], offset: usize, len: usize) -> &[u8]
    ensures { result.now ≡ part tray.now offset len }
{
    if lies_in(tray, offset, len) {
        &tray[offset..offset + len]
    } else {
        &[]
    }
}

// The directory: the entries' bytes. No bytes where they run past the tray's end.
pub fn directory(tray: &[u8]) -> &[u8]
    ensures { result.now ≡ directory tray.now }
{
    part_of(tray, TRAY_HEADER, ENTRY_WIDTH * entry_count(tray))
}

// The word at `at` of entry `i` of a directory; 0 where there is no such entry.
fn entry_word(directory: &[u8], i: usize, at: usize) -> u32
    requires { at + 4 ≤ entry_width }
    ensures { result ≡ word_of directory.now i at }
{
    if i < directory.len() / ENTRY_WIDTH {
        word(directory, ENTRY_WIDTH * i + at)
    } else {
        0
    }
}

// The sender of entry `i` of a directory; 0 where there is no such entry. It and `entry_place` are two columns; with the column as a parameter they would
// say no more.
pub fn entry_sender(directory: &[u8], i: usize) -> u32
    ensures { result ≡ word_of directory.now i 0 }
{
    entry_word(directory, i, 0)
}

// Where the frame of entry `i` of a directory lies, offset and length in one word; 0 where there is no such entry.
pub fn entry_place(directory: &[u8], i: usize) -> u32
    ensures { result ≡ word_of directory.now i offset_at }
{
    entry_word(directory, i, OFFSET_AT)
}

// Whether the frames follow each other without a gap from the directory's end to the tray's end.
fn frames_follow(tray: &[u8], count: usize) -> bool
    requires { entry_at count ≤ length tray.now }
    ensures { result ≡ chained tray.now count 0 (entry_at count) }
{
    let mut end = TRAY_HEADER + ENTRY_WIDTH * count;
    for i in 0..count {
        let entry = TRAY_HEADER + ENTRY_WIDTH * i;
        if half(tray, entry + OFFSET_AT) != end {
            return false;
        }
        end += half(tray, entry + LENGTH_AT);
    }
    end == tray.len()
}

// Document 01's "well packed", for any bytes.
pub fn well_formed(tray: &[u8]) -> bool
    ensures { result ≡ well_formed tray.now }
{
    let count = entry_count(tray);
    (TRAY_HEADER <= tray.len()) & (tray.len() <= MAX_TRAY) & (count <= MAX_ENTRIES)
        && (half(tray, ZERO_AT) == 0) & (TRAY_HEADER + ENTRY_WIDTH * count <= tray.len())
        && frames_follow(tray, count)
}

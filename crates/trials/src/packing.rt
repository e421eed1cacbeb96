// Frames on their way, and the tray that brings them, laid out as document 01, "Trays", has it.
ghost use Rattle.std.specs.Prelude.{◌≡◌, ◌+◌, ◌*◌, ◌≤◌, ◌<◌, length};

use wire::limits::{ENTRIES_AT, ENTRY_WIDTH, LENGTH_AT, MAX_FRAME, OFFSET_AT, TRAY_HEADER};

// The most frames of a tray.
const MOST: usize = 3;

// Room for a tray of three frames: 8 + 3 * 8 + 3 * 264 bytes.
pub(crate) const TRAY_ROOM: usize = 824;

// A frame on its way: the `len` first bytes. As a `Vec` it would have to be cloned for each receiver, and each clone could fail.
#[derive(Clone, Copy)]
pub(crate) struct Packet {
    pub sender: u32,
    pub len: usize,
    pub bytes: [u8; MAX_FRAME],
}

// A tray under way, in an array as document 01 has the printer's: the directory has its place and `placed` of its entries, and the frames put so far end at
// `len`.
#[derive(Clone, Copy)]
pub(crate) struct Tray {
    pub len: usize,
    pub placed: usize,
    pub bytes: [u8; TRAY_ROOM],
}

// Stores a field's bytes at `at`.
fn put<const N: usize>(bytes: &mut [u8], at: usize, field: [u8; N])
    requires { at + N ≤ length bytes.old }
{
    bytes[at..at + N].copy_from_slice(&field);
}

// A tray of a round with room for a directory of `entries`.
fn empty_tray(round: u32, entries: usize) -> Tray
    requires { entries ≤ MOST }
    ensures len { result.len ≤ 32 }
    ensures placed { result.placed ≡ 0 }
{
    let mut bytes = [0; TRAY_ROOM];
    put(&mut bytes, 0, round.to_be_bytes());
    put(&mut bytes, ENTRIES_AT, (entries as u16).to_be_bytes());
    Tray {
        len: TRAY_HEADER + ENTRY_WIDTH * entries,
        placed: 0,
        bytes,
    }
}

// Puts a frame into a tray. No frame is longer than what the cut leaves.
fn add(tray: &mut Tray, packet: Packet)
    requires placed { tray.old.placed < MOST }
    requires room { tray.old.len + MAX_FRAME ≤ TRAY_ROOM }
    ensures len { tray.new.len ≤ tray.old.len + MAX_FRAME }
    ensures placed { tray.new.placed ≤ tray.old.placed + 1 }
{
    let offset = tray.len;
    let len = packet.len.min(MAX_FRAME);
    let entry = TRAY_HEADER + ENTRY_WIDTH * tray.placed;
    put(&mut tray.bytes, entry, packet.sender.to_be_bytes());
    put(
        &mut tray.bytes,
        entry + OFFSET_AT,
        (offset as u16).to_be_bytes(),
    );
    put(
        &mut tray.bytes,
        entry + LENGTH_AT,
        (len as u16).to_be_bytes(),
    );
    tray.bytes[offset..offset + len].copy_from_slice(&packet.bytes[..len]);
    tray.len += len;
    tray.placed += 1;
}

// The tray of a round, with those of three frames that there are.
pub(crate) fn pack(round: u32, packets: [Option<Packet>; MOST]) -> Tray
    ensures { result.len ≤ TRAY_ROOM }
{
    let entries = packets.iter().filter(|packet| packet.is_some()).count();
    let mut tray = empty_tray(round, entries);
    for packet in &packets {
        if let Some(packet) = packet {
            add(&mut tray, *packet);
        }
    }
    tray
}

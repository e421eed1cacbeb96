// Document 01's session printer: a number and a bit from standard input, then trays, and a line of output for each call made with them.
#![tactic(auto)]

ghost use Rattle.std.specs.Prelude.{◌≤◌, length, IfOk};

use controller::calls::{start, tray};
use controller::state::{Answer, State};
use std::io;
use std::io::ErrorKind;
use wire::frame::{bit_said, kind_said};
use wire::limits::MAX_TRAY;
use wire::read::{number_count, read_frame};
use wire::tray::part_of;

// What was sent is read from the bytes that the call wrote. By the calls' contracts they are never void.
fn print_frame(rt: &impl Print, bytes: &[u8], round: u32) -> io::Result<()> {
    match read_frame(bytes, round) {
        Ok(frame) => {
            let kind = kind_said(frame.said);
            let bit = bit_said(frame.said);
            print!(rt; "{} {kind} {bit} {}", frame.round, number_count(bytes))
        }
        Err(_) => print!(rt; "void"),
    }
}

fn print_state(rt: &impl Print, state: State) -> io::Result<()> {
    let heard = state.heard.len;
    let candidates = state.candidates.len;
    println!(rt; " {heard} {candidates} {} {}", state.king, state.decision)
}

// A call's line. A call that sends nothing has kind 0 and bit 2.
fn print_call(rt: &impl Print, answer: Answer, frame: &[u8; 264]) -> io::Result<()> {
    let state = answer.state;
    if answer.refusal != 0 {
        return println!(rt; "refused {}", answer.refusal);
    }
    if answer.length == 0 {
        print!(rt; "{} 0 2 0", state.round)?;
    } else {
        print_frame(rt, part_of(frame, 0, answer.length), state.round)?;
    }
    print_state(rt, state)
}

// The input ended within a tray, or within its length: the session ends.
fn cut(rt: &impl Print) -> io::Result<Option<State>> {
    println!(rt; "cut")?;
    Ok(None)
}

// Works a tray, and gives the state that the next one is handed over with.
fn hand_over(rt: &impl Print, state: State, bytes: &[u8]) -> io::Result<Option<State>> {
    let mut frame = [0; 264];
    let answer = tray(state, bytes, &mut frame);
    print_call(rt, answer, &frame)?;
    Ok(Some(answer.state))
}

// Reads until `bytes` is full or the input ends, and answers how many bytes there were. A read that a signal cuts short is made again. A proved loop has to
// end, and nothing says that the signals do: so the loop has more turns than any run uses up.
fn read_full(input: &mut impl io::Read, bytes: &mut [u8]) -> io::Result<usize>
    ensures { IfOk result (λ n. n ≤ length bytes.new) }
{
    let mut done = 0;
    for _ in 0..u64::MAX {
        if done == bytes.len() {
            break;
        }
        match input.read(&mut bytes[done..]) {
            Ok(0) => break,
            Ok(n) => done += n,
            Err(e) => {
                if e.kind() != ErrorKind::Interrupted {
                    return Err(e);
                }
            }
        }
    }
    Ok(done)
}

fn tray_of(
    rt: &impl Print,
    input: &mut impl io::Read,
    state: State,
    len: usize,
) -> io::Result<Option<State>>
    requires { len ≤ MAX_TRAY }
{
    let mut room = [0; 65535];
    let bytes = &mut room[..len];
    let got = read_full(input, bytes)?;
    if got < len {
        cut(rt)
    } else {
        hand_over(rt, state, bytes)
    }
}

// The state after the next tray, if there is one. The only place where the input may end is before the first byte of a tray's length.
fn next_tray(
    rt: &impl Print,
    input: &mut impl io::Read,
    state: State,
) -> io::Result<Option<State>> {
    let mut size = [0; 4];
    match read_full(input, &mut size)? {
        0 => return Ok(None),
        1..4 => return cut(rt),
        _ => {}
    }
    let len = u32::from_be_bytes(size) as usize;
    if len <= MAX_TRAY {
        tray_of(rt, input, state, len)
    } else {
        println!(rt; "long")?;
        Ok(None)
    }
}

// Nothing says that the input ends, so this loop too has more turns than any run uses up.
fn trays(rt: &impl Print, input: &mut impl io::Read, first: State) -> io::Result<()> {
    let mut state = first;
    for _ in 0..u64::MAX {
        let Some(next) = next_tray(rt, input, state)? else {
            break;
        };
        state = next;
    }
    Ok(())
}

fn session(rt: &impl Print, input: &mut impl io::Read, number: u32, bit: u8) -> io::Result<()> {
    let mut frame = [0; 264];
    let answer = start(number, bit, &mut frame);
    print_call(rt, answer, &frame)?;
    if answer.refusal == 0 {
        trays(rt, input, answer.state)?;
    }
    Ok(())
}

fn main(rt: HostRuntime) -> io::Result<()> {
    println!(rt; "round kind bit echoes heard candidates king decision")?;
    let mut input = rt.stdin();
    let mut given = [0; 5];
    let got = read_full(&mut input, &mut given)?;
    if got < 5 {
        return println!(rt; "cut");
    }
    let [a, b, c, d, bit] = given;
    session(&rt, &mut input, u32::from_be_bytes([a, b, c, d]), bit)
}

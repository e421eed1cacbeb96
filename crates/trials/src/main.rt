// The trial of document 01 that has no star, and the same network under other faults: 3 is faulty, 5, 7 and 9 are correct. They run the real
// calls, and their frames are carried from call to call. What is printed comes from the states that the calls return.
#![tactic(auto)]

mod faulty;
mod packing;
mod report;

use controller::calls::{start, tray};
use controller::state::{Answer, State};
use faulty::{Fault, sent_to};
use packing::{Packet, pack};
use report::{print_change, print_input, print_outcome, print_refusal};
use std::io;
use wire::limits::{MAX_FRAME, NO_BIT};

// A correct controller between two rounds: the state that its last call returned, and the frame that this call wrote, if any.
#[derive(Clone, Copy)]
struct Node {
    state: State,
    sent: Option<Packet>,
}

// The correct controllers 5, 7 and 9.
#[derive(Clone, Copy)]
struct Network {
    five: Node,
    seven: Node,
    nine: Node,
}

// A controller with what a call returned and wrote: a call that sends nothing has length 0.
fn node_after(number: u32, answer: Answer, bytes: [u8; MAX_FRAME]) -> Node {
    let sent = Packet {
        sender: number,
        len: answer.length,
        bytes,
    };
    Node {
        state: answer.state,
        sent: (answer.length != 0).then_some(sent),
    }
}

fn start_one(rt: &impl Print, number: u32, bit: u8) -> io::Result<Node> {
    let mut bytes = [0; MAX_FRAME];
    let answer = start(number, bit, &mut bytes);
    print_refusal(rt, number, answer.refusal)?;
    print_input(rt, answer.state)?;
    Ok(node_after(number, answer, bytes))
}

// The bits differ, so that what 3 says can turn the scale.
fn start_all(rt: &impl Print) -> io::Result<Network> {
    Ok(Network {
        five: start_one(rt, 5, 0)?,
        seven: start_one(rt, 7, 1)?,
        nine: start_one(rt, 9, 1)?,
    })
}

// One controller's call: its tray of a round holds what the two others sent, and what 3 sends to it. One that has decided gets no more trays.
fn step_one(
    rt: &impl Print,
    node: Node,
    others: [Option<Packet>; 2],
    round: u32,
    fault: Fault,
) -> io::Result<Node> {
    let was = node.state;
    if was.decision != NO_BIT {
        return Ok(node);
    }
    let [one, other] = others;
    let given = pack(round, [one, other, sent_to(fault, round, was.own)]);
    let mut bytes = [0; MAX_FRAME];
    let answer = tray(was, &given.bytes[..given.len], &mut bytes);
    print_refusal(rt, was.own, answer.refusal)?;
    print_change(rt, was, answer.state)?;
    Ok(node_after(was.own, answer, bytes))
}

// All three work their trays of a round, each made of the frames that were sent in it.
fn step_all(rt: &impl Print, was: Network, round: u32, fault: Fault) -> io::Result<Network> {
    let Network { five, seven, nine } = was;
    Ok(Network {
        five: step_one(rt, five, [seven.sent, nine.sent], round, fault)?,
        seven: step_one(rt, seven, [five.sent, nine.sent], round, fault)?,
        nine: step_one(rt, nine, [five.sent, seven.sent], round, fault)?,
    })
}

// A network of four has decided by round 15, document 01's 3 + 3n.
fn play(rt: &impl Print, fault: Fault) -> io::Result<()> {
    let mut now = start_all(rt)?;
    for round in 1..15 {
        now = step_all(rt, now, round, fault)?;
    }
    print_outcome(rt, now.five.state, now.seven.state, now.nine.state)
}

fn main(rt: HostRuntime) -> io::Result<()> {
    println!(rt;
        "last trial of document 01: 3 sends init to 5 and 7, then these a void frame and 9 a roster that lists just 3, then nothing"
    )?;
    play(&rt, Fault::Trial)?;
    println!(rt; "\nsilence: 3 sends nothing")?;
    play(&rt, Fault::Silence)?;
    println!(rt; "\ntwo faces: 3 joins, then tells each another value and another proposal")?;
    play(&rt, Fault::Equivocation)?;
    println!(rt; "\nlying king: 3 joins, then tells each another opinion")?;
    play(&rt, Fault::King)?;
    println!(rt; "\nvoid frames: 3 sends bytes that are no frame, in every round")?;
    play(&rt, Fault::Void)?;
    println!(rt;
        "\ndivision: 3 lists itself to just so many that 5 alone has it as a candidate, and stops last"
    )?;
    play(&rt, Fault::Division)
}

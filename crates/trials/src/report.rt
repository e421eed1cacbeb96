// What is printed of the states that the calls return.
use controller::state::State;
use std::io;
use wire::frame::{Numbers, kind_of};
use wire::limits::{NO_BIT, VALUE};

// Each number after a space. No list has more than its 64 places in use.
fn print_numbers(rt: &impl Print, numbers: Numbers) -> io::Result<()> {
    for number in numbers.at.iter().take(numbers.len) {
        print!(rt; " {number}")?;
    }
    Ok(())
}

pub(crate) fn print_input(rt: &impl Print, state: State) -> io::Result<()> {
    println!(rt; "start: {} brings {}", state.own, state.bit)
}

// No call of a run that keeps document 01's conditions is refused: a line here is a fault.
pub(crate) fn print_refusal(rt: &impl Print, number: u32, refusal: u8) -> io::Result<()> {
    if refusal != 0 {
        println!(rt; "refusal {refusal} by {number}")?;
    }
    Ok(())
}

// The value round of phase r is 3 + 3r.
fn phase_of(round: u32) -> u32 {
    (round / 3).saturating_sub(1)
}

fn print_phase(rt: &impl Print, state: State) -> io::Result<()> {
    let phase = phase_of(state.round);
    print!(rt;
        "phase {phase}: {} with bit {} names {}, candidates",
        state.own, state.bit, state.king
    )?;
    print_numbers(rt, state.candidates)?;
    println!(rt; "")
}

fn print_decision(rt: &impl Print, state: State) -> io::Result<()> {
    println!(rt;
        "round {}: {} decides {}",
        state.round, state.own, state.decision
    )
}

// What a call changed: the decision; else, where a phase begins, its king.
pub(crate) fn print_change(rt: &impl Print, was: State, now: State) -> io::Result<()> {
    if now.decision != was.decision {
        print_decision(rt, now)?;
    } else if now.decision == NO_BIT && kind_of(now.round) == VALUE {
        print_phase(rt, now)?;
    }
    Ok(())
}

pub(crate) fn print_outcome(rt: &impl Print, a: State, b: State, c: State) -> io::Result<()> {
    if a.decision == NO_BIT {
        println!(rt; "no decision")
    } else if a.decision != b.decision || a.decision != c.decision {
        println!(rt; "the decisions differ")
    } else {
        println!(rt; "common decision {}", a.decision)
    }
}

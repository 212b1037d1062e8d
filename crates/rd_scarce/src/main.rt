//! Runs of the debugger in which a growth can be refused: whoever starts it has one allocation fail
//! (`ci/refused`), and each run shows that the refusal has changed nothing. Page: `docs/GATE.md`.
#![tactic(auto)]

mod aim;
mod applications;
mod attending;
mod before;
mod calls;
mod hall;
mod interrupted;
mod moves;
mod order;
mod refused;
mod replaying;
mod rows;
mod searching;
mod sitting;
mod told;
mod wrong;

use crate::applications::Which;
use crate::hall::{Sitting, sit};
use crate::interrupted::INTERRUPTED;
use crate::moves::{TWICE, go_both_ways};
use crate::order::{ROOM, RunKind, RunOrder, read_text};
use crate::refused::Refusals;
use crate::searching::{Sought, search};
use crate::wrong::Wrong;
use std::alloc::{AllocGlobal, Global};
use std::process::ExitCode;
use std::sync::Wait;

// Makes so many allocations, and drops them.
fn waste(alloc: Global, count: usize) {
    for _ in 0..count {
        let _: Result<Vec<u8>, _> = Vec::with_capacity(alloc, 1);
    }
}

// Does a run: at its end so many entries are in the history, so many moves are done, or a search
// keeps so many places.
fn run<H: Wait + AllocGlobal>(
    rt: &H,
    run: RunKind,
    refused: &mut Refusals,
) -> Result<usize, Wrong> {
    match run {
        RunKind::Hall => sit(rt, rt.alloc(), Sitting::Alone, refused),
        RunKind::Wheel => sit(rt, rt.alloc(), Sitting::Both, refused),
        RunKind::Session => sit(rt, rt.alloc(), Sitting::Session, refused),
        RunKind::Timeline => go_both_ways(rt.alloc(), Which::Twice, &TWICE, refused),
        RunKind::Interrupts => go_both_ways(rt.alloc(), Which::Interrupted, &INTERRUPTED, refused),
        RunKind::Search => search(rt.alloc(), Sought::Failure, refused),
        RunKind::Orders => search(rt.alloc(), Sought::End, refused),
    }
}

// Does what is ordered, and says how it ended. Answers whether all was as it must be.
fn obey<H: Wait + AllocGlobal + Print>(rt: &H, order: RunOrder) -> bool {
    let mut refused = Refusals::none();
    waste(rt.alloc(), order.wasted);
    let ended = run(rt, order.run, &mut refused);
    let _ = match ended {
        Ok(end) => println!(rt; "{}: {end} at the end, {refused}", order.run),
        Err(wrong) => println!(rt; "{}: wrong: {wrong}, {refused}", order.run),
    };
    ended.is_ok()
}

// Does all that is ordered, a line each. Answers whether all was as it must be.
fn obey_all<H: Wait + AllocGlobal + Print>(rt: &H, text: &str) -> bool {
    let mut all_well = true;
    for line in text.lines() {
        all_well = match RunOrder::read(line) {
            Some(order) => obey(rt, order) && all_well,
            None => false,
        };
    }
    all_well
}

fn main(rt: HostRuntime) -> ExitCode {
    let mut room = [0; ROOM];
    let all_well = match read_text(&mut rt.stdin(), &mut room) {
        Some(text) => obey_all(&rt, text),
        None => false,
    };
    ExitCode::from(if all_well { 0 } else { 1 })
}

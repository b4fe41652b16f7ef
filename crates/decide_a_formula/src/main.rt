// Two formulas decided: the first program to read for whoever builds on these crates.
//
// A text becomes a problem (`ml_front::read`), which is decided (`ml_decide::decide`): a structure with a state at which the
// formula holds, a refutation, or the cause for which it stays undecided. What is right of each, the contracts say.
#![tactic(auto)]

use ml_decide::{Cause, Decision, Way, decide};
use ml_front::{Logic, read};
use ml_kripke::{Model, write_model};
use std::io::{self, Write};

// Each call opens the door, and some call comes; then each call also comes in a fire, which keeps the door shut.
const MET: &[u8] = b"G(call -> F open) & F call";

const UNMET: &[u8] = b"G(call -> F open) & F(call & G fire) & G(fire -> !open)";

// how many positions a decision game may have
const LIMIT: u32 = 50_000;

fn main(rt: HostRuntime) -> io::Result<()> {
    answer(&rt, Logic::Word, MET)?;
    answer(&rt, Logic::Word, UNMET)
}

fn answer(rt: &HostRuntime, logic: Logic, text: &[u8]) -> io::Result<()> {
    match read(rt.alloc(), logic, text) {
        Ok(problem) => match decide(rt.alloc(), &problem, Way::Search, LIMIT) {
            Ok(decision) => tell(rt, &decision),
            Err(refusal) => println!(rt; "{refusal}"),
        },
        Err(refusal) => println!(rt; "refused: {refusal}"),
    }
}

fn tell(rt: &HostRuntime, decision: &Decision) -> io::Result<()> {
    match decision {
        Decision::Satisfiable(model) => tell_model(rt, model),
        Decision::Unsatisfiable(refutation) => {
            println!(rt;
                "holds nowhere, by a refutation of {} entries",
                refutation.entries.len()
            )
        }
        Decision::Undecided(Cause::Positions(limit)) => println!(rt;
            "the game has more than {limit} positions"
        ),
        Decision::Undecided(Cause::Closure) => println!(rt; "the closure is too large"),
    }
}

fn tell_model(rt: &HostRuntime, model: &Model) -> io::Result<()> {
    println!(rt; "holds at the start of the structure")?;
    match write_model(rt.alloc(), model) {
        Ok(text) => rt.stdout().write_all(&text),
        Err(refusal) => println!(rt; "{refusal}"),
    }
}

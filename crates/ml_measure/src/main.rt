// Measurements of the calls whose time matters, on games, graphs and histories that are made up. Whole decisions are
// measured by the program itself: `mlsolver bench`.
//
// Words: the name of a measurement (`Measurement`) and its size, as `games 1000000`, and behind them `times` if times are
// wanted; or `small` alone, which makes each measurement once at a small size. Without `times` only counts are printed,
// which are the same in each run, so that a run can be measured from outside. A time is given in milliseconds, and as a
// multiple of the time that it takes here to read the input once.
//
// Below stands `ml_tests`, whose generators it takes, and the crates that are measured; nothing stands above it.
#![tactic(auto)]

mod counts;
mod failure;
mod forms;
mod measure;

use crate::failure::Failure;
use crate::measure::{Measurement, measure, measure_small};
use std::alloc::AllocGlobal;
use std::env::{self, Env};

/// What the words ask for: a measurement, its size, and whether times are wanted.
#[derive(Clone, Copy)]
struct Wish {
    measurement: Measurement,
    size: u32,
    is_timed: bool,
}

/// What the words behind the program's name ask for; none for `small`.
fn wished(rt: &(impl Env + AllocGlobal)) -> Result<Option<Wish>, Failure> {
    let mut words = env::args(rt)?.skip(1);
    let name = words.next().ok_or(Failure::Words)?;
    if name.as_str() == "small" {
        return Ok(None);
    }
    let measurement = Measurement::named(name.as_str()).ok_or(Failure::Words)?;
    let size = words.next().ok_or(Failure::Words)?;
    let size = size.as_str().parse().map_err(|_| Failure::Words)?;
    let is_timed = words.next().is_some();
    Ok(Some(Wish {
        measurement,
        size,
        is_timed,
    }))
}

fn main(rt: HostRuntime) -> Result<(), Failure> {
    match wished(&rt)? {
        None => measure_small(&rt),
        Some(wish) => measure(&rt, wish.measurement, wish.size, wish.is_timed),
    }
}

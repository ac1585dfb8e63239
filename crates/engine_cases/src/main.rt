//! Bounded search and induction play on small systems of flags and of numbers, with one property each. The systems stand
//! in `data/systems` and the plays in `data/plays.cases`, one a line.

#![tactic(auto)]

mod entries;
mod plays;
mod ready;
mod rows;
mod sleeper;
mod systems;
mod teacher;
mod terms;

use anyhow::Result;
use plays::line;
use rows::case_of;
use std::fs;
use systems::systems_of;

fn main(rt: HostRuntime) -> Result<()> {
    let text = fs::read_to_string(&rt, "systems")?;
    let systems = systems_of(rt.alloc(), text.as_str())?;
    let cases = fs::read_to_string(&rt, "plays.cases")?;
    for case in cases.lines() {
        let line = line(rt.alloc(), &systems, case_of(case)?)?;
        println!(rt; "{line}")?;
    }
    Ok(())
}

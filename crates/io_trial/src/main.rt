//! Runs the shelves and sinks of kind_io over rows worked by hand, and prints what each call
//! answered: in memory, with calls that fail by their number; over the system's files and standard
//! output; over a reader and a writer that fail; and from callers that are generic over both.
#![tactic(auto)]

mod callers;
mod generic;
mod memory;
mod system;
mod trickle;
mod words;

use anyhow::Result;

fn main(rt: HostRuntime) -> Result<()> {
    let alloc = rt.alloc();
    let mut out = String::new(alloc);
    memory::shelves(alloc, &mut out)?;
    memory::sinks(alloc, &mut out)?;
    callers::served(alloc, &mut out)?;
    trickle::writes(&mut out)?;
    trickle::reads(alloc, &mut out)?;
    print!(rt; "{out}")?;
    system::files(rt)?;
    system::output(rt)?;
    Ok(())
}

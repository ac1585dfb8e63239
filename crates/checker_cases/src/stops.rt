//! Copies of a start and of a stop.

use kind_num::{Op, Past};
use proof_steps::{PastStep, Start, Stop};
use std::alloc::{AllocError, Global};

fn start(alloc: Global) -> Result<Start, AllocError> {
    Ok(Start {
        basis: vec![in alloc; 2]?,
        bounds: vec![in alloc; (0, true, 3)]?,
        places: vec![in alloc; (0, 3), (1, 0)]?,
        pivots: 9,
    })
}

fn stop(alloc: Global) -> Result<Stop, AllocError> {
    let step = PastStep {
        rows: vec![in alloc; vec![in alloc; (0, 1), (2, -1)]?]?,
        past: Past {
            op: Op::Mul,
            left: i128::MAX,
            right: 2,
        },
    };
    Ok(Stop::Past(step, vec![in alloc; (1, 4)]?))
}

/// What the copies hold.
pub fn copies(alloc: Global) -> Result<String, AllocError> {
    let start = start(alloc)?.copied(alloc)?;
    let (places, pivots) = (start.places.as_slice(), start.pivots);
    match stop(alloc)?.copied(alloc)? {
        Stop::Past(step, splits) => {
            let (rows, past, splits) = (step.rows.len(), step.past, splits.as_slice());
            format!(in alloc;
                "places {places:?}, {pivots} pivots; {rows} row, {past:?}, splits {splits:?}"
            )
        }
        _ => String::from_str(alloc, "another stop"),
    }
}

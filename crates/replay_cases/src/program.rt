//! The program of a file.

use contract_reader::read_program;
use lus_checked::{Checked, checked};
use lus_clocks::clocks;
use lus_types::types;
use source_laws::laws::grammatical_sources;
use std::alloc::{AllocError, Global};

/// The program of a source that follows the rules.
pub fn source(alloc: Global, bytes: &[u8]) -> Result<Option<Checked>, AllocError> {
    if bytes.len() > 1_048_576 {
        return Ok(None);
    }
    grammatical_sources();
    let Ok(program) = read_program(alloc, bytes) else {
        return Ok(None);
    };
    let Ok(typed) = types(alloc, program) else {
        return Ok(None);
    };
    let Ok(clocked) = clocks(alloc, typed) else {
        return Ok(None);
    };
    Ok(checked(alloc, clocked, None).ok())
}

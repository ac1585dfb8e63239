//! The orders of declarations.

use lus_checked::Checked;
use std::alloc::{AllocError, Global};

/// Adds numbers.
pub fn push_numbers(alloc: Global, text: &mut String, numbers: &[u32]) -> Result<(), AllocError> {
    text.push_str(" |")?;
    for number in numbers {
        let item = format!(in alloc; " {number}")?;
        text.push_str(item.as_str())?;
    }
    Ok(())
}

/// The number of the main node, and the orders of all declarations with parts.
pub fn orders_text(alloc: Global, program: &Checked) -> Result<String, AllocError> {
    let main = program.main();
    let mut text = format!(in alloc; "main {main}")?;
    for number in 0..program.parts() {
        push_numbers(alloc, &mut text, program.order(number))?;
    }
    Ok(text)
}

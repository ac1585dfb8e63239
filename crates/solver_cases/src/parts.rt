//! The parts of a case, one behind the other.

/// The part before a semicolon and a blank, and what stands behind them.
pub fn cut(case: &str) -> (&str, &str) {
    case.split_once("; ").unwrap_or((case, ""))
}

/// The parts between semicolons, as many as any case has; those that a case hasn't are empty.
pub fn parts(case: &str) -> [&str; 6] {
    let mut parts = [""; 6];
    for (place, part) in case.split("; ").enumerate() {
        if place < 6 {
            parts[place] = part;
        }
    }
    parts
}

/// A number, 0 where the word is none.
pub fn number(word: &str) -> u32 {
    word.parse().unwrap_or(0)
}

/// A number of 128 bits, 0 where the word is none.
pub fn long_number(word: &str) -> i128 {
    word.parse().unwrap_or(0)
}

//! Cuts a source into tokens: names, numbers, texts, and the words and signs of Lustre, each with
//! its span, its place and its class. Blanks and comments are left out.
#![tactic(auto)]

mod cursor;
pub mod laws;
mod lexeme;
mod lexer;
mod name;
mod scan;
mod spelling;
mod table;
mod token;

pub use cursor::end;
pub use lexer::{first_fault, tokens};
pub use name::is_name;
pub use token::{Annotation, Class, Closing, Keyword, LeftOut, Opening, Sign, Token};

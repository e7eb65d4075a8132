// Expressions out of tokens.
pub use parser::expressions::{Parsed, both_plain, read_term};

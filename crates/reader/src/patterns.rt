// What is a pattern.
pub use lexer::patterns::{Meant, Scan, byte_at, is_pattern};

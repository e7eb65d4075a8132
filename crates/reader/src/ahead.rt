// Which names, signs and patterns stand where.
pub use lexer::ahead::{is_sign, name_at, pattern_at};

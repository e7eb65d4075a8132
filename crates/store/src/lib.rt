// Texts, however they are kept.
#![tactic(auto)]

pub mod bytes;
pub mod cells;
pub mod copying;
pub mod decimal;
pub mod lent;
pub mod packed;
pub mod place;
pub mod short;
pub mod texts;
pub mod writing;

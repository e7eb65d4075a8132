// Cuts a program's text into tokens, which stand in the first cells of a lent work area, and says which names, signs and patterns stand where.
#![tactic(auto)]

pub mod ahead;
pub mod cells;
pub mod patterns;
pub mod tokens;

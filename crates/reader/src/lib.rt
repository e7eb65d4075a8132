// Reads a program's text: tokens, patterns and expressions, as nodes in a lent work area. Statements and whole programs are to come.
#![tactic(auto)]

pub mod ahead;
pub mod cells;
pub mod expressions;
pub mod frames;
pub mod nodes;
pub mod patterns;
pub mod tokens;

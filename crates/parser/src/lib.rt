// Reads expressions out of tokens, as nodes in the lent work area. Statements and whole programs are to come.
#![tactic(auto)]

pub mod expressions;
pub mod frames;
pub mod nodes;

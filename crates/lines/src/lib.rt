// Lines: how they come out of the bytes that come, how they are cut into fields, and how a program changes them.
//
// What is done with a line, an input or a cut are functions that take the memory first and not methods: the memory is what they work on, and the line says
// where in it. Callers know them by these names.
#![tactic(auto)]

pub mod building;
pub mod cutting;
pub mod input;
pub mod laws;
pub mod line;

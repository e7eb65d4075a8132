// What is begun and waits while an expression is read.
pub use parser::frames::{Frame, Spot, Turn, frame_at, push};

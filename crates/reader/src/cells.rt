// Cells of the work area.
pub use lexer::cells::{CELLS, Cell, WORDS, Work, load, store};

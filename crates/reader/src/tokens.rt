// A program's text as tokens.
pub use lexer::tokens::{
    AND, AT_LEAST, AT_MOST, Class, EQUAL, Keyword, Name, OR, Piece, Token, UNEQUAL, UNLIKE, cut,
    peek, spells,
};

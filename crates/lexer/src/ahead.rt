// What stands at a place among the tokens. The area, the count and the place are no struct: these are public functions, and their signatures stay.
ghost use Rattle.std.specs.Prelude.{◌≡◌, ℕ, List};
ghost use Rattle.language.specs.Program.{sees};
ghost use Rattle.lexer.specs.Marks.{TokensIn};
ghost use Rattle.lexer.specs.Places.{toks, Ready};
ghost use Rattle.lexer.specs.Ahead.{NameRead, PatternRead};

use crate::cells::Work;
use crate::patterns::is_pattern;
use crate::tokens::{Name, Token, peek};

// Whether this sign is there.
pub fn is_sign(work: &Work, count: usize, place: usize, c: u8) -> bool
    ensures { (bs : List ℕ) → TokensIn bs work.now count → result ≡ sees c (toks bs place) }
{
    peek(work, count, place) == Some(Token::Sign(c))
}

// The name that is there, if there is one.
pub fn name_at(work: &Work, count: usize, place: usize) -> Option<Name>
    ensures { (bs : List ℕ) → TokensIn bs work.now count → NameRead bs place result }
{
    match peek(work, count, place)? {
        Token::Name(x) => Some(x),
        _ => None,
    }
}

// The pattern that is there, by where its bytes begin, if there is one.
pub fn pattern_at(text: &[u8], work: &Work, count: usize, place: usize) -> Option<usize>
    requires { Ready text.now work.now count }
    ensures { PatternRead text.now place result }
{
    match peek(work, count, place)? {
        Token::Quoted(start) if is_pattern(text, start) => Some(start),
        _ => None,
    }
}

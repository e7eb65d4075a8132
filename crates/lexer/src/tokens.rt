// Cuts a program's text into tokens, one to a cell.
ghost use Rattle.std.specs.Prelude.{◌≡◌, ℕ, ◌+◌, ◌<◌, ◌≤◌, true, List, length, drop, slice_index, slice_range};
ghost use Rattle.language.specs.Text.{or, same, digit, leading};
ghost use Rattle.language.specs.Program.{letter, word_part, past_line, word, cut_up};
ghost use Rattle.lexer.specs.Ends.{SignIs, QuoteEnded};
ghost use Rattle.lexer.specs.Classes.{class_of};
ghost use Rattle.lexer.specs.Marks.{spelled, KeywordIs, BuiltInIs, TokenSays, Seen, PieceSays, token_of, keyword_at, TokensIn};
ghost use Rattle.lexer.specs.declared.tokens.Class.TheVariants.{Digit, Quote, Other};

use crate::cells::{Cell, Work, load, store};
use crate::patterns::byte_at;

// A name in the text: where it begins, and how many bytes it has.
#[derive(Clone, Copy, PartialEq, Eq)]
pub struct Name {
    pub start: usize,
    pub len: usize,
}

impl Name {
    // A name that stands in two words of a cell.
    pub fn at(start: u64, len: u64) -> Name
        ensures { result ≡ record { start = start; len = len } }
    {
        Name {
            start: start as usize,
            len: len as usize,
        }
    }
}

// The reserved words.
#[derive(Clone, Copy, PartialEq, Eq)]
pub enum Keyword {
    Begin,
    End,
    Function,
    If,
    Else,
    While,
    For,
    In,
    Print,
    Next,
    Exit,
    Delete,
    Return,
    Length,
    Upper,
    Index,
    Substr,
    Split,
    Swap,
}

#[derive(Clone, Copy, PartialEq, Eq)]
pub enum Token {
    Name(Name),
    Keyword(Keyword),
    Number(u64),
    // A quoted text, by where its bytes begin.
    Quoted(usize),
    // A sign by its number, of one byte that byte. Numbers of the specification stand in cells and `is_sign` takes any; an enum would want their table both ways.
    Sign(u8),
    Bad,
}

// The signs of two bytes, by the numbers that the specification gives them: == != <= >= && || !~.
pub const EQUAL: u8 = 1;

pub const UNEQUAL: u8 = 2;

pub const AT_MOST: u8 = 3;

pub const AT_LEAST: u8 = 4;

pub const AND: u8 = 5;

pub const OR: u8 = 6;

pub const UNLIKE: u8 = 7;

// Whether a byte can stand in a word.
fn in_word(c: u8) -> bool
    ensures { result ≡ or (letter c) (digit c) }
{
    c.is_ascii_alphanumeric() || c == b'_'
}

// Where the word ends that begins at `from`.
fn past_word(text: &[u8], from: usize) -> usize
    requires { from ≤ length text.now }
    ensures is { result ≡ from + length (word_part (drop from text.now)) }
    ensures inside { result ≤ length text.now }
{
    from + text[from..].iter().take_while(|c| in_word(**c)).count()
}

// The sign that a byte begins with another behind it, if they make one: of two bytes, or its byte.
fn sign(c: u8, behind: u8) -> Option<u8>
    ensures { SignIs c behind result }
{
    match (c, behind) {
        (b'=', b'=') => Some(EQUAL),
        (b'!', b'=') => Some(UNEQUAL),
        (b'<', b'=') => Some(AT_MOST),
        (b'>', b'=') => Some(AT_LEAST),
        (b'&', b'&') => Some(AND),
        (b'|', b'|') => Some(OR),
        (b'!', b'~') => Some(UNLIKE),
        (
            b'!'
            | b'$'
            | b'%'
            | b'('..=b'-'
            | b'/'
            | b';'..=b'>'
            | b'['
            | b']'
            | b'{'
            | b'}'
            | b'~',
            _,
        ) => Some(c),
        _ => None,
    }
}

// Where the line ends that `from` stands in: behind its byte 10, or at the end of the text.
fn past_line(text: &[u8], from: usize) -> usize
    requires { from ≤ length text.now }
    ensures is { drop result text.now ≡ past_line (drop from text.now) }
    ensures onward { from ≤ result }
    ensures inside { result ≤ length text.now }
{
    match text[from..].iter().position(|c| *c == b'\n') {
        Some(before) => from + before + 1,
        None => text.len(),
    }
}

// Where the quoted text ends whose bytes begin at `from`: behind its closing quote, if it has one. A loop: how far a step goes is said by what stands there.
fn past_quote(text: &[u8], from: usize) -> Option<usize>
    requires { from ≤ length text.now }
    ensures { QuoteEnded text.now from result }
{
    let mut i = from;
    while let Some(c) = byte_at(text, i) {
        i = c.next;
    }
    if i < text.len() { Some(i + 1) } else { None }
}

// What a byte begins.
#[derive(Clone, Copy)]
pub enum Class {
    Gap,
    Comment,
    Letter,
    Digit,
    Quote,
    Other,
}

// What begins with this byte. By a name of its own and not `From<u8>`: that would say of bytes in general what is so only of a token's first.
fn begins(c: u8) -> Class
    ensures { result ≡ class_of c }
{
    match c {
        b' ' | b'\n' | b'\t' => Class::Gap,
        b'#' => Class::Comment,
        b'a'..=b'z' | b'A'..=b'Z' | b'_' => Class::Letter,
        b'0'..=b'9' => Class::Digit,
        b'"' => Class::Quote,
        _ => Class::Other,
    }
}

// The number that digits write, of which there are at most 18. A loop: how many came, by which the number fits, is not seen by what `fold` calls.
fn value(digits: &[u8]) -> u64
    requires few { length digits.now ≤ 18 }
    requires digits { (k : ℕ) → k < length digits.now → digit (slice_index digits.now k) ≡ true }
    ensures { result ≡ leading 0 digits.now }
{
    let mut n: u64 = 0;
    for c in digits {
        n = 10 * n + u64::from(*c - b'0');
    }
    n
}

// Whether a word is spelled like another. A loop: with a constant it ends at the first byte that differs, where == reads all of them.
pub fn spells(word: &[u8], with: &[u8]) -> bool
    ensures { result ≡ same word.now with.now }
{
    if word.len() != with.len() {
        return false;
    }
    for i in 0..word.len() {
        if word[i] != with[i] {
            return false;
        }
    }
    true
}

impl Keyword {
    // All of them, each at its number.
    const ALL: [Keyword; 19] = [
        Keyword::Begin,
        Keyword::End,
        Keyword::Function,
        Keyword::If,
        Keyword::Else,
        Keyword::While,
        Keyword::For,
        Keyword::In,
        Keyword::Print,
        Keyword::Next,
        Keyword::Exit,
        Keyword::Delete,
        Keyword::Return,
        Keyword::Length,
        Keyword::Upper,
        Keyword::Index,
        Keyword::Substr,
        Keyword::Split,
        Keyword::Swap,
    ];
}

// Which function that is built in a word names, if it does.
#[tactic(auto, using(crate::proofs::Spelling::spelled_same), unfolding(crate::specs::Marks::spelled))]
fn built_in(word: &[u8]) -> Option<Keyword>
    ensures { BuiltInIs word.now result }
{
    if spells(word, b"length") {
        Some(Keyword::Length)
    } else if spells(word, b"upper") {
        Some(Keyword::Upper)
    } else if spells(word, b"index") {
        Some(Keyword::Index)
    } else if spells(word, b"substr") {
        Some(Keyword::Substr)
    } else if spells(word, b"split") {
        Some(Keyword::Split)
    } else if spells(word, b"swap") {
        Some(Keyword::Swap)
    } else {
        None
    }
}

// Which reserved word a word is, if it is one. A chain: each word is compared with a constant, which costs much less than a search in a table.
#[tactic(auto, using(crate::proofs::Spelling::spelled_same), unfolding(crate::specs::Marks::spelled))]
fn reserved(word: &[u8]) -> Option<Keyword>
    ensures { KeywordIs word.now result }
{
    if spells(word, b"BEGIN") {
        Some(Keyword::Begin)
    } else if spells(word, b"END") {
        Some(Keyword::End)
    } else if spells(word, b"function") {
        Some(Keyword::Function)
    } else if spells(word, b"if") {
        Some(Keyword::If)
    } else if spells(word, b"else") {
        Some(Keyword::Else)
    } else if spells(word, b"while") {
        Some(Keyword::While)
    } else if spells(word, b"for") {
        Some(Keyword::For)
    } else if spells(word, b"in") {
        Some(Keyword::In)
    } else if spells(word, b"print") {
        Some(Keyword::Print)
    } else if spells(word, b"next") {
        Some(Keyword::Next)
    } else if spells(word, b"exit") {
        Some(Keyword::Exit)
    } else if spells(word, b"delete") {
        Some(Keyword::Delete)
    } else if spells(word, b"return") {
        Some(Keyword::Return)
    } else {
        built_in(word)
    }
}

// What stands at a place of the text, and where it ends; what does not count is no token.
#[derive(Clone, Copy)]
pub struct Piece {
    pub token: Option<Token>,
    pub end: usize,
}

// The token of a word.
fn word_token(text: &[u8], from: usize, to: usize) -> Token
    requires { (from ≤ to) × (to ≤ length text.now) }
    ensures { TokenSays text.now result (word (slice_range text.now from to)) }
{
    match reserved(&text[from..to]) {
        Some(k) => Token::Keyword(k),
        None => Token::Name(Name {
            start: from,
            len: to - from,
        }),
    }
}

// The number at a place of the text; with more than 18 digits it is no token of the language.
fn number_piece(text: &[u8], i: usize) -> Piece
    requires inside { i < length text.now }
    requires class { class_of (slice_index text.now i) ≡ Digit }
    ensures { PieceSays text.now i result }
{
    let digits = text[i..].iter().take_while(|c| c.is_ascii_digit()).count();
    if digits <= 18 {
        Piece {
            token: Some(Token::Number(value(&text[i..i + digits]))),
            end: i + digits,
        }
    } else {
        bad_piece(text)
    }
}

// The quoted text at a place of the text; without a closing quote it is no token of the language.
fn quote_piece(text: &[u8], i: usize) -> Piece
    requires inside { i < length text.now }
    requires class { class_of (slice_index text.now i) ≡ Quote }
    ensures { PieceSays text.now i result }
{
    match past_quote(text, i + 1) {
        Some(end) => Piece {
            token: Some(Token::Quoted(i + 1)),
            end,
        },
        None => bad_piece(text),
    }
}

// The sign at a place of the text. Those of two bytes have the numbers up to `UNLIKE`: a length beside the number would say the same once more.
fn sign_piece(text: &[u8], i: usize) -> Piece
    requires inside { i < length text.now }
    requires class { class_of (slice_index text.now i) ≡ Other }
    ensures { PieceSays text.now i result }
{
    let behind = text.get(i + 1).copied().unwrap_or(0);
    match sign(text[i], behind) {
        Some(s) => Piece {
            token: Some(Token::Sign(s)),
            end: if s <= UNLIKE { i + 2 } else { i + 1 },
        },
        None => bad_piece(text),
    }
}

// What is no token of the language; behind it nothing is read.
fn bad_piece(text: &[u8]) -> Piece
    ensures { result ≡ record { token = Some Token.Bad; end = length text.now } }
{
    Piece {
        token: Some(Token::Bad),
        end: text.len(),
    }
}

fn piece_at(text: &[u8], i: usize) -> Piece
    requires { i < length text.now }
    ensures { PieceSays text.now i result }
{
    match begins(text[i]) {
        Class::Gap => Piece {
            token: None,
            end: i + 1,
        },
        Class::Comment => Piece {
            token: None,
            end: past_line(text, i + 1),
        },
        Class::Letter => {
            let end = past_word(text, i + 1);
            Piece {
                token: Some(word_token(text, i, end)),
                end,
            }
        }
        Class::Digit => number_piece(text, i),
        Class::Quote => quote_piece(text, i),
        Class::Other => sign_piece(text, i),
    }
}

// Kinds of cells that hold tokens. They are numbers: the area is lent and made of words, and only the two `From` below write and read them.
const NAME: u64 = 1;

const KEYWORD: u64 = 2;

const NUMBER: u64 = 3;

const QUOTED: u64 = 4;

const SIGN: u64 = 5;

impl From<Keyword> for u64 {
    ghost from_gives = { λ k n. keyword_at n ≡ k };

    fn from(k: Keyword) -> u64 {
        k as u64
    }
}

// Any other number is the last word: no number may fail, since the area may hold anything and `keyword_at` of the specification answers all.
impl From<u64> for Keyword {
    ghost from_gives = { λ n k. k ≡ keyword_at n };

    fn from(n: u64) -> Keyword {
        match Keyword::ALL.get(n as usize) {
            Some(k) => *k,
            None => Keyword::Swap,
        }
    }
}

impl From<Token> for Cell {
    ghost from_gives = { λ t c. token_of c ≡ t };

    #[tactic(auto, unfolding(crate::specs::Marks::token_of))]
    fn from(token: Token) -> Cell {
        match token {
            Token::Name(x) => Cell::new(NAME, [x.start as u64, x.len as u64, 0, 0]),
            Token::Keyword(k) => Cell::new(KEYWORD, [u64::from(k), 0, 0, 0]),
            Token::Number(n) => Cell::new(NUMBER, [n, 0, 0, 0]),
            Token::Quoted(start) => Cell::new(QUOTED, [start as u64, 0, 0, 0]),
            Token::Sign(d) => Cell::new(SIGN, [u64::from(d), 0, 0, 0]),
            Token::Bad => Cell::default(),
        }
    }
}

impl From<Cell> for Token {
    ghost from_gives = { λ c t. t ≡ token_of c };

    #[tactic(auto, unfolding(crate::specs::Marks::token_of))]
    fn from(c: Cell) -> Token {
        match c.kind {
            NAME => Token::Name(Name::at(c.first, c.second)),
            KEYWORD => Token::Keyword(Keyword::from(c.first)),
            NUMBER => Token::Number(c.first),
            QUOTED => Token::Quoted(c.first as usize),
            SIGN => Token::Sign((c.first % 256) as u8),
            _ => Token::Bad,
        }
    }
}

// Cuts a program's text into tokens, in the first cells, and says how many they are. A loop: each piece says where the next begins,
// and an iterator would be a type for this one use.
pub fn cut(text: &[u8], work: &mut Work) -> usize
    requires { length text.now ≤ 4096 }
    ensures { TokensIn text.now work.new result }
{
    let mut i = 0;
    let mut count = 0;
    while i < text.len() {
        let piece = piece_at(text, i);
        if let Some(token) = piece.token {
            store(work, count, Cell::from(token));
            count += 1;
        }
        i = piece.end;
    }
    count
}

// The token at a place, if there are so many.
pub fn peek(work: &Work, count: usize, place: usize) -> Option<Token>
    ensures { (bs : List ℕ) → TokensIn bs work.now count → Seen bs result (drop place (cut_up bs)) }
{
    (place < count).then(|| Token::from(load(work, place)))
}

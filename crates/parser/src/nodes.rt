// Expressions as nodes, a cell each: the area is lent and fixed, without a heap, so parts are named by numbers and not held in boxes. A node stands behind
// its parts and is never changed, so what is represented stays so.
ghost use Rattle.std.specs.Prelude.{◌≡◌, ◌<◌, length, ◌==◌};
ghost use Rattle.lexer.specs.Memory.{cell, Stored};
ghost use Rattle.parser.specs.Nodes.{operator_of, prefix_of, term_of, list_of, bit, Made, Listed, a_place};

use lexer::cells::{Cell, Work, load, store};
use lexer::tokens::Name;

// What stands before an operand, or is built in with one.
#[derive(Clone, Copy)]
pub enum Prefix {
    // !a
    Not,
    // -a
    Negative,
    // length(a)
    Length,
    // upper(a)
    Upper,
}

// What joins two operands.
#[derive(Clone, Copy)]
pub enum Operator {
    // a || b
    Or,
    // a && b
    And,
    // a == b
    Equal,
    // a != b
    Unequal,
    // a < b
    Less,
    // a <= b
    AtMost,
    // a + b
    Plus,
    // a - b
    Minus,
    // a * b
    Times,
    // a / b
    Over,
    // a % b
    Rest,
    // a b
    Join,
    // index(a, b)
    Index,
    // a > b
    More,
    // a >= b
    AtLeast,
}

// A node of an expression. Its parts are the numbers of their nodes; a text or a pattern is where its bytes begin in the program's text.
#[derive(Clone, Copy)]
pub enum TermNode {
    Number(u64),
    // A quoted text.
    Text(usize),
    Variable(Name),
    // t[k]
    Item(Name, usize),
    // $n
    Field(usize),
    Unary(Prefix, usize),
    Binary(Operator, usize, usize),
    // a ~ "p"
    Like(usize, usize),
    // k in t
    There(usize, Name),
    // a = b
    Assign(usize, usize),
    // f(..), with the list of its arguments
    Call(Name, usize),
    // substr(a, i, n)
    Part(usize, usize, usize),
    // split(a, t, "p")
    Split(usize, Name, usize),
    // swap("p", a, b)
    Swap(usize, usize, usize),
}

// A list of expressions, from its end: none, or those before and the last.
#[derive(Clone, Copy)]
pub enum ListNode {
    Empty,
    More(usize, usize),
}

impl From<Operator> for u64 {
    ghost from_gives = { λ o n. operator_of n ≡ o };

    fn from(o: Operator) -> u64 {
        o as u64
    }
}

// Any other number is the last one: none may fail, since the area may hold anything and `operator_of` answers all. A
// table of all, which a keyword is read by, would be as long as the arms and serve nothing else, and impls by a macro of the repository's own are refused.
impl From<u64> for Operator {
    ghost from_gives = { λ n o. o ≡ operator_of n };

    fn from(n: u64) -> Operator {
        match n {
            0 => Operator::Or,
            1 => Operator::And,
            2 => Operator::Equal,
            3 => Operator::Unequal,
            4 => Operator::Less,
            5 => Operator::AtMost,
            6 => Operator::Plus,
            7 => Operator::Minus,
            8 => Operator::Times,
            9 => Operator::Over,
            10 => Operator::Rest,
            11 => Operator::Join,
            12 => Operator::Index,
            13 => Operator::More,
            _ => Operator::AtLeast,
        }
    }
}

impl From<Prefix> for u64 {
    ghost from_gives = { λ p n. prefix_of n ≡ p };

    fn from(p: Prefix) -> u64 {
        p as u64
    }
}

// Any other number is the last one.
impl From<u64> for Prefix {
    ghost from_gives = { λ n p. p ≡ prefix_of n };

    fn from(n: u64) -> Prefix {
        match n {
            0 => Prefix::Not,
            1 => Prefix::Negative,
            2 => Prefix::Length,
            _ => Prefix::Upper,
        }
    }
}

// Kinds of cells that hold expressions and lists of them. They are numbers: the area is lent and made of words, and only the `From` below write and read them.
const NUMBER: u64 = 10;

const TEXT: u64 = 11;

const VARIABLE: u64 = 12;

const ITEM: u64 = 13;

const FIELD: u64 = 14;

const UNARY: u64 = 15;

const BINARY: u64 = 16;

const LIKE: u64 = 17;

const THERE: u64 = 18;

const ASSIGN: u64 = 19;

const CALL: u64 = 20;

const PART: u64 = 21;

const SPLIT: u64 = 22;

const SWAP: u64 = 23;

const EMPTY: u64 = 30;

const MORE: u64 = 31;

impl From<TermNode> for Cell {
    ghost from_gives = { λ x c. term_of c ≡ x };

    #[tactic(auto, unfolding(crate::specs::Nodes::term_of))]
    fn from(node: TermNode) -> Cell {
        match node {
            TermNode::Number(a) => Cell::new(NUMBER, [a, 0, 0, 0]),
            TermNode::Text(a) => Cell::new(TEXT, [a as u64, 0, 0, 0]),
            TermNode::Variable(a) => Cell::new(VARIABLE, [a.start as u64, a.len as u64, 0, 0]),
            TermNode::Item(a, b) => Cell::new(ITEM, [a.start as u64, a.len as u64, b as u64, 0]),
            TermNode::Field(a) => Cell::new(FIELD, [a as u64, 0, 0, 0]),
            TermNode::Unary(a, b) => Cell::new(UNARY, [u64::from(a), b as u64, 0, 0]),
            TermNode::Binary(a, b, c) => Cell::new(BINARY, [u64::from(a), b as u64, c as u64, 0]),
            TermNode::Like(a, b) => Cell::new(LIKE, [a as u64, b as u64, 0, 0]),
            TermNode::There(a, b) => Cell::new(THERE, [a as u64, b.start as u64, b.len as u64, 0]),
            TermNode::Assign(a, b) => Cell::new(ASSIGN, [a as u64, b as u64, 0, 0]),
            TermNode::Call(a, b) => Cell::new(CALL, [a.start as u64, a.len as u64, b as u64, 0]),
            TermNode::Part(a, b, c) => Cell::new(PART, [a as u64, b as u64, c as u64, 0]),
            TermNode::Split(a, b, c) => Cell::new(
                SPLIT,
                [a as u64, b.start as u64, b.len as u64, c as u64],
            ),
            TermNode::Swap(a, b, c) => Cell::new(SWAP, [a as u64, b as u64, c as u64, 0]),
        }
    }
}

impl From<Cell> for TermNode {
    ghost from_gives = { λ c x. x ≡ term_of c };

    #[tactic(auto, unfolding(crate::specs::Nodes::term_of))]
    fn from(c: Cell) -> TermNode {
        match c.kind {
            TEXT => TermNode::Text(c.first as usize),
            VARIABLE => TermNode::Variable(Name::at(c.first, c.second)),
            ITEM => TermNode::Item(Name::at(c.first, c.second), c.third as usize),
            FIELD => TermNode::Field(c.first as usize),
            UNARY => TermNode::Unary(Prefix::from(c.first), c.second as usize),
            BINARY => TermNode::Binary(
                Operator::from(c.first),
                c.second as usize,
                c.third as usize,
            ),
            LIKE => TermNode::Like(c.first as usize, c.second as usize),
            THERE => TermNode::There(c.first as usize, Name::at(c.second, c.third)),
            ASSIGN => TermNode::Assign(c.first as usize, c.second as usize),
            CALL => TermNode::Call(Name::at(c.first, c.second), c.third as usize),
            PART => TermNode::Part(c.first as usize, c.second as usize, c.third as usize),
            SPLIT => TermNode::Split(
                c.first as usize,
                Name::at(c.second, c.third),
                c.fourth as usize,
            ),
            SWAP => TermNode::Swap(c.first as usize, c.second as usize, c.third as usize),
            _ => TermNode::Number(c.first),
        }
    }
}

impl From<ListNode> for Cell {
    ghost from_gives = { λ x c. list_of c ≡ x };

    #[tactic(auto, unfolding(crate::specs::Nodes::list_of))]
    fn from(node: ListNode) -> Cell {
        match node {
            ListNode::Empty => Cell::new(EMPTY, [0; 4]),
            ListNode::More(before, last) => Cell::new(MORE, [before as u64, last as u64, 0, 0]),
        }
    }
}

impl From<Cell> for ListNode {
    ghost from_gives = { λ c x. x ≡ list_of c };

    #[tactic(auto, unfolding(crate::specs::Nodes::list_of))]
    fn from(c: Cell) -> ListNode {
        match c.kind {
            MORE => ListNode::More(c.first as usize, c.second as usize),
            _ => ListNode::Empty,
        }
    }
}

// Writes a cell with its flag, which says whether all of what it holds is of the core.
fn put(work: &mut Work, i: usize, c: Cell, plain: bool)
    requires { i < 25600 }
    ensures { Stored work.old work.new i (record c { flag = bit plain }) }
{
    store(
        work,
        i,
        Cell {
            flag: u64::from(plain),
            ..c
        },
    );
}

// Writes a node of an expression; the flag says whether all of it is of the core. The length is promised besides the type, as by `push`. That lists have
// functions of their own is no plainer otherwise: what is written is said by two records, `Made` and `Listed`, for which one function would want a trait just
// for them.
pub fn put_term(work: &mut Work, i: usize, node: TermNode, plain: bool)
    requires { i < 25600 }
    ensures made { Made work.old work.new i node plain }
    ensures long { length work.new ≡ 179200 }
{
    put(work, i, Cell::from(node), plain);
}

// A node of an expression.
pub fn term(work: &Work, i: usize) -> TermNode
    ensures { result ≡ term_of (cell work.now i) }
{
    TermNode::from(load(work, i))
}

// Whether a node and all of its parts are of the core.
pub fn is_plain(work: &Work, i: usize) -> bool
    ensures { result ≡ ((cell work.now i).flag == 1) }
{
    load(work, i).flag == 1
}

// Whether a node is a place, which can be assigned to.
pub fn is_place(work: &Work, i: usize) -> bool
    ensures { result ≡ a_place (term_of (cell work.now i)) }
{
    matches!(
        term(work, i),
        TermNode::Variable(_) | TermNode::Item(_, _) | TermNode::Field(_)
    )
}

// Writes a list; the flag says whether all of it is of the core.
pub fn put_list(work: &mut Work, i: usize, node: ListNode, plain: bool)
    requires { i < 25600 }
    ensures listed { Listed work.old work.new i node plain }
    ensures long { length work.new ≡ 179200 }
{
    put(work, i, Cell::from(node), plain);
}

// A list of expressions.
pub fn list(work: &Work, i: usize) -> ListNode
    ensures { result ≡ list_of (cell work.now i) }
{
    ListNode::from(load(work, i))
}

// Reads an expression by precedence, with a stack of its own: nothing here may recurse on the machine's stack, so a loop goes from turn to turn.
ghost use Rattle.std.specs.Prelude.{◌≡◌, ℕ, suc, ◌+◌, ◌<◌, ◌≤◌, true, false, not, ◌&&◌, ◌∷◌, ◌==◌, nat_le};
ghost use Rattle.language.specs.Program.{sign, word, rest, sees, w_swap};
ghost use Rattle.lexer.specs.Memory.{cell};
ghost use Rattle.lexer.specs.Marks.{spelled};
ghost use Rattle.parser.specs.Nodes.{operator_number, prefix_number, Made, Listed};
ghost use Rattle.lexer.specs.Places.{toks, Ready};
ghost use Rattle.parser.specs.Single.{Ready-prop};
ghost use Rattle.parser.specs.Frames.{Room, Grown, Pushed, Closing, Parting, OnTop};
ghost use Rattle.parser.specs.declared.frames.Frame.TheVariants.{Infix, Group, SplitFirst, Arguments, SwapSecond};
ghost use Rattle.language.specs.Text.{pick};
ghost use Rattle.lexer.specs.Ahead.{NameHere, CallHere};
ghost use Rattle.parser.specs.Parsing.{Start, TermRead, Paid};
ghost use Rattle.parser.specs.Precedence.{level_at, operator_at, low_at, Binds, LikeSign};

use crate::frames::{Frame, Spot, Turn, frame_at, push};
use crate::nodes::{ListNode, Operator, Prefix, TermNode, is_place, is_plain, put_list, put_term};
use lexer::ahead::{is_sign, name_at, pattern_at};
use lexer::cells::Work;
use lexer::tokens::{
    AND, AT_LEAST, AT_MOST, EQUAL, Keyword, Name, OR, Token, UNEQUAL, UNLIKE, peek,
};

// Levels at which what follows an operand binds to it, the loosest first; a comma or a bracket does at none. They are numbers, no enum: a frame keeps one in a
// cell and by their order it goes on or ends, so a contract would have to take the number of each at every comparison.
const NONE: u64 = 0;

const SETTING: u64 = 1;

const EITHER: u64 = 2;

const BOTH: u64 = 3;

const MATCHING: u64 = 4;

const COMPARING: u64 = 5;

const JOINING: u64 = 6;

const ADDING: u64 = 7;

const MULTIPLYING: u64 = 8;

// The level of operands and of signs before them, to which everything may bind.
const TIGHTEST: u64 = MULTIPLYING;

// The level at which what follows an operand binds to it: from 1 for =, which wants a place, to 8 for * / %; 0 if it does not.
fn level(token: Token, place: bool) -> u64
    ensures { result ≡ level_at token place }
{
    match token {
        Token::Sign(b'=') => u64::from(place),
        Token::Sign(OR) => EITHER,
        Token::Sign(AND) => BOTH,
        Token::Sign(b'~' | UNLIKE) | Token::Keyword(Keyword::In) => MATCHING,
        Token::Sign(EQUAL | UNEQUAL | AT_MOST | AT_LEAST | b'<' | b'>') => COMPARING,
        Token::Sign(b'$' | b'(' | b'!') | Token::Name(_) | Token::Number(_) | Token::Quoted(_) =>
            JOINING,
        Token::Keyword(
            Keyword::Length
            | Keyword::Upper
            | Keyword::Index
            | Keyword::Substr
            | Keyword::Split
            | Keyword::Swap,
        ) => JOINING,
        Token::Sign(b'+' | b'-') => ADDING,
        Token::Sign(b'*' | b'/' | b'%') => MULTIPLYING,
        _ => NONE,
    }
}

// The operator that a token is; what is none joins.
fn operator(token: Token) -> Operator
    ensures { result ≡ operator_at token }
{
    match token {
        Token::Sign(OR) => Operator::Or,
        Token::Sign(AND) => Operator::And,
        Token::Sign(EQUAL) => Operator::Equal,
        Token::Sign(UNEQUAL) => Operator::Unequal,
        Token::Sign(b'<') => Operator::Less,
        Token::Sign(AT_MOST) => Operator::AtMost,
        Token::Sign(b'>') => Operator::More,
        Token::Sign(AT_LEAST) => Operator::AtLeast,
        Token::Sign(b'+') => Operator::Plus,
        Token::Sign(b'-') => Operator::Minus,
        Token::Sign(b'*') => Operator::Times,
        Token::Sign(b'/') => Operator::Over,
        Token::Sign(b'%') => Operator::Rest,
        _ => Operator::Join,
    }
}

// Up to which level what follows may bind, once both sides of an operator are there: a comparison has two sides only.
fn high_of(level: u64) -> u64
    ensures { result ≡ pick (level == 5) 4 level }
{
    match level {
        COMPARING => MATCHING,
        _ => level,
    }
}

// Whether two nodes are of the core.
pub fn both_plain(work: &Work, a: usize, b: usize) -> bool
    ensures { result ≡ ((cell work.now a).flag == 1 && (cell work.now b).flag == 1) }
{
    is_plain(work, a) && is_plain(work, b)
}

// What reads expressions: a text, the area in which its tokens are, and how many they are. Where it stands is bounded at the methods that add to it: `Spot` and
// `frame_at` are public, and an invariant or a narrower type would ask more of callers.
#[derive(Drop)]
struct Reader<'a> {
    text: &'a [u8],
    work: &'a mut Work,
    count: usize,
    ghost ready: { Ready text.now work.now count } by { Ready-prop text.now work.now count },
}

impl<'a> Reader<'a> {
    ghost use Rattle.parser.specs.Readers.{Same, Begins, Follows, Finishes};

    // Whether this sign is there.
    fn is_sign(&self, place: usize, c: u8) -> bool
        ensures { result ≡ sees c (toks self.now.text.now place) }
    {
        is_sign(self.work, self.count, place, c)
    }

    // Writes a node of an expression behind the tokens.
    fn put_term(&mut self, i: usize, node: TermNode, plain: bool)
        requires low { 8448 ≤ i }
        requires room { i < 25600 }
        ensures made { Made self.old.work.now self.new.work.now i node plain }
        ensures same { Same self.old self.new }
    {
        put_term(self.work, i, node, plain);
    }

    // Writes a list behind the tokens.
    fn put_list(&mut self, i: usize, node: ListNode, plain: bool)
        requires low { 8448 ≤ i }
        requires room { i < 25600 }
        ensures listed { Listed self.old.work.now self.new.work.now i node plain }
        ensures same { Same self.old self.new }
    {
        put_list(self.work, i, node, plain);
    }

    // Pushes a frame and goes on to an operand, behind so many tokens.
    fn push(&mut self, s: Spot, frame: Frame, eaten: usize) -> Turn
        requires depth { s.depth ≤ 4096 }
        requires place { s.place ≤ 4096 }
        requires eaten { eaten ≤ 4 }
        ensures pushed { Pushed self.old.work.now self.new.work.now s frame eaten result }
        ensures same { Same self.old self.new }
    {
        push(self.work, s, frame, eaten)
    }

    // Writes the node of an operand that is there, behind so many tokens; what follows may bind to it up to a level.
    fn make(&mut self, s: Spot, node: TermNode, plain: bool, eaten: usize, high: u64) -> Turn
        requires low { 8448 ≤ s.nodes }
        requires nodes { s.nodes < 25600 }
        requires place { s.place ≤ 4096 }
        requires eaten { eaten ≤ 4 }
        ensures grown { Grown self.old.work.now self.new.work.now s node plain eaten high result }
        ensures same { Same self.old self.new }
    {
        self.put_term(s.nodes, node, plain);
        Turn::After(
            Spot {
                place: s.place + eaten,
                nodes: s.nodes + 1,
                ..s
            },
            s.nodes,
            high,
        )
    }

    // The loosest level that may go on within what was begun last.
    fn low(&self, depth: usize) -> u64
        requires { depth ≤ 4096 }
        ensures { result ≡ low_at self.now.work.now depth }
    {
        if depth == 0 {
            return NONE;
        }
        match frame_at(self.work, depth - 1) {
            Frame::Infix(level, _, _) => level,
            Frame::Prefixed(_) | Frame::Dollar => TIGHTEST,
            _ => NONE,
        }
    }

    // Whether what binds at a level goes on here, behind an operand to which up to `high` may bind.
    fn binds(&self, depth: usize, level: u64, high: u64) -> bool
        requires { depth ≤ 4096 }
        ensures { result ≡ (nat_le (suc (low_at self.now.work.now depth)) level && nat_le level high) }
    {
        self.low(depth) < level && level <= high
    }

    // Whether an operator with these sides is of the core.
    fn infix_plain(&self, o: Operator, a: usize, b: usize) -> bool
        ensures { result ≡ (not (operator_number o == 12) && ((cell self.now.work.now a).flag == 1 && (cell self.now.work.now b).flag == 1)) }
    {
        match o {
            Operator::Index => false,
            _ => both_plain(self.work, a, b),
        }
    }

    // Whether what stands before an operand is of the core with it.
    fn prefix_plain(&self, p: Prefix, a: usize) -> bool
        ensures { result ≡ (nat_le (prefix_number p) 1 && (cell self.now.work.now a).flag == 1) }
    {
        match p {
            Prefix::Not | Prefix::Negative => is_plain(self.work, a),
            Prefix::Length | Prefix::Upper => false,
        }
    }

    // An operand that begins with a sign.
    fn begin_sign(&mut self, s: Spot, d: u8) -> Option<Turn>
        requires room { Room self.old.count s.nodes 0 s }
        requires here { toks self.old.text.now s.place ≡ sign d ∷ rest (toks self.old.text.now s.place) }
        ensures pays { Begins self.old self.new s result }
        ensures same { Same self.old self.new }
    {
        match d {
            b'!' => Some(self.push(s, Frame::Prefixed(Prefix::Not), 1)),
            b'-' => Some(self.push(s, Frame::Prefixed(Prefix::Negative), 1)),
            b'(' => Some(self.push(s, Frame::Group, 1)),
            b'$' => Some(self.push(s, Frame::Dollar, 1)),
            _ => None,
        }
    }

    // f( with its arguments, or f() with none.
    fn begin_call(&mut self, s: Spot, x: Name) -> Turn
        requires room { Room self.old.count s.nodes 0 s }
        requires here { CallHere self.old.text.now s.place x }
        ensures pays { Begins self.old self.new s (Some result) }
        ensures same { Same self.old self.new }
    {
        self.put_list(s.nodes, ListNode::Empty, true);
        let t = Spot {
            nodes: s.nodes + 1,
            ..s
        };
        if self.is_sign(s.place + 2, b')') {
            self.make(t, TermNode::Call(x, s.nodes), false, 3, TIGHTEST)
        } else {
            self.push(t, Frame::Arguments(x, s.nodes), 2)
        }
    }

    // An operand that begins with a name: an item, a call or a variable.
    fn begin_name(&mut self, s: Spot, x: Name) -> Turn
        requires room { Room self.old.count s.nodes 0 s }
        requires here { NameHere self.old.text.now s.place x }
        ensures pays { Begins self.old self.new s (Some result) }
        ensures same { Same self.old self.new }
    {
        if self.is_sign(s.place + 1, b'[') {
            self.push(s, Frame::Indexing(x), 2)
        } else if self.is_sign(s.place + 1, b'(') {
            self.begin_call(s, x)
        } else {
            self.make(s, TermNode::Variable(x), true, 1, TIGHTEST)
        }
    }

    // swap( with its pattern and the comma behind it.
    fn begin_swap(&mut self, s: Spot) -> Option<Turn>
        requires room { Room self.old.count s.nodes 0 s }
        requires here { toks self.old.text.now s.place ≡ word w_swap ∷ rest (toks self.old.text.now s.place) }
        requires opens { sees 40 (toks self.old.text.now (s.place + 1)) ≡ true }
        ensures pays { Begins self.old self.new s result }
        ensures same { Same self.old self.new }
    {
        let q = pattern_at(self.text, self.work, self.count, s.place + 2)?;
        if self.is_sign(s.place + 3, b',') {
            Some(self.push(s, Frame::SwapFirst(q), 4))
        } else {
            None
        }
    }

    // An operand that begins with a function that is built in; other reserved words begin none.
    fn begin_word(&mut self, s: Spot, k: Keyword) -> Option<Turn>
        requires room { Room self.old.count s.nodes 0 s }
        requires here { toks self.old.text.now s.place ≡ word (spelled k) ∷ rest (toks self.old.text.now s.place) }
        ensures pays { Begins self.old self.new s result }
        ensures same { Same self.old self.new }
    {
        if !self.is_sign(s.place + 1, b'(') {
            return None;
        }
        match k {
            Keyword::Length => Some(self.push(s, Frame::Measuring(Prefix::Length), 2)),
            Keyword::Upper => Some(self.push(s, Frame::Measuring(Prefix::Upper), 2)),
            Keyword::Index => Some(self.push(s, Frame::IndexFirst, 2)),
            Keyword::Substr => Some(self.push(s, Frame::PartFirst, 2)),
            Keyword::Split => Some(self.push(s, Frame::SplitFirst, 2)),
            Keyword::Swap => self.begin_swap(s),
            _ => None,
        }
    }

    // Begins to read an operand.
    fn begin(&mut self, s: Spot) -> Option<Turn>
        requires room { Room self.old.count s.nodes 0 s }
        ensures pays { Begins self.old self.new s result }
        ensures same { Same self.old self.new }
    {
        match peek(self.work, self.count, s.place)? {
            Token::Number(n) => Some(self.make(s, TermNode::Number(n), true, 1, TIGHTEST)),
            Token::Quoted(start) => Some(self.make(s, TermNode::Text(start), true, 1, TIGHTEST)),
            Token::Name(x) => Some(self.begin_name(s, x)),
            Token::Keyword(k) => self.begin_word(s, k),
            Token::Sign(d) => self.begin_sign(s, d),
            Token::Bad => None,
        }
    }

    // Behind ~ or !~ with a pattern; a !~ is a ~ that is negated.
    fn bind_like(&mut self, s: Spot, node: usize, negated: bool) -> Option<Turn>
        requires room { Room self.old.count s.nodes 1 s }
        requires here { LikeSign (toks self.old.text.now s.place) negated }
        ensures pays { (h : ℕ) (t : Token) → Binds self.old.text.now self.old.work.now s node h t 4 → Follows self.old self.new s node h result }
        ensures same { Same self.old self.new }
    {
        let q = pattern_at(self.text, self.work, self.count, s.place + 1)?;
        let like = TermNode::Like(node, q);
        if !negated {
            return Some(self.make(s, like, false, 2, BOTH));
        }
        self.put_term(s.nodes, like, false);
        let t = Spot {
            nodes: s.nodes + 1,
            ..s
        };
        Some(self.make(t, TermNode::Unary(Prefix::Not, s.nodes), false, 2, BOTH))
    }

    // Behind in with a table's name.
    fn bind_in(&mut self, s: Spot, node: usize) -> Option<Turn>
        requires room { Room self.old.count s.nodes 1 s }
        requires no_like { sees 126 (toks self.old.text.now s.place) ≡ false }
        requires no_unlike { sees 7 (toks self.old.text.now s.place) ≡ false }
        ensures pays { (h : ℕ) (t : Token) → Binds self.old.text.now self.old.work.now s node h t 4 → Follows self.old self.new s node h result }
        ensures same { Same self.old self.new }
    {
        let x = name_at(self.work, self.count, s.place + 1)?;
        Some(self.make(s, TermNode::There(node, x), false, 2, BOTH))
    }

    // Behind an operand, to which a token binds at a level.
    fn bind(&mut self, s: Spot, node: usize, token: Token, level: u64) -> Option<Turn>
        requires room { Room self.old.count s.nodes 1 s }
        ensures pays { (h : ℕ) → Binds self.old.text.now self.old.work.now s node h token level → Follows self.old self.new s node h result }
        ensures same { Same self.old self.new }
    {
        match level {
            SETTING => Some(self.push(s, Frame::Assigning(node), 1)),
            MATCHING => {
                if self.is_sign(s.place, b'~') {
                    self.bind_like(s, node, false)
                } else if self.is_sign(s.place, UNLIKE) {
                    self.bind_like(s, node, true)
                } else {
                    self.bind_in(s, node)
                }
            }
            JOINING => Some(self.push(s, Frame::Infix(level, Operator::Join, node), 0)),
            _ => Some(self.push(s, Frame::Infix(level, operator(token), node), 1)),
        }
    }

    // A node behind a closing sign; none of these is of the core.
    fn close(&mut self, s: Spot, c: u8, node: TermNode) -> Option<Turn>
        requires low { 8448 ≤ s.nodes }
        requires nodes { s.nodes < 25600 }
        requires place { s.place ≤ 4096 }
        ensures closes { Closing self.old.work.now self.new.work.now s node false result (sees c (toks self.old.text.now s.place)) }
        ensures same { Same self.old self.new }
    {
        if self.is_sign(s.place, c) {
            Some(self.make(s, node, false, 1, TIGHTEST))
        } else {
            None
        }
    }

    // A frame behind a comma.
    fn part(&mut self, s: Spot, frame: Frame) -> Option<Turn>
        requires depth { s.depth ≤ 4096 }
        requires place { s.place ≤ 4096 }
        ensures parts { Parting self.old.work.now self.new.work.now s frame result (sees 44 (toks self.old.text.now s.place)) }
        ensures same { Same self.old self.new }
    {
        if self.is_sign(s.place, b',') {
            Some(self.push(s, frame, 1))
        } else {
            None
        }
    }

    // Ends a bracket around an expression.
    fn finish_group(&self, s: Spot, node: usize) -> Option<Turn>
        requires room { Room self.now.count s.nodes 1 s }
        requires here { OnTop self.now.work.now s Group }
        ensures { Finishes self.now self.now s node result }
    {
        if !self.is_sign(s.place, b')') {
            return None;
        }
        let t = Spot {
            place: s.place + 1,
            depth: s.depth - 1,
            ..s
        };
        Some(Turn::After(t, node, TIGHTEST))
    }

    // Ends the first operand of split: the table's name, the pattern and the bracket follow.
    fn finish_split(&mut self, s: Spot, node: usize) -> Option<Turn>
        requires room { Room self.old.count s.nodes 1 s }
        requires here { OnTop self.old.work.now s SplitFirst }
        ensures pays { Finishes self.old self.new s node result }
        ensures same { Same self.old self.new }
    {
        if !self.is_sign(s.place, b',') {
            return None;
        }
        let x = name_at(self.work, self.count, s.place + 1)?;
        if !self.is_sign(s.place + 2, b',') {
            return None;
        }
        let q = pattern_at(self.text, self.work, self.count, s.place + 3)?;
        let t = Spot {
            place: s.place + 4,
            depth: s.depth - 1,
            ..s
        };
        self.close(t, b')', TermNode::Split(node, x, q))
    }

    // Ends an argument of a call: another one follows, or the bracket.
    fn finish_argument(&mut self, s: Spot, node: usize, x: Name, list: usize) -> Option<Turn>
        requires room { Room self.old.count s.nodes 1 s }
        requires here { OnTop self.old.work.now s (Arguments x list) }
        ensures pays { Finishes self.old self.new s node result }
        ensures same { Same self.old self.new }
    {
        let plain = both_plain(self.work, list, node);
        self.put_list(s.nodes, ListNode::More(list, node), plain);
        let t = Spot {
            depth: s.depth - 1,
            nodes: s.nodes + 1,
            ..s
        };
        if self.is_sign(s.place, b',') {
            Some(self.push(t, Frame::Arguments(x, s.nodes), 1))
        } else {
            self.close(t, b')', TermNode::Call(x, s.nodes))
        }
    }

    // Ends the last operand of swap, which has to be a place.
    fn finish_swap(&mut self, s: Spot, node: usize, q: usize, by: usize) -> Option<Turn>
        requires room { Room self.old.count s.nodes 1 s }
        requires here { OnTop self.old.work.now s (SwapSecond q by) }
        ensures pays { Finishes self.old self.new s node result }
        ensures same { Same self.old self.new }
    {
        if !is_place(self.work, node) {
            return None;
        }
        let t = Spot {
            depth: s.depth - 1,
            ..s
        };
        self.close(t, b')', TermNode::Swap(q, by, node))
    }

    // Ends the right side of an operator.
    fn finish_infix(&mut self, s: Spot, node: usize, level: u64, o: Operator, left: usize) -> Turn
        requires room { Room self.old.count s.nodes 1 s }
        requires here { OnTop self.old.work.now s (Infix level o left) }
        ensures pays { Finishes self.old self.new s node (Some result) }
        ensures same { Same self.old self.new }
    {
        let plain = self.infix_plain(o, left, node);
        let t = Spot {
            depth: s.depth - 1,
            ..s
        };
        self.make(t, TermNode::Binary(o, left, node), plain, 0, high_of(level))
    }

    // Ends what was begun last, with its operand.
    fn finish(&mut self, s: Spot, node: usize) -> Option<Turn>
        requires room { Room self.old.count s.nodes 1 s }
        ensures pays { Finishes self.old self.new s node result }
        ensures same { Same self.old self.new }
    {
        if s.depth == 0 {
            return Some(Turn::Done(s, node));
        }
        let t = Spot {
            depth: s.depth - 1,
            ..s
        };
        match frame_at(self.work, t.depth) {
            Frame::Infix(level, o, left) => Some(self.finish_infix(s, node, level, o, left)),
            Frame::Prefixed(p) => {
                let plain = self.prefix_plain(p, node);
                Some(self.make(t, TermNode::Unary(p, node), plain, 0, TIGHTEST))
            }
            Frame::Dollar => {
                let plain = is_plain(self.work, node);
                Some(self.make(t, TermNode::Field(node), plain, 0, TIGHTEST))
            }
            Frame::Assigning(left) => {
                let plain = both_plain(self.work, left, node);
                Some(self.make(t, TermNode::Assign(left, node), plain, 0, NONE))
            }
            Frame::Group => self.finish_group(s, node),
            Frame::Indexing(x) => self.close(t, b']', TermNode::Item(x, node)),
            Frame::Measuring(p) => self.close(t, b')', TermNode::Unary(p, node)),
            Frame::IndexFirst => self.part(t, Frame::IndexSecond(node)),
            Frame::IndexSecond(a) => self.close(
                t,
                b')',
                TermNode::Binary(Operator::Index, a, node),
            ),
            Frame::PartFirst => self.part(t, Frame::PartSecond(node)),
            Frame::PartSecond(a) => self.part(t, Frame::PartThird(a, node)),
            Frame::PartThird(a, b) => self.close(t, b')', TermNode::Part(a, b, node)),
            Frame::SplitFirst => self.finish_split(s, node),
            Frame::SwapFirst(q) => self.part(t, Frame::SwapSecond(q, node)),
            Frame::SwapSecond(q, by) => self.finish_swap(s, node, q, by),
            Frame::Arguments(x, list) => self.finish_argument(s, node, x, list),
        }
    }

    // Goes on behind an operand. It calls `finish` in one place: a second one keeps that from being inlined, and its answer goes through memory.
    fn go_on(&mut self, s: Spot, node: usize, high: u64) -> Option<Turn>
        requires room { Room self.old.count s.nodes 1 s }
        ensures pays { Follows self.old self.new s node high result }
        ensures same { Same self.old self.new }
    {
        if let Some(token) = peek(self.work, self.count, s.place) {
            let level = level(token, is_place(self.work, node));
            if self.binds(s.depth, level, high) {
                return self.bind(s, node, token, level);
            }
        }
        self.finish(s, node)
    }
}

// What was read: its node, the token behind it, and the first cell that is free then.
#[derive(Clone, Copy)]
pub struct Parsed {
    pub node: usize,
    pub place: usize,
    pub nodes: usize,
}

// Reads an expression from a place on, unless there is none. A match on a closed kind, in a loop. `Start` here and `Room` above are names of facts about a spot:
// bounds that a public function asks for, or that depend on where an operand began.
pub fn read_term(
    text: &[u8],
    work: &mut Work,
    count: usize,
    place: usize,
    nodes: usize,
) -> Option<Parsed>
    requires ready { Ready text.now work.old count }
    requires start { Start count place nodes }
    ensures read { TermRead text.now work.old work.new count place nodes result }
    ensures paid { Paid place nodes result }
{
    let mut reader = Reader { text, work, count };
    let mut turn = Turn::Operand(Spot {
        place,
        depth: 0,
        nodes,
    });
    loop {
        match turn {
            Turn::Operand(s) => turn = reader.begin(s)?,
            Turn::After(s, node, high) => turn = reader.go_on(s, node, high)?,
            Turn::Done(s, node) => return Some(Parsed {
                node,
                place: s.place,
                nodes: s.nodes,
            }),
        }
    }
}

// What is known of a text, token by token.
ghost use Rattle.std.specs.Prelude.{◌≡◌, ◌≤◌, None, Some, MatchResult};
ghost use Rattle.reader.specs.Inner.Progress.{after, allowed, between, breaks, defined_again, in_right, lacks, named_early, next_phase, nothing_read};
ghost use Rattle.reader.specs.Sorts.{is_node};
ghost use Rattle.tokens.specs.Lexing.{seen};

use super::fault::Rule;
use super::{MOST_DIGITS, MOST_GROUPS, MOST_NODES};
use arrayvec::ArrayVec;
use tokens::{Group, Token};

// What the grammar wants next.
#[derive(Clone, Copy, PartialEq, Eq, Debug)]
pub enum Phase {
    // a left capital: nothing is read yet
    Start,
    // a left capital or the end: whole equations are read
    Between,
    // the sign = behind a left capital
    Left,
    // a factor
    Operand,
    // what may stand behind a factor
    Operator,
}

impl Phase {
    // Whether the grammar allows the token, where `top` is the innermost group that is open.
    fn allows(self, top: Option<Group>, token: Token) -> bool
        ensures { result ≡ allowed self top (seen token.entry) }
    {
        match (self, token) {
            (Phase::Start | Phase::Between, Token::Capital(_)) => true,
            (Phase::Left, Token::Equals) => true,
            (
                Phase::Operand,
                Token::Number(_) | Token::Capital(_) | Token::Small(_) | Token::Open(_),
            ) => true,
            (Phase::Operator, Token::Plus | Token::Minus | Token::Star) => true,
            (Phase::Operator, Token::Semicolon) => top.is_none(),
            (Phase::Operator, Token::Close(group)) => top == Some(group),
            _ => false,
        }
    }

    // What the grammar wants behind a token that it allows.
    fn behind(self, token: Token) -> Phase
        ensures { result ≡ next_phase self (seen token.entry) }
    {
        match token {
            Token::Capital(_) if self.begins_equation() => Phase::Left,
            Token::Number(_) | Token::Capital(_) | Token::Small(_) | Token::Close(_) =>
                Phase::Operator,
            Token::Equals | Token::Plus | Token::Minus | Token::Star | Token::Open(_) =>
                Phase::Operand,
            Token::Semicolon => Phase::Between,
            Token::Stray(_) => self,
        }
    }

    fn begins_equation(self) -> bool
        ensures { result ≡ between self }
    {
        matches!(self, Phase::Start | Phase::Between)
    }

    fn in_right_side(self) -> bool
        ensures { result ≡ in_right self }
    {
        matches!(self, Phase::Operand | Phase::Operator)
    }
}

// Whether the token is a capital that is not among these letters.
pub(super) fn is_unknown(token: Token, defined: &[bool; 256]) -> bool
    ensures { result ≡ lacks defined.now (seen token.entry) }
{
    matches!(token, Token::Capital(letter) if !defined[usize::from(letter)])
}

// Whether a token of a right side is a node.
fn is_node(token: Token) -> bool
    ensures { result ≡ is_node (seen token.entry) }
{
    matches!(
        token,
        Token::Number(_)
            | Token::Capital(_)
            | Token::Small(_)
            | Token::Plus
            | Token::Minus
            | Token::Star
            | Token::Open(Group::Square)
    )
}

// What is read of a text so far.
#[derive(Drop)]
pub struct Progress {
    pub(super) phase: Phase,
    // the left capital of the equation that is being read
    left: Option<u8>,
    // the open groups, the innermost last
    enclosing: ArrayVec<Group, MOST_GROUPS>,
    pub(super) nodes: usize,
    // which letters have a whole equation, by their bytes: a set or a map of the library would need the heap
    pub(super) defined: [bool; 256],
}

impl Progress {
    pub(super) fn new() -> Progress
        ensures { result ≡ nothing_read }
    {
        Progress {
            phase: Phase::Start,
            left: None,
            enclosing: ArrayVec::new(),
            nodes: 0,
            defined: [false; 256],
        }
    }

    // Whether the token is a left capital that already has an equation.
    fn repeats(&self, token: Token) -> bool
        ensures { result ≡ defined_again self.now (seen token.entry) }
    {
        self.phase.begins_equation()
            && matches!(token, Token::Capital(letter) if self.defined[usize::from(letter)])
    }

    // Whether the token is a capital outside all square brackets whose equation is not read yet.
    fn names_early(&self, token: Token) -> bool
        ensures { result ≡ named_early self.now (seen token.entry) }
    {
        self.phase.in_right_side()
            && !self.enclosing.contains(&Group::Square)
            && is_unknown(token, &self.defined)
    }

    // The rule of lowest number that the token breaks, if it breaks one.
    fn check(&self, token: Token) -> Result<(), Rule>
        ensures { MatchResult result (λ _. breaks self.now (seen token.entry) ≡ None) (λ rule. breaks self.now (seen token.entry) ≡ Some rule) }
    {
        if matches!(token, Token::Stray(_)) {
            Err(Rule::NoToken)
        } else if matches!(token, Token::Number(digits) if digits.len() > MOST_DIGITS) {
            Err(Rule::LongNumber)
        } else if !self.phase.allows(self.enclosing.last().copied(), token) {
            Err(Rule::NotAllowed)
        } else if matches!(token, Token::Open(_)) && self.enclosing.is_full() {
            Err(Rule::TooDeep)
        } else if self.repeats(token) {
            Err(Rule::Repeated)
        } else if self.names_early(token) {
            Err(Rule::TooEarly)
        } else if is_node(token) && self.phase.in_right_side() && self.nodes == MOST_NODES {
            Err(Rule::TooManyNodes)
        } else {
            Ok(())
        }
    }

    // Reads a token that breaks no rule.
    fn take(&mut self, token: Token)
        requires few { self.old.nodes ≤ 64 }
        requires unbroken { breaks self.old (seen token) ≡ None }
        ensures { self.new ≡ after self.old (seen token.entry) }
    {
        match token {
            Token::Capital(letter) if self.phase.begins_equation() => self.left = Some(letter),
            Token::Open(group) => self.enclosing.push(group),
            Token::Close(_) => {
                self.enclosing.pop();
            }
            Token::Semicolon => if let Some(letter) = self.left.take() {
                self.defined[usize::from(letter)] = true;
            },
            _ => {}
        }
        if is_node(token) && self.phase.in_right_side() {
            self.nodes += 1;
        }
        self.phase = self.phase.behind(token);
    }

    // Reads a token; or, where it breaks a rule, answers the one of lowest number and leaves all as it was.
    pub(super) fn read(&mut self, token: Token) -> Result<(), Rule>
        requires { self.old.nodes ≤ 64 }
        ensures { MatchResult result
            (λ _. (breaks self.old (seen token.entry) ≡ None) × (self.new ≡ after self.old (seen token.entry)))
            (λ rule. (breaks self.old (seen token.entry) ≡ Some rule) × (self.new ≡ self.old)) }
    {
        self.check(token)?;
        self.take(token);
        Ok(())
    }
}

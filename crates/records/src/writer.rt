// Writes the records of a text, token by token.
ghost use Rattle.records.specs.Inner.Writing.{added, after, bracketed, closed, ended, finished, last_of, multiplied, nothing_written, opened, pushed, signed, starred, with_leaf, with_name, worth};
ghost use Rattle.tokens.specs.Lexing.{seen};
ghost use Rattle.std.specs.Prelude.{◌≡◌};

use super::record::{Node, Record};
use arrayvec::ArrayVec;
use reader::{MOST_GROUPS, MOST_NODES};
use tokens::{Group, Token};

// The records written so far.
#[derive(Drop)]
pub struct Sheet {
    pub(super) records: ArrayVec<Record, MOST_NODES>,
}

// The sign between a sum and its next term.
#[derive(Clone, Copy)]
pub enum Sign {
    Plus,
    Minus,
}

// What waits in a group: a sum and its sign for the next term, and a product for its next factor.
#[derive(Clone, Copy, Default)]
pub struct Frame {
    sum: Option<(Sign, usize)>,
    product: Option<usize>,
}

// The number that the digits write, where it is below 2^32.
fn value(digits: &[u8]) -> u32
    ensures { result ≡ worth digits.now }
{
    digits.iter().fold(0, |value: u32, digit| {
        value
            .saturating_mul(10)
            .saturating_add(u32::from(digit.saturating_sub(b'0')))
    })
}

impl Sheet {
    // The number of the last record; 0 before there is one, which no accepted text asks for.
    fn last(&self) -> usize
        ensures { result ≡ last_of self.now }
    {
        self.records.len().saturating_sub(1)
    }

    // One record more; an accepted text has room for all its nodes.
    fn push(&mut self, node: Node)
        ensures { self.new ≡ pushed self.old node }
    {
        let _ = self.records.try_push(Record {
            node,
            unknown: None,
        });
    }

    // The product that waits for the factor just written, if any.
    fn multiply(&mut self, product: Option<usize>)
        ensures { self.new ≡ multiplied self.old product }
    {
        if let Some(left) = product {
            let right = self.last();
            self.push(Node::Product(left, right));
        }
    }

    // The sum that waits for the term just written, if any.
    fn add(&mut self, sum: Option<(Sign, usize)>)
        ensures { self.new ≡ added self.old sum }
    {
        let right = self.last();
        match sum {
            None => {}
            Some((Sign::Plus, left)) => self.push(Node::Sum(left, right)),
            Some((Sign::Minus, left)) => self.push(Node::Difference(left, right)),
        }
    }

    // The bracket of the sum just written, if its group is square.
    fn bracket(&mut self, group: Group)
        ensures { self.new ≡ bracketed self.old group }
    {
        if group == Group::Square {
            let operand = self.last();
            self.push(Node::Bracket(operand));
        }
    }

    // The sum just written is the right side of this unknown.
    fn finish(&mut self, letter: u8)
        ensures { self.new ≡ finished self.old letter }
    {
        if let Some(root) = self.records.last_mut() {
            root.unknown = Some(letter);
        }
    }
}

// What is written of a text so far.
#[derive(Drop)]
pub struct Writer {
    pub(super) sheet: Sheet,
    // the left capital of the equation that is being read; none between equations
    left: Option<u8>,
    // what waits in the innermost group, and in those around it, the outermost first
    frame: Frame,
    outer: ArrayVec<Frame, MOST_GROUPS>,
    // the record of each unknown's right side, by the letter's byte (0 for a letter without an equation, which no accepted text names): a map
    // of the library would need the heap
    pub(super) roots: [usize; 256],
}

impl Writer {
    pub(super) fn new() -> Writer
        ensures { result ≡ nothing_written }
    {
        Writer {
            sheet: Sheet {
                records: ArrayVec::new(),
            },
            left: None,
            frame: Frame::default(),
            outer: ArrayVec::new(),
            roots: [0; 256],
        }
    }

    // A factor without parts.
    fn leaf(&mut self, node: Node)
        ensures { self.new ≡ with_leaf self.old node }
    {
        self.sheet.push(node);
        let product = self.frame.product.take();
        self.sheet.multiply(product);
    }

    // A capital: the left side of an equation, or a factor whose equation may be yet to come.
    fn capital(&mut self, letter: u8)
        ensures { self.new ≡ with_name self.old letter }
    {
        if self.left.is_none() {
            self.left = Some(letter);
        } else {
            self.leaf(Node::Name(letter));
        }
    }

    // The sign * behind a term.
    fn star(&mut self)
        ensures { self.new ≡ starred self.old }
    {
        self.frame.product = Some(self.sheet.last());
    }

    // The sign + or - behind a sum.
    fn sign(&mut self, sign: Sign)
        ensures { self.new ≡ signed self.old sign }
    {
        self.sheet.add(self.frame.sum);
        self.frame.sum = Some((sign, self.sheet.last()));
    }

    // An opening sign.
    fn open(&mut self)
        ensures { self.new ≡ opened self.old }
    {
        if self.outer.try_push(self.frame).is_ok() {
            self.frame = Frame::default();
        }
    }

    // A closing sign.
    fn close(&mut self, group: Group)
        ensures { self.new ≡ closed self.old group }
    {
        self.sheet.add(self.frame.sum);
        self.sheet.bracket(group);
        if let Some(frame) = self.outer.pop() {
            self.frame = frame;
        }
        let product = self.frame.product.take();
        self.sheet.multiply(product);
    }

    // The end of an equation.
    fn end(&mut self)
        ensures { self.new ≡ ended self.old }
    {
        let sum = self.frame.sum.take();
        self.sheet.add(sum);
        if let Some(letter) = self.left.take() {
            self.sheet.finish(letter);
            self.roots[usize::from(letter)] = self.sheet.last();
        }
    }

    // Writes what a token completes.
    pub(super) fn take(&mut self, token: Token)
        ensures { self.new ≡ after self.old (seen token.entry) }
    {
        match token {
            Token::Number(digits) => self.leaf(Node::Number(value(digits))),
            Token::Capital(letter) => self.capital(letter),
            Token::Small(letter) => self.leaf(Node::Input(letter)),
            Token::Plus => self.sign(Sign::Plus),
            Token::Minus => self.sign(Sign::Minus),
            Token::Star => self.star(),
            Token::Open(_) => self.open(),
            Token::Close(group) => self.close(group),
            Token::Semicolon => self.end(),
            Token::Equals | Token::Stray(_) => {}
        }
    }
}

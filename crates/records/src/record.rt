// The records of nodes.
ghost use Rattle.records.specs.Printing.{node_text, record_text};
ghost use Rattle.records.specs.declared.record.Node.TheVariants.{Number};
ghost use Rattle.std.specs.Prelude.{◌≡◌, Some};

use std::fmt;

// A node. Operands are told by the numbers of their records, and stand before their operator.
// Records stay numbers in a lent slice, and are not boxes: no memory is taken from the heap, and an unknown points ahead or behind once
// the text has been read.
#[derive(Clone, Copy, PartialEq, Eq, Debug)]
pub enum Node {
    Number(u32),
    // an unknown by its letter, as long as its text is being read
    Name(u8),
    // an unknown, by the record of its right side
    Unknown(usize),
    Input(u8),
    Sum(usize, usize),
    Difference(usize, usize),
    Product(usize, usize),
    Bracket(usize),
}

// The number 0, as a record has it that is not written yet.
impl Default for Node {
    ghost is_default = { λ n. n ≡ Number 0 };

    fn default() -> Node {
        Node::Number(0)
    }
}

impl fmt::Display for Node {
    ghost output = { λ n. Some (node_text n) };

    fn fmt<W: fmt::Write>(&self, f: &mut fmt::Formatter<W>) -> fmt::Result {
        match *self {
            Node::Number(value) => write!(f, "number {value}"),
            Node::Name(letter) => write!(f, "name {}", char::from(letter)),
            Node::Unknown(root) => write!(f, "unknown at {root}"),
            Node::Input(letter) => write!(f, "input {}", char::from(letter)),
            Node::Sum(left, right) => write!(f, "sum of {left} and {right}"),
            Node::Difference(left, right) => write!(f, "difference of {left} and {right}"),
            Node::Product(left, right) => write!(f, "product of {left} and {right}"),
            Node::Bracket(operand) => write!(f, "bracket of {operand}"),
        }
    }
}

// A node and, where it is a whole right side, the capital of the equation.
#[derive(Clone, Copy, Default, PartialEq, Eq, Debug)]
pub struct Record {
    pub node: Node,
    pub unknown: Option<u8>,
}

impl fmt::Display for Record {
    ghost output = { λ r. Some (record_text r) };

    fn fmt<W: fmt::Write>(&self, f: &mut fmt::Formatter<W>) -> fmt::Result {
        let node = self.node;
        match self.unknown {
            Some(letter) => write!(f, "{node}, the right side of {}", char::from(letter)),
            None => write!(f, "{node}"),
        }
    }
}

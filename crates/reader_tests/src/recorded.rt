// Texts as records.
use records::{MOST_NODES, Node, Record, read};
use std::fmt::Display;
use std::process::Abort;
use std::test::Fail;

// A record that no text is read into: a name is left by no reading.
const LENT: Record = Record {
    node: Node::Name(b'L'),
    unknown: Some(b'l'),
};

fn operand(node: Node) -> Record {
    Record {
        node,
        unknown: None,
    }
}

fn right_side(node: Node, letter: u8) -> Record {
    Record {
        node,
        unknown: Some(letter),
    }
}

// The records of the text stand in front, and the others are as they were.
fn leaves(rt: &impl Abort, text: &[u8], products: usize, expected: &[Record]) -> Result<(), Fail> {
    let mut records = [LENT; MOST_NODES];
    let counts = read(text, &mut records).ok().ok_or("refused")?;
    assert_eq!(rt; counts, (expected.len(), products));
    let (written, others) = records.split_at_checked(expected.len()).ok_or("too many")?;
    assert_eq!(rt; written, expected);
    for other in others {
        assert_eq!(rt; *other, LENT);
    }
    Ok(())
}

// All records are as they were.
fn leaves_none(rt: &impl Abort, text: &[u8], number: u8, place: usize) -> Result<(), Fail> {
    let mut records = [LENT; MOST_NODES];
    let fault = read(text, &mut records).err().ok_or("accepted")?;
    assert_eq!(rt; (fault.number(), fault.place()), (number, place));
    for record in records.iter() {
        assert_eq!(rt; *record, LENT);
    }
    Ok(())
}

// Operands stand before their operators; sums and terms group from the left, and round groups leave no record.
#[test]
fn operators(rt: HostRuntime) -> Result<(), Fail> {
    leaves(
        &rt,
        b"A = 1 - 2 + 30 * u * (4 - v) ;",
        2,
        &[
            operand(Node::Number(1)),
            operand(Node::Number(2)),
            operand(Node::Difference(0, 1)),
            operand(Node::Number(30)),
            operand(Node::Input(b'u')),
            operand(Node::Product(3, 4)),
            operand(Node::Number(4)),
            operand(Node::Input(b'v')),
            operand(Node::Difference(6, 7)),
            operand(Node::Product(5, 8)),
            right_side(Node::Sum(2, 9), b'A'),
        ],
    )?;
    leaves(
        &rt,
        b"A=((([0])))+[[999999999]];",
        0,
        &[
            operand(Node::Number(0)),
            operand(Node::Bracket(0)),
            operand(Node::Number(999_999_999)),
            operand(Node::Bracket(2)),
            operand(Node::Bracket(3)),
            right_side(Node::Sum(1, 4), b'A'),
        ],
    )
}

// A name is completed with the record of its right side, ahead or behind.
#[test]
fn names(rt: HostRuntime) -> Result<(), Fail> {
    leaves(
        &rt,
        b"A=[A];",
        0,
        &[
            operand(Node::Unknown(1)),
            right_side(Node::Bracket(0), b'A'),
        ],
    )?;
    leaves(
        &rt,
        b"Z=[B*Z];B=007;A=B-[Z];",
        1,
        &[
            operand(Node::Unknown(4)),
            operand(Node::Unknown(3)),
            operand(Node::Product(0, 1)),
            right_side(Node::Bracket(2), b'Z'),
            right_side(Node::Number(7), b'B'),
            operand(Node::Unknown(4)),
            operand(Node::Unknown(3)),
            operand(Node::Bracket(6)),
            right_side(Node::Difference(5, 7), b'A'),
        ],
    )
}

#[test]
fn refusals(rt: HostRuntime) -> Result<(), Fail> {
    leaves_none(&rt, b"", 13, 0)?;
    leaves_none(&rt, b"A=[1+2*3];A=1;", 15, 10)?;
    leaves_none(&rt, b"A=[1+2*3]", 13, 9)?;
    leaves_none(&rt, b"A=1;B=[C];", 17, 7)?;
    leaves_none(&rt, &[b'7'; 4097], 10, 4096)
}

// All 64 records: 32 numbers and 31 sums in a bracket.
#[test]
fn most_records(rt: HostRuntime) {
    let text = b"A=[1+1+1+1+1+1+1+1+1+1+1+1+1+1+1+1+1+1+1+1+1+1+1+1+1+1+1+1+1+1+1+1];";
    let mut records = [LENT; MOST_NODES];
    assert!(rt; read(text, &mut records).is_ok());
    assert_eq!(rt; records[0], operand(Node::Number(1)));
    assert_eq!(rt; records[1], operand(Node::Number(1)));
    assert_eq!(rt; records[2], operand(Node::Sum(0, 1)));
    assert_eq!(rt; records[62], operand(Node::Sum(60, 61)));
    assert_eq!(rt; records[63], right_side(Node::Bracket(62), b'A'));
}

fn prints(
    rt: &(impl Abort + AllocGlobal),
    value: impl Display + Drop,
    expected: &str,
) -> Result<(), Fail> {
    let text = value.to_string(rt.alloc())?;
    assert_eq!(rt; text.as_str(), expected);
    Ok(())
}

// A node prints its name with its letter or number, or with the numbers of its operands' records.
#[test]
fn printed_nodes(rt: HostRuntime) -> Result<(), Fail> {
    for (node, expected) in [
        (Node::Number(4_294_967_295), "number 4294967295"),
        (Node::Name(b'Z'), "name Z"),
        (Node::Unknown(63), "unknown at 63"),
        (Node::Input(b'u'), "input u"),
        (Node::Sum(0, 10), "sum of 0 and 10"),
        (Node::Difference(3, 2), "difference of 3 and 2"),
        (Node::Product(5, 1), "product of 5 and 1"),
        (Node::Bracket(7), "bracket of 7"),
    ] {
        prints(&rt, node, expected)?;
    }
    Ok(())
}

// A record prints its node, and behind it the unknown whose right side it is.
#[test]
fn printed_records(rt: HostRuntime) -> Result<(), Fail> {
    prints(&rt, operand(Node::Product(1, 2)), "product of 1 and 2")?;
    prints(
        &rt,
        right_side(Node::Number(0), b'A'),
        "number 0, the right side of A",
    )
}

#[test]
fn unused_record(rt: HostRuntime) {
    assert_eq!(rt; Record::default(), operand(Node::Number(0)));
}

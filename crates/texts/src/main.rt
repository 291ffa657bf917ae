// Prints what examining texts answers, and the node records of a text.
#![tactic(auto)]

use reader::examine;
use records::{MOST_NODES, Record, read};
use std::io;

// The text with its number of nodes and of product signs, or the fault that decides. (Here and below it is printed where it comes, in one
// line of a `match`.)
fn print_text(rt: &HostRuntime, text: &str) -> io::Result<()> {
    println!(rt; "text {text}")?;
    match examine(text.as_bytes()) {
        Ok((nodes, products)) => println!(rt; "{nodes} nodes, {products} product signs"),
        Err(fault) => println!(rt; "{fault}"),
    }
}

// The records of a text, a line each, with the unknown whose right side a record is.
fn print_records(rt: &HostRuntime, text: &str) -> io::Result<()> {
    println!(rt; "records of {text}")?;
    let mut records = [Record::default(); MOST_NODES];
    match read(text.as_bytes(), &mut records) {
        Ok((nodes, _)) => {
            for (i, record) in records.iter().enumerate().take(nodes) {
                println!(rt; "{i}: {record}")?;
            }
            Ok(())
        }
        Err(fault) => println!(rt; "{fault}"),
    }
}

fn main(rt: HostRuntime) -> io::Result<()> {
    for text in [
        "B=1+[B*B];",
        "T=[1+T*T];S=1+[S*T];",
        "E = 1 + [E]; Y = 1 + [E * Y];",
        "A=[A];",
        "A=A;",
        "A=[B];",
        "A=1;A=2;",
        "A=1",
        "A=0#;",
        "A=1234567890;",
        "A=(((((((((((((((((",
    ] {
        print_text(&rt, text)?;
    }
    for text in ["B=1+[u*B*B];", "A=[B]-7;B=A+(1-A);", "A=[B;"] {
        print_records(&rt, text)?;
    }
    Ok(())
}

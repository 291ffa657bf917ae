// Prints the table of the binary trees, the series B with B = 1 + [B × B], over several rings, q and lengths; and for dual numbers
// the first parts of the table, which are the table over the ring below.
#![tactic(auto)]

use rings::{BinaryPolynomials, Dual, Residues, Ring, RingFault};
use series::Tabulation;
use std::{fmt, io};
use systems::{ProductKind, both_in_order, first_part, tabulate_trees};

// A row of B: the letter, a colon, and a space and the code of each term.
#[derive(Clone, Copy)]
struct Row<'a>(&'a [u64]);

impl fmt::Display for Row<'_> {
    fn fmt<W: fmt::Write>(&self, f: &mut fmt::Formatter<W>) -> fmt::Result {
        f.write_str("B:")?;
        for term in self.0 {
            write!(f, " {term}")?;
        }
        Ok(())
    }
}

// The product of series that goes with q, or the fault that refuses q or the ring. (Here and below a fault is printed where it comes, in one
// line of a `match`, which a function over all of them would only replace by a call and a closure.)
fn print_kind<R: Ring>(rt: &HostRuntime, ring: R, q: u64) -> io::Result<()> {
    match ProductKind::of(&ring, q) {
        Ok(kind) => println!(rt; "product of {kind}"),
        Err(fault) => println!(rt; "{fault}"),
    }
}

// The row of a table, or the fault that refuses it.
fn print_trees<R: Ring>(rt: &HostRuntime, table: Tabulation<R>) -> io::Result<()> {
    let Tabulation { ring, q, length } = table;
    println!(rt; "q {q}, {length} terms")?;
    match tabulate_trees(rt.alloc(), &table) {
        Ok(row) => {
            print_kind(rt, ring, q)?;
            println!(rt; "{}", Row(&row))
        }
        Err(fault) => println!(rt; "{fault}"),
    }
}

// The first parts of the row over the dual numbers, and the row over the ring below: the same.
fn print_first_parts<R: Ring>(rt: &HostRuntime, table: Tabulation<Dual<R>>) -> io::Result<()> {
    let Tabulation { ring, q, length } = table;
    println!(rt; "first parts, and the ring below")?;
    if let Err(fault) = both_in_order(&ring, &ring.below) {
        return println!(rt; "{fault}");
    }
    match tabulate_trees(rt.alloc(), &table) {
        Ok(mut row) => {
            for term in row.iter_mut() {
                *term = first_part(&ring.below, *term);
            }
            println!(rt; "{}", Row(&row))?;
            let below = Tabulation {
                ring: ring.below,
                q: first_part(&ring.below, q),
                length,
            };
            print_trees(rt, below)
        }
        Err(fault) => println!(rt; "{fault}"),
    }
}

// The rows over a ring, one for each q and length; or the fault for which the ring cannot be made.
fn print_rows<R: Ring>(
    rt: &HostRuntime,
    made: Result<R, RingFault>,
    asked: &[(u64, usize)],
) -> io::Result<()> {
    match made {
        Ok(ring) => {
            for &(q, length) in asked {
                print_trees(rt, Tabulation { ring, q, length })?;
            }
            Ok(())
        }
        Err(fault) => println!(rt; "{fault}"),
    }
}

fn over_residues(rt: &HostRuntime, modulus: u64) -> io::Result<()> {
    println!(rt; "residues modulo {modulus}")?;
    let asked = [(0, 8), (1, 8), (2, 6), (1, 1), (modulus, 8), (0, 65)];
    print_rows(rt, Residues::new(modulus), &asked)
}

fn over_polynomials(rt: &HostRuntime, f: u64) -> io::Result<()> {
    println!(rt; "binary polynomials modulo {f}")?;
    print_rows(rt, BinaryPolynomials::new(f), &[(2, 6), (0, 16), (2, 64)])
}

fn over_duals(rt: &HostRuntime, modulus: u64) -> io::Result<()> {
    println!(rt; "dual numbers over residues modulo {modulus}")?;
    let below = match Residues::new(modulus) {
        Ok(below) => below,
        Err(fault) => return println!(rt; "{fault}"),
    };
    let ring = Dual { below };
    print_rows(rt, Ok(ring), &[(0, 8), (modulus, 8), (modulus + 1, 8)])?;
    let table = Tabulation {
        ring,
        q: modulus + 1,
        length: 8,
    };
    print_first_parts(rt, table)?;
    println!(rt; "dual numbers over those")?;
    print_rows(rt, Ok(Dual { below: ring }), &[(0, 8)])
}

fn main(rt: HostRuntime) -> io::Result<()> {
    for modulus in [1000, 1] {
        over_residues(&rt, modulus)?;
    }
    for f in [7, 283, 1] {
        over_polynomials(&rt, f)?;
    }
    for modulus in [10, 0x8000_0000] {
        over_duals(&rt, modulus)?;
    }
    Ok(())
}

// Sums, opposites and products.
use rings::{BinaryPolynomials, Dual, Residues, Ring, RingFault, RingRule};
use std::test::Fail;

#[test]
fn residues(rt: HostRuntime) -> Result<(), Fail> {
    let ring = Residues::new(10)?;
    assert_eq!(rt; ring.one(), 1);
    assert_eq!(rt; ring.add(7, 8), 5);
    assert_eq!(rt; ring.neg(0), 0);
    assert_eq!(rt; ring.neg(3), 7);
    assert_eq!(rt; ring.mul(7, 8), 6);
    assert_eq!(rt; ring.add(10, 8), 8);
    assert_eq!(rt; ring.neg(10), 0);
    assert_eq!(rt; ring.mul(u64::MAX, 8), 0);
    let largest = Residues::new(0x8000_0000)?;
    assert_eq!(rt; largest.mul(0x7fff_ffff, 0x7fff_ffff), 1);
    Ok(())
}

#[test]
fn polynomials(rt: HostRuntime) -> Result<(), Fail> {
    let four = BinaryPolynomials::new(7)?;
    assert_eq!(rt; four.add(2, 3), 1);
    assert_eq!(rt; four.neg(3), 3);
    assert_eq!(rt; four.mul(2, 2), 3);
    assert_eq!(rt; four.mul(2, 3), 1);
    assert_eq!(rt; four.mul(4, 3), 0);
    let bytes = BinaryPolynomials::new(0x11b)?;
    assert_eq!(rt; bytes.mul(0x57, 0x83), 0xc1);
    let reducible = BinaryPolynomials::new(4)?;
    assert_eq!(rt; reducible.mul(2, 2), 0);
    let largest = BinaryPolynomials::new(0xffff_ffff)?;
    assert_eq!(rt; largest.mul(0x7fff_ffff, 0x7fff_ffff), 0x4000_0000);
    Ok(())
}

#[test]
fn duals(rt: HostRuntime) -> Result<(), Fail> {
    // over residues modulo 10 the code of a + bε is a + 10 × b
    let ring = Dual {
        below: Residues::new(10)?,
    };
    assert_eq!(rt; ring.size(), 100);
    assert_eq!(rt; ring.one(), 1);
    assert_eq!(rt; ring.add(95, 27), 12);
    assert_eq!(rt; ring.neg(31), 79);
    assert_eq!(rt; ring.mul(10, 10), 0);
    assert_eq!(rt; ring.mul(11, 31), 41);
    assert_eq!(rt; ring.mul(100, 31), 0);
    let nested = Dual { below: ring };
    assert_eq!(rt; nested.size(), 10000);
    assert_eq!(rt; nested.mul(100, 10), 1000);
    Ok(())
}

// What a ring answers, asked through the bound.
fn answers<R: Ring>(ring: R) -> (Result<(), RingFault>, [u64; 5]) {
    let operations = [
        ring.size(),
        ring.one(),
        ring.add(7, 8),
        ring.neg(3),
        ring.mul(7, 8),
    ];
    (ring.order(), operations)
}

// A ring that is lent answers as the ring itself.
#[test]
fn lent(rt: HostRuntime) -> Result<(), Fail> {
    let ring = Residues::new(10)?;
    assert_eq!(rt; answers(&ring), (Ok(()), [10, 1, 5, 7, 6]));
    let large = Dual {
        below: Dual {
            below: Residues::new(0x8000_0000)?,
        },
    };
    assert_eq!(rt;
        answers(&&large),
        (Err(RingRule::TooLarge.at(0)), [0, 0, 0, 0, 0])
    );
    Ok(())
}

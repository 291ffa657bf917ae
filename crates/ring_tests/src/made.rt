// Which rings can be made, and which are in order.
use rings::{BinaryPolynomials, Dual, Residues, Ring, RingFault, RingRule};
use std::test::Fail;

// The size of the ring that is made, or the number and the place of the refusal.
fn made<R: Ring>(ring: Result<R, RingFault>) -> Result<u64, (u8, usize)> {
    let ring = ring.map_err(|fault| (fault.number(), fault.place()))?;
    Ok(ring.size())
}

#[test]
fn moduli(rt: HostRuntime) {
    assert_eq!(rt; made(Residues::new(0)), Err((1, 0)));
    assert_eq!(rt; made(Residues::new(1)), Err((1, 0)));
    assert_eq!(rt; made(Residues::new(2)), Ok(2));
    assert_eq!(rt; made(Residues::new(0x8000_0000)), Ok(0x8000_0000));
    assert_eq!(rt; made(Residues::new(0x8000_0001)), Err((1, 0)));
    assert_eq!(rt; made(Residues::new(u64::MAX)), Err((1, 0)));
}

#[test]
fn divisors(rt: HostRuntime) {
    assert_eq!(rt; made(BinaryPolynomials::new(0)), Err((2, 0)));
    assert_eq!(rt; made(BinaryPolynomials::new(1)), Err((2, 0)));
    assert_eq!(rt; made(BinaryPolynomials::new(2)), Ok(2));
    assert_eq!(rt; made(BinaryPolynomials::new(7)), Ok(4));
    assert_eq!(rt; made(BinaryPolynomials::new(0xffff_ffff)), Ok(0x8000_0000));
    assert_eq!(rt; made(BinaryPolynomials::new(0x1_0000_0000)), Err((2, 0)));
    assert_eq!(rt; made(BinaryPolynomials::new(u64::MAX)), Err((2, 0)));
}

#[test]
fn depths(rt: HostRuntime) -> Result<(), Fail> {
    let first = Dual {
        below: Residues::new(0x8000_0000)?,
    };
    let second = Dual { below: first };
    let third = Dual { below: second };
    assert_eq!(rt; first.order(), Ok(()));
    assert_eq!(rt; first.size(), 1 << 62);
    assert_eq!(rt; second.order(), Err(RingRule::TooLarge.at(0)));
    assert_eq!(rt; second.size(), 0);
    assert_eq!(rt; third.order(), Err(RingRule::TooLarge.at(1)));
    assert_eq!(rt; third.size(), 0);
    assert_eq!(rt; third.one(), 0);
    assert_eq!(rt; third.add(1, 1), 0);
    assert_eq!(rt; third.neg(1), 0);
    assert_eq!(rt; third.mul(1, 1), 0);
    Ok(())
}

#[test]
fn faults(rt: HostRuntime) {
    let fault = RingRule::TooLarge.at(254);
    assert_eq!(rt; fault.number(), 3);
    assert_eq!(rt; fault.place(), 254);
    assert_eq!(rt; fault.raised().place(), 255);
    assert_eq!(rt; fault.raised().raised().place(), 255);
    assert_eq!(rt; RingRule::Modulus.at(7).raised(), RingRule::Modulus.at(8));
    assert_eq!(rt;
        RingRule::Polynomial.at(0).raised(),
        RingRule::Polynomial.at(1)
    );
}

// The rows that are worked out are the rows that are proved, and each q has its product.
use rings::{BinaryPolynomials, Dual, Residues, Ring, RingRule};
use series::{TableFault, Tabulation};
use std::test::Fail;
use systems::{Example, ProductKind, tabulate_trees};

#[test]
fn examples(rt: HostRuntime) -> Result<(), Fail> {
    let ring = Residues::new(1000)?;
    let length = 8;
    for (q, example) in [
        (0, Example::Catalan),
        (1, Example::Factorials),
        (2, Example::AtTwo),
    ] {
        let row = tabulate_trees(rt.alloc(), &Tabulation { ring, q, length })?;
        assert_eq!(rt; row.as_slice(), example.terms().as_slice());
    }
    let over_polynomials = Tabulation {
        ring: BinaryPolynomials::new(7)?,
        q: 2,
        length,
    };
    let row = tabulate_trees(rt.alloc(), &over_polynomials)?;
    assert_eq!(rt; row.as_slice(), Example::OverPolynomials.terms().as_slice());
    Ok(())
}

#[test]
fn kinds(rt: HostRuntime) -> Result<(), Fail> {
    let ring = Residues::new(3)?;
    assert_eq!(rt; ProductKind::of(&ring, 0), Ok(ProductKind::Cauchy));
    assert_eq!(rt; ProductKind::of(&ring, 1), Ok(ProductKind::Hurwitz));
    assert_eq!(rt; ProductKind::of(&ring, 2), Ok(ProductKind::Gauss));
    assert_eq!(rt; ProductKind::of(&ring, 3), Err(TableFault::Base));
    Ok(())
}

#[test]
fn printed_kinds(rt: HostRuntime) -> Result<(), Fail> {
    for (kind, expected) in [
        (ProductKind::Cauchy, "Cauchy"),
        (ProductKind::Hurwitz, "Hurwitz"),
        (ProductKind::Gauss, "Gauss"),
    ] {
        assert_eq!(rt; format!(in rt.alloc(); "{kind}")?.as_str(), expected);
    }
    Ok(())
}

// A ring that is not in order decides before q.
#[test]
fn refused_kinds(rt: HostRuntime) -> Result<(), Fail> {
    let ring = Dual {
        below: Dual {
            below: Residues::new(0x8000_0000)?,
        },
    };
    let fault = RingRule::TooLarge.at(0);
    assert_eq!(rt; ProductKind::of(&ring, 0), Err(TableFault::Ring(fault)));
    assert_eq!(rt;
        ProductKind::of(&ring, u64::MAX),
        Err(TableFault::Ring(fault))
    );
    Ok(())
}

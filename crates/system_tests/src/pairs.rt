// Two rings: which fault decides, and the first parts of dual numbers.
use rings::{Dual, Residues, Ring, RingRule};
use series::Tabulation;
use std::test::Fail;
use systems::{both_in_order, first_part, tabulate_trees};

#[test]
fn the_first_fault_decides(rt: HostRuntime) -> Result<(), Fail> {
    let large = Residues::new(0x8000_0000)?;
    let dual = Dual { below: large };
    let second = Dual { below: dual };
    let third = Dual { below: second };
    assert_eq!(rt; both_in_order(&large, &dual), Ok(()));
    assert_eq!(rt;
        both_in_order(&dual, &second),
        Err(RingRule::TooLarge.at(0))
    );
    assert_eq!(rt; both_in_order(&third, &dual), Err(RingRule::TooLarge.at(1)));
    assert_eq!(rt;
        both_in_order(&second, &third),
        Err(RingRule::TooLarge.at(0))
    );
    assert_eq!(rt;
        both_in_order(&third, &second),
        Err(RingRule::TooLarge.at(1))
    );
    Ok(())
}

#[test]
fn first_parts(rt: HostRuntime) -> Result<(), Fail> {
    let below = Residues::new(10)?;
    assert_eq!(rt; first_part(&below, 0), 0);
    assert_eq!(rt; first_part(&below, 9), 9);
    assert_eq!(rt; first_part(&below, 37), 7);
    assert_eq!(rt; first_part(&below, u64::MAX), 5);
    let large = Dual {
        below: Dual {
            below: Residues::new(0x8000_0000)?,
        },
    };
    assert_eq!(rt; first_part(&large, 37), 0);
    Ok(())
}

// The first parts of the table over the dual numbers are the table over the ring below.
#[test]
fn carried_rows(rt: HostRuntime) -> Result<(), Fail> {
    let below = Residues::new(10)?;
    let over_duals = Tabulation {
        ring: Dual { below },
        q: 11,
        length: 64,
    };
    let over_below = Tabulation {
        ring: below,
        q: 1,
        length: 64,
    };
    let mut row = tabulate_trees(rt.alloc(), &over_duals)?;
    let expected = tabulate_trees(rt.alloc(), &over_below)?;
    for term in row.iter_mut() {
        *term = first_part(&below, *term);
    }
    assert_eq!(rt; row.as_slice(), expected.as_slice());
    Ok(())
}

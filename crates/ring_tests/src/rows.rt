// The weights, single terms and whole rows.
use rings::{BinaryPolynomials, Dual, Residues, Ring, RingRule};
use series::{TableFault, Tabulation, product_term};
use std::alloc::Global;
use std::test::Fail;

#[test]
fn gaussian_weights(rt: HostRuntime) -> Result<(), Fail> {
    let ring = Residues::new(1000)?;
    for (q, length, expected) in [
        (0, 4, &[1, 1, 1, 1, 1, 1, 1, 1, 1, 1][..]),
        (1, 5, &[1, 1, 1, 1, 2, 1, 1, 3, 3, 1, 1, 4, 6, 4, 1]),
        (2, 5, &[1, 1, 1, 1, 3, 1, 1, 7, 7, 1, 1, 15, 35, 15, 1]),
    ] {
        let weights = Tabulation { ring, q, length }.weights(rt.alloc())?;
        assert_eq!(rt; weights.as_slice(), expected);
    }
    let longest = Tabulation {
        ring,
        q: 1,
        length: 64,
    };
    assert_eq!(rt; longest.weights(rt.alloc())?.len(), 2080);
    Ok(())
}

#[test]
fn terms(rt: HostRuntime) -> Result<(), Fail> {
    let ring = Residues::new(1000)?;
    let table = Tabulation {
        ring,
        q: 1,
        length: 4,
    };
    let weights = table.weights(rt.alloc())?;
    let a = [1, 2, 3, 4];
    let b = [5, 6, 7];
    assert_eq!(rt; product_term(&ring, &weights, &a, &b, 0), Some(5));
    assert_eq!(rt; product_term(&ring, &weights, &a, &b, 1), Some(16));
    assert_eq!(rt; product_term(&ring, &weights, &a, &b, 2), Some(46));
    assert_eq!(rt; product_term(&ring, &weights, &a, &b, 3), None);
    assert_eq!(rt; product_term(&ring, &weights, &a, &a, 3), Some(44));
    assert_eq!(rt; product_term(&ring, &weights, &a, &a, 4), None);
    assert_eq!(rt; product_term(&ring, &weights[0..9], &a, &a, 3), None);
    assert_eq!(rt; product_term(&ring, &weights, &a, &a, usize::MAX), None);
    Ok(())
}

#[test]
fn refusals(rt: HostRuntime) -> Result<(), Fail> {
    let ring = Residues::new(1000)?;
    let large = Dual {
        below: Dual {
            below: Residues::new(0x8000_0000)?,
        },
    };
    let heap = rt.alloc();
    assert_eq!(rt; refusal(heap, large, 1000, 65), Some((20, 0)));
    assert_eq!(rt; refusal(heap, Dual { below: large }, 0, 8), Some((20, 1)));
    for (q, length, refused) in [
        (1000, 65, Some((21, 0))),
        (999, 65, Some((22, 0))),
        (999, 0, Some((22, 0))),
        (999, 1, None),
        (999, 64, None),
    ] {
        assert_eq!(rt; refusal(heap, ring, q, length), refused);
    }
    let inner = RingRule::TooLarge.at(0);
    let table = Tabulation {
        ring: large,
        q: 0,
        length: 8,
    };
    assert_eq!(rt; table.weights(heap).err(), Some(TableFault::Ring(inner)));
    Ok(())
}

// The number and the place of the fault that refuses a row, if one does.
fn refusal<R: Ring>(heap: Global, ring: R, q: u64, length: usize) -> Option<(u8, usize)> {
    let fault = Tabulation { ring, q, length }.binary_trees(heap).err()?;
    Some((fault.number(), fault.place()))
}

// How faults of both layers are printed.
#[test]
fn printed_faults(rt: HostRuntime) -> Result<(), Fail> {
    let heap = rt.alloc();
    let fault = RingRule::TooLarge.at(254);
    assert_eq!(rt; format!(in heap; "{fault}")?.as_str(), "fault 3 at 254");
    for (fault, expected) in [
        (TableFault::from(fault), "fault 20 at 254"),
        (TableFault::Base, "fault 21 at 0"),
        (TableFault::Length, "fault 22 at 0"),
        (TableFault::Memory, "fault 0 at 0"),
    ] {
        assert_eq!(rt; format!(in heap; "{fault}")?.as_str(), expected);
    }
    Ok(())
}

#[test]
fn catalan_numbers(rt: HostRuntime) -> Result<(), Fail> {
    // published: 1, 1, 2, 5, 14, 42, 132, 429, 1430, 4862, 16796, 58786, 208012
    let ring = Residues::new(1 << 30)?;
    let table = Tabulation {
        ring,
        q: 0,
        length: 13,
    };
    let row = table.binary_trees(rt.alloc())?;
    assert_eq!(rt;
        row.as_slice(),
        [
            1, 1, 2, 5, 14, 42, 132, 429, 1430, 4862, 16796, 58786, 208012,
        ]
        .as_slice()
    );
    let over_duals = Tabulation {
        ring: Dual { below: ring },
        q: 0,
        length: 13,
    };
    let same = over_duals.binary_trees(rt.alloc())?;
    assert_eq!(rt; same.as_slice(), row.as_slice());
    let over_four = Tabulation {
        ring: BinaryPolynomials::new(7)?,
        q: 2,
        length: 6,
    };
    let short = over_four.binary_trees(rt.alloc())?;
    assert_eq!(rt; short.as_slice(), [1, 1, 0, 3, 0, 0].as_slice());
    let longest = Tabulation {
        length: 64,
        ..table
    };
    assert_eq!(rt; longest.binary_trees(rt.alloc())?.len(), 64);
    Ok(())
}

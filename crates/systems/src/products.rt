// The product of series that goes with q.
ghost use Rattle.systems.specs.Kinds.{kind, kind_of, name_of};
ghost use Rattle.systems.specs.SeriesRing.{SeriesRings};
ghost use Rattle.systems.specs.WeightLaws.{WeightLaws};
ghost use Rattle.std.specs.Prelude.{◌≡◌, Some};

use rings::Ring;
use series::{TableFault, Tabulation};
use std::fmt;

#[derive(Clone, Copy, PartialEq, Eq, Debug)]
pub enum ProductKind {
    // q = 0: every weight is 1
    Cauchy,
    // q = 1: the weights are the binomials
    Hurwitz,
    // every other q: the weights are the Gaussian binomials at q
    Gauss,
}

impl ProductKind {
    // Which product goes with q, or the fault that refuses every table over the ring with q.
    // Over every ring the weights have their laws for every q, and the products at 0 and 1 are Cauchy's and Hurwitz's; over
    // every ring in order, for every q, the series form a commutative ring and the bracket is additive.
    pub fn of<R: Ring>(ring: &R, q: u64) -> Result<ProductKind, TableFault>
        ensures answer { result ≡ kind_of (R.meaning ring.now) q }
        ensures weights { WeightLaws (R.meaning ring.now) }
        ensures series { SeriesRings (R.meaning ring.now) }
    {
        let table = Tabulation {
            ring,
            q,
            // a length that is never refused
            length: 1,
        };
        table.admit()?;
        Ok(kind(ring, q))
    }
}

// A product is printed by its name.
impl fmt::Display for ProductKind {
    ghost output = { λ kind. Some (name_of kind) };

    fn fmt<W: fmt::Write>(&self, f: &mut fmt::Formatter<W>) -> fmt::Result {
        f.write_str(match self {
            ProductKind::Cauchy => "Cauchy",
            ProductKind::Hurwitz => "Hurwitz",
            ProductKind::Gauss => "Gauss",
        })
    }
}

// Which product goes with q, where nothing refuses it.
fn kind<R: Ring>(ring: &R, q: u64) -> ProductKind
    ensures { result ≡ kind (R.meaning ring.now) q }
{
    if q == 0 {
        ProductKind::Cauchy
    } else if q == ring.one() {
        ProductKind::Hurwitz
    } else {
        ProductKind::Gauss
    }
}

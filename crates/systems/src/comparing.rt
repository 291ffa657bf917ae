// Tables over two rings.
ghost use Rattle.systems.specs.Carrying.{Transfers, both};
ghost use Rattle.systems.specs.FirstParts.{CarriesFirstParts, first_part};
ghost use Rattle.std.specs.Prelude.{◌≡◌};

use rings::{Ring, RingFault};

// Whether both rings are in order, or else the fault of the first that is not.
// A map that carries 0, the one, sums, products and q from the first to the second carries weights, values of trees and solutions;
// and it carries the table of a system to that of a rearranged one, as far as it carries the inputs that both have.
pub fn both_in_order<R: Ring, S: Ring>(first: &R, second: &S) -> Result<(), RingFault>
    ensures answer { result ≡ both (R.meaning first.now).order (S.meaning second.now).order }
    ensures tables { Transfers (R.meaning first.now) (S.meaning second.now) }
{
    first.order()?;
    second.order()
}

// The code of a, where x is the code of a + bε over the ring below; 0 where that ring is not in order.
// Where the dual numbers are in order this is a map that carries: taken of every coefficient of a table over the dual numbers, it
// gives the table over the ring below, also of a rearranged system.
#[tactic(auto, using(crate::proofs::FirstParts::no_part, crate::proofs::FirstParts::some_part))]
pub fn first_part<R: Ring>(below: &R, x: u64) -> u64
    ensures answer { result ≡ first_part (R.meaning below.now) x }
    ensures tables { CarriesFirstParts (R.meaning below.now) }
{
    x.checked_rem(below.size()).unwrap_or(0)
}

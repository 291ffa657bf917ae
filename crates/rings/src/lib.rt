// Finite commutative rings. A ring tells its elements by codes, the whole numbers from 0 up to its size less 1.
#![tactic(auto)]

ghost use Rattle.rings.specs.Model.{Lawful, RingModel, clip, one_of, opposite, product, size_of, sum};
ghost use Rattle.std.specs.Prelude.{◌≡◌};

mod epsilon;
mod fault;
mod lent;
mod modular;
mod polynomial;

pub use epsilon::Dual;
pub use fault::{RingFault, RingRule, write_fault};
pub use modular::Residues;
pub use polynomial::BinaryPolynomials;

// The largest modulus of a residue ring, and the largest size of the ring below a dual one.
const MOST: u64 = 1 << 31;

// A ring is a plain value. Asking it alters nothing. An operand that is not below the size counts as 0, and a ring that is
// not in order answers 0 for its size, its one and every operation.
pub trait Ring: Copy {
    // what the ring means
    ghost meaning: { Self → RingModel };

    // Whether the ring is in order, or else its fault.
    fn order(&self) -> Result<(), RingFault>
        ensures { result ≡ (meaning self.now).order };

    // How many elements there are.
    fn size(&self) -> u64
        ensures { result ≡ size_of (meaning self.now) };

    // The code of the one.
    fn one(&self) -> u64
        ensures { result ≡ one_of (meaning self.now) };

    // The sum of x and y.
    fn add(&self, x: u64, y: u64) -> u64
        ensures { result ≡ sum (meaning self.now) x y };

    // The opposite of x.
    fn neg(&self, x: u64) -> u64
        ensures { result ≡ opposite (meaning self.now) x };

    // The product of x and y.
    fn mul(&self, x: u64, y: u64) -> u64
        ensures { result ≡ product (meaning self.now) x y };

    // a ring in order is a commutative ring of size 1 to 2^62
    ghost lawful: { (ring : Self) → Lawful (meaning ring) };
}

// x where it is below the size, else 0.
fn clipped(size: u64, x: u64) -> u64
    ensures { result ≡ clip size x }
{
    if x < size { x } else { 0 }
}

// A ring that is lent.
use super::{Ring, RingFault};

// A ring that is lent is a ring, the same one. So what takes a ring by value can be asked over one that stays where it is, and a large one
// is not copied.
impl<R: Ring> Ring for &R {
    ghost meaning = { λ ring. R.meaning ring.now };

    ghost lawful = { λ ring. R.lawful ring.now };

    fn order(&self) -> Result<(), RingFault> {
        (**self).order()
    }

    fn size(&self) -> u64 {
        (**self).size()
    }

    fn one(&self) -> u64 {
        (**self).one()
    }

    fn add(&self, x: u64, y: u64) -> u64 {
        (**self).add(x, y)
    }

    fn neg(&self, x: u64) -> u64 {
        (**self).neg(x)
    }

    fn mul(&self, x: u64, y: u64) -> u64 {
        (**self).mul(x, y)
    }
}

// Dual numbers a + bε over any ring, with ε² = 0.
ghost use Rattle.std.specs.Prelude.{◌≡◌, ◌/◌, ◌%◌, ◌^◌, ◌≤◌};
ghost use Rattle.rings.specs.Duals.{dual, dual_order, join, side};
ghost use Rattle.rings.specs.Model.{code, if_in_order, size_of};
ghost use Rattle.rings.specs.Lemmas.Duals.{dual_lawful};

use super::{MOST, Ring, RingFault, RingRule, clipped};

// The dual numbers over the ring below. They can always be made; order() says whether they are in order.
#[derive(Clone, Copy)]
pub struct Dual<R> {
    pub below: R,
}

impl<R: Ring> Dual<R> {
    // The size of the ring below where the dual ring is in order, else 0, as a ring that is not in order has the size 0.
    #[tactic(auto, using(crate::specs::Lemmas::Duals::side_fits, crate::specs::Lemmas::Duals::side_large))]
    fn side(&self) -> u64
        ensures value { result ≡ side (R.meaning self.now.below) }
        ensures bound { result ≤ 2 ^ 31 }
    {
        let s = self.below.size();
        if s <= MOST { s } else { 0 }
    }

    // The codes a and b, where x is the code of a + bε.
    #[tactic(auto, using(crate::specs::Lemmas::Duals::code_dual, crate::specs::Lemmas::Duals::code_none, crate::specs::Lemmas::Duals::side_positive))]
    fn parts(&self, x: u64) -> (u64, u64)
        ensures first { result.0 ≡ code (dual (R.meaning self.now.below)) x % size_of (R.meaning self.now.below) }
        ensures second { result.1 ≡ code (dual (R.meaning self.now.below)) x / size_of (R.meaning self.now.below) }
    {
        let s = self.side();
        let x = clipped(s * s, x);
        let first = x.checked_rem(s).unwrap_or(0);
        (first, x.checked_div(s).unwrap_or(0))
    }

    // The code of a + bε.
    #[tactic(auto, using(crate::specs::Lemmas::Duals::joined_is))]
    fn joined(&self, a: u64, b: u64) -> u64
        ensures { result ≡ if_in_order (dual_order (R.meaning self.now.below)) (join (size_of (R.meaning self.now.below)) (code (R.meaning self.now.below) a) (code (R.meaning self.now.below) b)) }
    {
        let s = self.side();
        clipped(s, a) + s * clipped(s, b)
    }
}

impl<R: Ring> Ring for Dual<R> {
    ghost meaning = { λ ring. dual (R.meaning ring.below) };

    ghost lawful = { λ ring. dual_lawful (R.meaning ring.below) (R.lawful ring.below) };

    #[tactic(auto, using(crate::specs::Lemmas::Duals::order_large, crate::specs::Lemmas::Duals::order_small, crate::specs::Lemmas::Duals::order_below))]
    fn order(&self) -> Result<(), RingFault> {
        self.below.order().map_err(RingFault::raised)?;
        if self.below.size() > MOST {
            return Err(RingRule::TooLarge.at(0));
        }
        Ok(())
    }

    #[tactic(auto, using(crate::specs::Lemmas::Duals::side_squared))]
    fn size(&self) -> u64 {
        let s = self.side();
        s * s
    }

    #[tactic(auto, using(crate::specs::Lemmas::Duals::dual_one))]
    fn one(&self) -> u64 {
        self.joined(self.below.one(), 0)
    }

    #[tactic(auto, using(crate::specs::Lemmas::Duals::dual_sum))]
    fn add(&self, x: u64, y: u64) -> u64 {
        let (a, b) = self.parts(x);
        let (c, d) = self.parts(y);
        self.joined(self.below.add(a, c), self.below.add(b, d))
    }

    #[tactic(auto, using(crate::specs::Lemmas::Duals::dual_opposite))]
    fn neg(&self, x: u64) -> u64 {
        let (a, b) = self.parts(x);
        self.joined(self.below.neg(a), self.below.neg(b))
    }

    #[tactic(auto, using(crate::specs::Lemmas::Duals::dual_product))]
    fn mul(&self, x: u64, y: u64) -> u64 {
        let (a, b) = self.parts(x);
        let (c, d) = self.parts(y);
        let cross = self.below.add(self.below.mul(a, d), self.below.mul(b, c));
        self.joined(self.below.mul(a, c), cross)
    }
}

// Binary polynomials modulo a polynomial of degree 1 to 31.
ghost use Rattle.rings.specs.Answers.{through};
ghost use Rattle.rings.specs.Polynomials.{MakesPolynomials, polynomials};
ghost use Rattle.std.specs.Prelude.{◌≡◌};
ghost use Rattle.rings.specs.Lemmas.Divided.{polynomials_laws};

use super::{Ring, RingFault, RingRule, clipped};
use binary::Divisor;

#[derive(Clone, Copy)]
pub struct BinaryPolynomials {
    divisor: Divisor,
}

impl BinaryPolynomials {
    // The ring of polynomials modulo f; bit i of f is the coefficient of the i-th power.
    pub fn new(f: u64) -> Result<BinaryPolynomials, RingFault>
        ensures { MakesPolynomials f (through (λ ring. polynomials ring.divisor.f ring.divisor.degree) result) }
    {
        let divisor = Divisor::new(f).ok_or(RingRule::Polynomial.at(0))?;
        Ok(BinaryPolynomials { divisor })
    }
}

#[tactic(auto, unfolding(crate::specs::Polynomials::polynomials, crate::specs::Model::code, crate::specs::Model::opposite, crate::specs::Model::product, crate::specs::Model::size_of, crate::specs::Model::sum, crate::specs::Model::one_of))]
impl Ring for BinaryPolynomials {
    ghost meaning = { λ ring. polynomials ring.divisor.f ring.divisor.degree };

    ghost lawful = { λ ring on. let v = ring.divisor in polynomials_laws v.f v.degree v.least v.most v.leads };

    fn order(&self) -> Result<(), RingFault> {
        Ok(())
    }

    fn size(&self) -> u64 {
        self.divisor.size()
    }

    fn one(&self) -> u64 {
        1
    }

    fn add(&self, x: u64, y: u64) -> u64 {
        let size = self.divisor.size();
        clipped(size, x) ^ clipped(size, y)
    }

    fn neg(&self, x: u64) -> u64 {
        clipped(self.divisor.size(), x)
    }

    fn mul(&self, x: u64, y: u64) -> u64 {
        self.divisor.multiply(x, y)
    }
}

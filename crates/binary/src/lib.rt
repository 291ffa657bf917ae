// Binary polynomials modulo a polynomial f of degree 1 to 31. Bit i of a code is the coefficient of the i-th power.
#![tactic(auto)]

ghost use Rattle.std.specs.Prelude.{◌≡◌, ℕ, ◌*◌, ◌^◌, ◌<◌, ◌≤◌, MatchOption};
ghost use Rattle.binary.specs.Agreement.{Agrees};
ghost use Rattle.binary.specs.Codes.{product, reduce};
ghost use Rattle.binary.specs.Words.{HasDegree, operand};

// The polynomial f that products are reduced by, with its degree.
#[derive(Clone, Copy)]
pub struct Divisor {
    f: u64,
    degree: u32,
    ghost least: { 1 ≤ degree },
    ghost most: { degree ≤ 31 },
    ghost leads: { HasDegree f degree },
}

impl Divisor {
    // f as a divisor, or none where its degree is not from 1 to 31; 0 has no degree.
    pub fn new(f: u64) -> Option<Divisor>
        ensures { MatchOption result ((d : ℕ) → 1 ≤ d → d ≤ 31 → HasDegree f d → ⊥) (λ divisor. divisor.f ≡ f) }
    {
        if f < 2 || f > 0xffff_ffff {
            return None;
        }
        Some(Divisor {
            f,
            degree: f.ilog2(),
        })
    }

    // How many codes there are below 2 ^ degree.
    pub fn size(&self) -> u64
        ensures { result ≡ 2 ^ self.now.degree }
    {
        1u64 << self.degree
    }

    // x where it is below the size, else 0. (The rings above have the like of it for every ring; one function for both would be a public
    // one of this crate, with a promise of its own, for one line.)
    fn clipped(&self, x: u64) -> u64
        ensures { result ≡ operand self.now.degree x }
    {
        if x < self.size() { x } else { 0 }
    }

    // x times the first power, reduced.
    #[tactic(auto, using(crate::proofs::Remainder::reduce_above, crate::proofs::Remainder::reduce_below))]
    fn raised(&self, x: u64) -> u64
        requires { x < 2 ^ self.now.degree }
        ensures { result ≡ reduce self.now.f self.now.degree (x * 2) }
    {
        let twice = x * 2;
        if twice < self.size() {
            twice
        } else {
            twice ^ self.f
        }
    }

    // The product of a and b modulo f; an operand that is not below the size counts as 0.
    pub fn multiply(&self, a: u64, b: u64) -> u64
        ensures value { result ≡ product self.now.f self.now.degree (operand self.now.degree a) (operand self.now.degree b) }
        ensures agrees { Agrees self.now.f self.now.degree }
    {
        let mut left = self.clipped(a);
        let mut power = self.clipped(b);
        let mut sum = 0;
        // a number is halved until nothing is left: there is no index here, and no iterator over bits
        while left > 0 {
            if left % 2 == 1 {
                sum ^= power;
            }
            power = self.raised(power);
            left /= 2;
        }
        sum
    }
}

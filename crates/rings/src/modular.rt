// Residues modulo a number from 2 to 2^31.
ghost use Rattle.std.specs.Prelude.{◌≡◌, ◌^◌, ◌≤◌};
ghost use Rattle.rings.specs.Answers.{through};
ghost use Rattle.rings.specs.Modular.{MakesResidues, residues};
ghost use Rattle.rings.specs.Lemmas.Remainders.{residues_laws};

use super::{MOST, Ring, RingFault, RingRule, clipped};

#[derive(Clone, Copy)]
pub struct Residues {
    modulus: u64,
    ghost least: { 2 ≤ modulus },
    ghost most: { modulus ≤ 2 ^ 31 },
}

impl Residues {
    // The ring of residues modulo the number, from 2 to 2^31.
    pub fn new(modulus: u64) -> Result<Residues, RingFault>
        ensures { MakesResidues modulus (through (λ ring. residues ring.modulus) result) }
    {
        if modulus < 2 || modulus > MOST {
            return Err(RingRule::Modulus.at(0));
        }
        Ok(Residues { modulus })
    }
}

#[tactic(auto, unfolding(crate::specs::Modular::residues, crate::specs::Model::code, crate::specs::Model::opposite, crate::specs::Model::product, crate::specs::Model::size_of, crate::specs::Model::sum, crate::specs::Model::one_of))]
impl Ring for Residues {
    ghost meaning = { λ ring. residues ring.modulus };

    ghost lawful = { λ ring on. residues_laws ring.modulus ring.least ring.most };

    fn order(&self) -> Result<(), RingFault> {
        Ok(())
    }

    fn size(&self) -> u64 {
        self.modulus
    }

    fn one(&self) -> u64 {
        1
    }

    fn add(&self, x: u64, y: u64) -> u64 {
        let m = self.modulus;
        (clipped(m, x) + clipped(m, y)) % m
    }

    fn neg(&self, x: u64) -> u64 {
        let m = self.modulus;
        (m - clipped(m, x)) % m
    }

    fn mul(&self, x: u64, y: u64) -> u64 {
        let m = self.modulus;
        clipped(m, x) * clipped(m, y) % m
    }
}

// The table of the binary trees.
ghost use Rattle.series.specs.Refusals.{Attempt};
ghost use Rattle.series.specs.Trees.{IsTreeRow};

use super::products::summed;
use super::{TableFault, Tabulation};
use rings::Ring;
use std::alloc::Global;

impl<R: Ring> Tabulation<R> {
    // The first terms of the series B with B = 1 + [B × B]. (Each n is the index of the term that is asked for, not one into the row.)
    #[tactic(auto, using(crate::proofs::Admission::admits, crate::proofs::TreeRows::tree_first, crate::proofs::Places::place_below))]
    pub fn binary_trees(&self, heap: Global) -> Result<Vec<u64>, TableFault>
        ensures { Attempt (R.meaning self.now.ring) self.now.q self.now.length (λ row. IsTreeRow (R.meaning self.now.ring) self.now.q self.now.length row.items) result }
    {
        let weights = self.weights(heap)?;
        let mut row = Vec::with_capacity(heap, self.length)?;
        row.push_reserved(self.ring.one());
        for n in 0..self.length - 1 {
            let term = summed(&self.ring, &weights, &row, &row, n);
            row.push_reserved(term);
        }
        Ok(row)
    }
}

// The weights of a ring and an element q.
ghost use Rattle.std.specs.Prelude.{◌≡◌, ◌+◌, ◌<◌, ◌≤◌, vec_capacity};
ghost use Rattle.series.specs.Refusals.{Attempt};
ghost use Rattle.series.specs.Weights.{OneTable, Tabulates, rows_before};

use super::{TableFault, Tabulation, rows_before};
use rings::Ring;
use std::alloc::Global;

impl<R: Ring> Tabulation<R> {
    // The weights for the indices below the length, row after row, W(0, 0) first.
    #[tactic(auto, using(crate::proofs::Admission::admits, crate::proofs::Admission::decides, crate::proofs::Admission::for_memory, crate::proofs::Places::rows_mono))]
    pub fn weights(&self, heap: Global) -> Result<Vec<u64>, TableFault>
        ensures answer { Attempt (R.meaning self.now.ring) self.now.q self.now.length (λ cells. Tabulates (R.meaning self.now.ring) self.now.q self.now.length cells.items) result }
        ensures table { OneTable (R.meaning self.now.ring) self.now.q }
    {
        self.admit()?;
        let mut cells = Vec::with_capacity(heap, rows_before(self.length))?;
        for n in 0..self.length {
            self.push_row(n, &mut cells);
        }
        Ok(cells)
    }

    // Row n, behind the rows before it. (It is pushed onto the vector that holds the row above, so no iterator over that row can be held.)
    #[tactic(auto, using(crate::proofs::Filled::filled_rows, crate::proofs::Filled::rows_filled, crate::proofs::Places::row_above, crate::proofs::Places::place_below), unfolding(crate::specs::Weights::power))]
    fn push_row(&self, n: usize, cells: &mut Vec<u64>)
        requires small { n < 64 }
        requires rows { Tabulates (R.meaning self.now.ring) self.now.q n cells.old.items }
        requires room { rows_before (n + 1) ≤ vec_capacity cells.old }
        ensures rows { Tabulates (R.meaning self.now.ring) self.now.q (n + 1) cells.new.items }
        ensures capacity { vec_capacity cells.new ≡ vec_capacity cells.old }
    {
        let above = cells.len() - n;
        let mut power = self.ring.one();
        for k in 0..n + 1 {
            let weight = if k == 0 || k == n {
                self.ring.one()
            } else {
                self.ring.add(cells[above + k - 1], self.ring.mul(power, cells[above + k]))
            };
            cells.push_reserved(weight);
            power = self.ring.mul(self.q, power);
        }
    }
}

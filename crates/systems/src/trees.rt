// The table of the binary trees, as the first terms of the only solution of their equation.
ghost use Rattle.series.specs.Refusals.{Attempt};
ghost use Rattle.systems.specs.Rearranging.{SameSolutions};
ghost use Rattle.systems.specs.Solutions.{B, IsRow, binary_trees, unfed};
ghost use Rattle.systems.specs.Solving.{OneSolution};

use rings::Ring;
use series::{TableFault, Tabulation};
use std::alloc::Global;

// The first coefficients of B in the only family that satisfies B = 1 + [B × B].
// Over every ring a system that meets the side conditions has, for every choice of inputs, one and only one family that satisfies
// it, and its coefficients below n depend only on the inputs' coefficients below n. Over every ring in order, for every q,
// rearranged systems are satisfied by the same families.
pub fn tabulate_trees<R: Ring>(heap: Global, table: &Tabulation<R>) -> Result<Vec<u64>, TableFault>
    ensures row { Attempt (R.meaning table.now.ring) table.now.q table.now.length (λ row. IsRow (R.meaning table.now.ring) table.now.q table.now.length binary_trees unfed B row.items) result }
    ensures solution { OneSolution (R.meaning table.now.ring) }
    ensures rearranged { SameSolutions (R.meaning table.now.ring) }
{
    table.binary_trees(heap)
}

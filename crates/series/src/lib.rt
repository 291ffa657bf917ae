// Weights, products of formal series and the table of the binary trees, over any ring.
#![tactic(auto)]

ghost use Rattle.std.specs.Prelude.{◌≡◌, ◌≤◌};
ghost use Rattle.series.specs.Weights.{rows_before};

mod fault;
mod products;
mod tabulation;
mod trees;
mod weighing;

pub use fault::TableFault;
pub use products::product_term;
pub use tabulation::Tabulation;

// How many weights stand in the rows before row n of a table. (A table is one vector, reserved at once, which `product_term` takes as one
// slice.)
fn rows_before(n: usize) -> usize
    requires { n ≤ 64 }
    ensures { result ≡ rows_before n }
{
    n * (n + 1) / 2
}

// Systems of equations between formal series: which product goes with q, what solves a system, and what a map between rings carries.
#![tactic(auto)]

mod comparing;
mod examples;
mod products;
mod trees;

pub use comparing::{both_in_order, first_part};
pub use examples::Example;
pub use products::ProductKind;
pub use trees::tabulate_trees;

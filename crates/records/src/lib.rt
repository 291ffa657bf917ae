// Equation texts as node records.
#![tactic(auto)]

mod reading;
mod record;
mod writer;

pub use reader::MOST_NODES;
pub use reading::read;
pub use record::{Node, Record};

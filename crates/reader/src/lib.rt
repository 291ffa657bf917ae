// The reader of equation texts: which texts are accepted, and why any other is refused.
#![tactic(auto)]

mod examining;
mod fault;
mod progress;

pub use examining::examine;
pub use fault::{Rule, TextFault};

// The most bytes of a text, and the most digits of a number.
const MOST_BYTES: usize = 4096;

const MOST_DIGITS: usize = 9;

// The most groups that a sign may lie in, and the most nodes of a system.
pub const MOST_GROUPS: usize = 16;

pub const MOST_NODES: usize = 64;

// What a table is asked for.
ghost use Rattle.series.specs.Refusals.{admitted};
ghost use Rattle.std.specs.Prelude.{◌≡◌};

use super::TableFault;
use rings::Ring;

// The most terms that a table has.
pub(super) const MOST_TERMS: usize = 64;

// A table over a ring with q, of a number of terms. Each call says for itself whether there is such a table.
#[derive(Clone, Copy)]
pub struct Tabulation<R> {
    pub ring: R,
    pub q: u64,
    pub length: usize,
}

impl<R: Ring> Tabulation<R> {
    // Whether there is a table of this length over the ring with q, or else the fault that decides.
    pub fn admit(&self) -> Result<(), TableFault>
        ensures { result ≡ admitted (R.meaning self.now.ring) self.now.q self.now.length }
    {
        self.ring.order()?;
        if self.q >= self.ring.size() {
            return Err(TableFault::Base);
        }
        if self.length < 1 || self.length > MOST_TERMS {
            return Err(TableFault::Length);
        }
        Ok(())
    }
}

// Products of series, term by term.
ghost use Rattle.series.specs.Series.{weighted};
ghost use Rattle.series.specs.Terms.{Enough, GivesProduct, GivesTerm, listed, standing};
ghost use Rattle.std.specs.Prelude.{◌≡◌};

use super::rows_before;
use super::tabulation::MOST_TERMS;
use rings::Ring;

// Term n of the product of two series, n below 64, under weights that stand row after row; none where a term or a weight is
// missing.
pub fn product_term<R: Ring>(
    ring: &R,
    weights: &[u64],
    a: &[u64],
    b: &[u64],
    n: usize,
) -> Option<u64>
    ensures term { GivesTerm (R.meaning ring.now) weights.now a.now b.now n result }
    ensures product { GivesProduct (R.meaning ring.now) weights.now a.now b.now n result }
{
    if n >= MOST_TERMS || n >= a.len() || n >= b.len() {
        return None;
    }
    if rows_before(n) + n >= weights.len() {
        return None;
    }
    Some(summed(ring, weights, a, b, n))
}

// The sum of weight × a × b over the pairs of indices that come to n.
pub(crate) fn summed<R: Ring>(ring: &R, weights: &[u64], a: &[u64], b: &[u64], n: usize) -> u64
    requires { Enough weights.now a.now b.now n }
    ensures { result ≡ weighted (R.meaning ring.now) (standing weights.now) (listed a.now) (listed b.now) n }
{
    let row = &weights[rows_before(n)..];
    row.iter()
        .zip(&a[..n + 1])
        .zip(b[..n + 1].iter().rev())
        .fold(
            0,
            |sum, ((weight, a), b)| ring.add(sum, ring.mul(ring.mul(*weight, *a), *b)),
        )
}

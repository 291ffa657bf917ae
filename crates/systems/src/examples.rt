// Systems worked out.
ghost use Rattle.systems.specs.Examples.{WorkedOut, answer};
ghost use Rattle.std.specs.Prelude.{◌≡◌};

#[derive(Clone, Copy)]
pub enum Example {
    // B = 1 + [B × B] modulo 1000: q = 0, 1, 2
    Catalan,
    Factorials,
    AtTwo,
    // the same over binary polynomials modulo x² + x + 1, with q = x
    OverPolynomials,
    // B = 1 + [u × B × B] over the dual numbers modulo 10 with q = 1, where u is 1 + ε
    Marked,
    // T and S of T = [1 + T × T], S = 1 + [S × T] modulo 1000, with q = 1
    Tangents,
    Secants,
    // Y of E = 1 + [E], Y = 1 + [E × Y] modulo 1000, with q = 1
    Bell,
    // A = [A] modulo 1000, with q = 0
    Zeros,
    // B of A = 1, B = A modulo 1000, with q = 0
    Copied,
}

impl Example {
    // The first eight terms of the unknown in the only family that satisfies the system.
    // So it is in every example; also worked out are a rearrangement, and systems that break a side condition.
    pub fn terms(&self) -> [u64; 8]
        ensures answer { result ≡ answer self.now }
        ensures examples { WorkedOut }
    {
        eight_terms(*self)
    }
}

// The rows, as the definitions have them. (They stand by themselves so that what is proved of the examples is said at one return.)
fn eight_terms(example: Example) -> [u64; 8]
    ensures { result ≡ answer example }
{
    match example {
        Example::Catalan => [1, 1, 2, 5, 14, 42, 132, 429],
        Example::Factorials => [1, 1, 2, 6, 24, 120, 720, 40],
        Example::AtTwo => [1, 1, 2, 7, 42, 434, 812, 31],
        Example::OverPolynomials => [1, 1, 0, 3, 0, 0, 0, 0],
        Example::Marked => [1, 11, 42, 86, 64, 0, 0, 0],
        Example::Tangents => [0, 1, 0, 2, 0, 16, 0, 272],
        Example::Secants => [1, 0, 1, 0, 5, 0, 61, 0],
        Example::Bell => [1, 1, 2, 5, 15, 52, 203, 877],
        Example::Zeros => [0, 0, 0, 0, 0, 0, 0, 0],
        Example::Copied => [1, 0, 0, 0, 0, 0, 0, 0],
    }
}

// What a token is.

// A pair of signs that groups a sum: round ones only group, square ones stand for the bracket of the sum.
// It has a `Default` since a vector of a fixed capacity fills its unused places with it.
#[derive(Clone, Copy, PartialEq, Eq, Default, Debug)]
pub enum Group {
    #[default]
    Round,
    Square,
}

// A token. A number borrows its digits from the text, and letters are told by their bytes.
#[derive(Clone, Copy, PartialEq, Eq, Debug)]
pub enum Token<'a> {
    Number(&'a [u8]),
    Capital(u8),
    Small(u8),
    Equals,
    Semicolon,
    Plus,
    Minus,
    Star,
    Open(Group),
    Close(Group),
    // a byte that begins no token
    Stray(u8),
}

// The tokens of a text, one after another.
ghost use Rattle.tokens.specs.Tokens.{HasOneList, HasOneList-prop};
ghost use Rattle.std.specs.Prelude.{◌-◌, ◌≤◌, length};

use super::lexer::next_token;
use super::token::Token;
use std::iter::FusedIterator;

// Gives the tokens of a text, each with its place: the number of bytes of the text before it. It is no `Copy`, since a copy by accident
// would give the same tokens again, and nothing wants a clone.
#[derive(Debug, Drop)]
pub struct Tokens<'a> {
    // the part of the text that is not taken apart yet, and the number of bytes of the whole text
    pub(super) rest: &'a [u8],
    pub(super) whole: usize,
    pub ghost within: { length rest.now ≤ whole },
    // the tokens that are to come, as the one list of those of the rest
    pub ghost ahead: { HasOneList (whole - length rest.now) rest.now } by { HasOneList-prop _ _ },
}

impl<'a> Iterator for Tokens<'a> {
    ghost use Rattle.std.specs.Iterator.{YieldsFirstBy, item_count};
    ghost use Rattle.tokens.specs.Listed.{left_to_give, placed};

    type Item = (usize, Token<'a>);

    ghost next_gives = { YieldsFirstBy placed left_to_give };

    ghost remaining = { item_count left_to_give };

    fn next(&mut self) -> Option<(usize, Token<'a>)> {
        let lexed = next_token(self.rest)?;
        self.rest = lexed.rest;
        Some((self.whole - lexed.left, lexed.token))
    }
}

impl FusedIterator for Tokens<'_> {}

// Takes a text apart into its tokens.
ghost use Rattle.tokens.specs.Inner.Fronts.{past_separators};
ghost use Rattle.tokens.specs.Kinds.{digit, single};
ghost use Rattle.tokens.specs.Lexing.{Lexes, seen};
ghost use Rattle.tokens.specs.Listed.{left_to_give};
ghost use Rattle.tokens.specs.Tokens.{OneList, Tokens as AreTokens};
ghost use Rattle.std.specs.List.{prefix_len};
ghost use Rattle.std.specs.Prelude.{◌≡◌, ◌≤◌, length};

use super::iter::Tokens;
use super::token::{Group, Token};

// The first token of a text, how many bytes of the text are left where it begins, and what follows it. So its place is the length
// of the text less `left`.
#[derive(Clone, Copy, PartialEq, Eq, Debug)]
pub struct Lexed<'a> {
    pub token: Token<'a>,
    pub left: usize,
    pub rest: &'a [u8],
}

// The token that a byte is by itself, where it is neither a digit nor a separator. The signs are classed by their characters as cases:
// the project wants this form of its lexer.
fn sign_or_letter<'a>(byte: u8) -> Token<'a>
    ensures { seen result ≡ single byte }
{
    match char::from(byte) {
        '=' => Token::Equals,
        ';' => Token::Semicolon,
        '+' => Token::Plus,
        '-' => Token::Minus,
        '*' => Token::Star,
        '(' => Token::Open(Group::Round),
        ')' => Token::Close(Group::Round),
        '[' => Token::Open(Group::Square),
        ']' => Token::Close(Group::Square),
        'A'..='Z' => Token::Capital(byte),
        'a'..='z' => Token::Small(byte),
        _ => Token::Stray(byte),
    }
}

// The text behind the separators that it begins with. Here and in `next_token` the text is taken apart as its first byte and the rest:
// the project wants this form of its lexer.
fn skip_separators(text: &[u8]) -> &[u8]
    ensures { result.now ≡ past_separators text.now }
{
    let mut left = text;
    while let [b' ' | b'\n', rest @ ..] = left {
        left = rest;
    }
    left
}

// How many digits the text begins with.
fn count_digits(text: &[u8]) -> usize
    ensures { result ≡ prefix_len digit text.now }
{
    text.iter().take_while(|byte| byte.is_ascii_digit()).count()
}

// The first token of a text; none where the text has no token.
// Every text has one and only one list of tokens, and they come one after another by this call.
#[tactic(auto, using(crate::proofs::Listing::one_list))]
pub fn next_token<'a>(text: &'a [u8]) -> Option<Lexed<'a>>
    ensures answer { Lexes text.now result }
    ensures tokens { OneList }
{
    let text = skip_separators(text);
    match text {
        [] => None,
        [first, rest @ ..] => {
            if first.is_ascii_digit() {
                let (digits, after) = text.split_at(count_digits(text));
                Some(Lexed {
                    token: Token::Number(digits),
                    left: text.len(),
                    rest: after,
                })
            } else {
                Some(Lexed {
                    token: sign_or_letter(*first),
                    left: text.len(),
                    rest,
                })
            }
        }
    }
}

// The tokens of a text, one after another, each with its place.
// A text has one and only one list of tokens, and it is what they give. There are no more of them than bytes.
pub fn tokens<'a>(text: &'a [u8]) -> Tokens<'a>
    ensures listed { AreTokens 0 text.now (left_to_give result) }
    ensures few { length (left_to_give result) ≤ length text.now }
{
    Tokens {
        rest: text,
        whole: text.len(),
    }
}

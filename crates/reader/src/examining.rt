// Examines a text in full.
ghost use Rattle.reader.specs.Examining.{Examined};
ghost use Rattle.reader.specs.Examples.{WorkedTexts};
ghost use Rattle.reader.specs.Outcomes.{TextLaws};
ghost use Rattle.reader.specs.Inner.Progress.{missing};
ghost use Rattle.reader.specs.Sorts.{is_star};
ghost use Rattle.tokens.specs.Lexing.{seen};
ghost use Rattle.tokens.specs.Tokens.{Token as Listed, Tokens};
ghost use Rattle.std.specs.Prelude.{◌≡◌, List};

use super::MOST_BYTES;
use super::fault::{Rule, TextFault};
use super::progress::{Phase, Progress, is_unknown};
use tokens::{Token, tokens};

// The place of the first capital that is not among the letters with an equation.
fn first_unknown(text: &[u8], defined: &[bool; 256]) -> Option<usize>
    ensures { (ts : List Listed) → Tokens 0 text.now ts → result ≡ missing defined.now ts }
{
    tokens(text)
        .find(|(_, token)| is_unknown(*token, defined))
        .map(|(place, _)| place)
}

// Whether the token is the sign of a product.
fn is_star(token: Token) -> bool
    ensures { result ≡ is_star (seen token.entry) }
{
    matches!(token, Token::Star)
}

// The number of nodes and of product signs of a text, a pair as the project wants it, or the fault that decides.
// Every text is accepted or has a fault, and never both; an accepted text has one system, and it is solvable; any other text has one
// fault. The texts of the examples are examined as they say.
#[tactic(auto, using(crate::proofs::Only::text_laws, crate::proofs::Worked::worked_texts))]
pub fn examine(text: &[u8]) -> Result<(usize, usize), TextFault>
    ensures answer { Examined text.now result }
    ensures laws { TextLaws }
    ensures examples { WorkedTexts }
{
    if text.len() > MOST_BYTES {
        return Err(Rule::TooLong.at(MOST_BYTES));
    }
    let mut progress = Progress::new();
    let mut products = 0;
    for (place, token) in tokens(text) {
        progress.read(token).map_err(|rule| rule.at(place))?;
        products += usize::from(is_star(token));
    }
    if progress.phase != Phase::Between {
        return Err(Rule::NotAllowed.at(text.len()));
    }
    match first_unknown(text, &progress.defined) {
        Some(place) => Err(Rule::NoEquation.at(place)),
        None => Ok((progress.nodes, products)),
    }
}

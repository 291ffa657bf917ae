// Tokens one after another.
use std::test::Fail;
use tokens::{Group, Token, next_token, tokens};

// A text, and its tokens with what is left of it where they begin and behind them.
const TEXT: &[u8] = b" T = [007]\n*(b-9)+]#;\n ";

const TOKENS: [(Token<'static>, usize, usize); 15] = [
    (Token::Capital(b'T'), 22, 21),
    (Token::Equals, 20, 19),
    (Token::Open(Group::Square), 18, 17),
    (Token::Number(b"007"), 17, 14),
    (Token::Close(Group::Square), 14, 13),
    (Token::Star, 12, 11),
    (Token::Open(Group::Round), 11, 10),
    (Token::Small(b'b'), 10, 9),
    (Token::Minus, 9, 8),
    (Token::Number(b"9"), 8, 7),
    (Token::Close(Group::Round), 7, 6),
    (Token::Plus, 6, 5),
    (Token::Close(Group::Square), 5, 4),
    (Token::Stray(b'#'), 4, 3),
    (Token::Semicolon, 3, 2),
];

#[test]
fn one_after_another(rt: HostRuntime) -> Result<(), Fail> {
    let mut rest = TEXT;
    for (token, left, behind) in TOKENS {
        let lexed = next_token(rest).ok_or("no token")?;
        assert_eq!(rt; lexed.token, token);
        assert_eq!(rt; (lexed.left, lexed.rest.len()), (left, behind));
        rest = lexed.rest;
    }
    assert!(rt; next_token(rest).is_none());
    let lexed = next_token(b"\n 0072b").ok_or("no token")?;
    assert_eq!(rt; lexed.token, Token::Number(b"0072"));
    Ok(())
}

// The iterator gives the same tokens, each with its place, and stays at its end.
#[test]
fn with_places(rt: HostRuntime) -> Result<(), Fail> {
    let mut listed = tokens(TEXT);
    for (expected, left, _) in TOKENS {
        let (place, token) = listed.next().ok_or("no token")?;
        assert_eq!(rt; token, expected);
        assert_eq!(rt; TEXT.len().checked_sub(left), Some(place));
    }
    assert!(rt; listed.next().is_none());
    assert!(rt; listed.next().is_none());
    assert_eq!(rt; tokens(TEXT).count(), TOKENS.len());
    assert_eq!(rt; tokens(b" \n").count(), 0);
    Ok(())
}

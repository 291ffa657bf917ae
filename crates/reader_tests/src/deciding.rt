// Which letters stand where, and which fault decides.
use super::answers::{accepted, refused};
use reader::examine;
use std::test::Fail;

// Each capital has one equation, which stands before any use outside square brackets.
#[test]
fn letters(rt: HostRuntime) {
    accepted(&rt, b"A=[A];", 2, 0);
    accepted(&rt, b"A=[(A)];", 2, 0);
    accepted(&rt, b"A=[[1]+A];", 5, 0);
    accepted(&rt, b"A=[B];B=[A];", 4, 0);
    accepted(&rt, b"A=1;B=A;", 2, 0);
    accepted(&rt, b"A=1;B=[B]+(A)+a;", 7, 0);
    refused(&rt, b"A=A;", 16, 2);
    refused(&rt, b"A=(A);", 16, 3);
    refused(&rt, b"A=[A]+A;", 16, 6);
    refused(&rt, b"A=([A]*A);", 16, 7);
    refused(&rt, b"B=A;A=1;", 16, 2);
    refused(&rt, b"B=1;A=B+A;", 16, 8);
    refused(&rt, b"A=a+A;", 16, 4);
    refused(&rt, b"A=1;A=2;", 15, 4);
    refused(&rt, b"A=[A];B=A;A=[B];", 15, 10);
    refused(&rt, b"A=[B];", 17, 3);
    refused(&rt, b"A=[C+B];C=[D];", 17, 5);
    refused(&rt, b"A=[a*B+b];C=1;", 17, 5);
}

// The first token that breaks a rule decides, and at one token the lowest number. A capital without an equation comes last.
#[test]
fn first_fault(rt: HostRuntime) {
    // one token: a stray byte or a long number, where the grammar allows none
    refused(&rt, b"#", 11, 0);
    refused(&rt, b"1234567890", 12, 0);
    refused(&rt, b"A=1 1234567890;", 12, 4);
    // an opening sign in 16 groups, and behind a factor
    refused(&rt, b"A=((((((((((((((((1(", 13, 19);
    refused(&rt, b"A=[[[[[[[[[[[[[[[[1[", 13, 19);
    // a capital that is too early, and behind a factor
    refused(&rt, b"A=1B;", 13, 3);
    // a capital that has an equation, and behind a left capital
    refused(&rt, b"A=1;BA=2;", 13, 5);
    // two tokens: the later one breaks a rule of lower number
    refused(&rt, b"A=12345678901;#", 12, 2);
    refused(&rt, b"A=1+;#", 13, 4);
    refused(&rt, b"A=(((((((((((((((((1#", 14, 18);
    refused(&rt, b"A=1;A=1234567890;", 15, 4);
    refused(&rt, b"A=BC;", 16, 2);
    refused(&rt, b"A=B;A=#", 16, 2);
    // a capital without an equation, and any other fault
    refused(&rt, b"A=[B]+#;", 11, 6);
    refused(&rt, b"A=[B]+1234567890;", 12, 6);
    refused(&rt, b"A=[B]", 13, 5);
    refused(&rt, b"A=[B];1", 13, 6);
    refused(&rt, b"A=[B]+(((((((((((((((((", 14, 22);
    refused(&rt, b"A=[B];A=1;", 15, 6);
    refused(&rt, b"A=[B]+B;", 16, 6);
}

// A fault says its number and its place.
#[test]
fn in_words(rt: HostRuntime) -> Result<(), Fail> {
    for (text, words) in [
        (&b"A=A;"[..], "fault 16 at 2"),
        (b"", "fault 13 at 0"),
        (b"A=(((((((((((((((((", "fault 14 at 18"),
        (&[b' '; 4097], "fault 10 at 4096"),
    ] {
        let fault = examine(text).err().ok_or("accepted")?;
        assert_eq!(rt; format!(in rt.alloc(); "{fault}")?.as_str(), words);
    }
    Ok(())
}

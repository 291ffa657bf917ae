// What the tokens are, and which may follow which.
use super::answers::{accepted, refused};

// Space and line feed only separate tokens. A number has 9 digits at most, and other bytes begin no token.
#[test]
fn tokens(rt: HostRuntime) {
    accepted(&rt, b"\n T\n=\n\n[ 1 + T *\nT ] ; ", 6, 1);
    accepted(&rt, b"A=1;\nB = A;\n", 2, 0);
    refused(&rt, b" \n", 13, 2);
    refused(&rt, b"A=1 \n", 13, 5);
    refused(&rt, b"A=1 2;", 13, 4);
    refused(&rt, b"A=12345 67890;", 13, 8);
    refused(&rt, b"A = A ;", 16, 4);
    refused(&rt, b"A = 1 ;\nA = 2 ;", 15, 8);
    refused(&rt, b"A = [ B ] ;", 17, 6);
    accepted(&rt, b"A=123456789;", 1, 0);
    accepted(&rt, b"A=000000000;", 1, 0);
    refused(&rt, b"A=1234567890;", 12, 2);
    refused(&rt, b"A=0000000000;", 12, 2);
    refused(&rt, b"A=1*(b+1234567890);", 12, 7);
    refused(&rt, b"A=0#;", 11, 3);
    refused(&rt, b"A=\x00;", 11, 2);
    refused(&rt, b"A=1.5;", 11, 3);
    refused(&rt, b"A=1;\r\n", 11, 4);
    refused(&rt, b"A\t=1;", 11, 1);
    refused(&rt, b"A=1;\xff", 11, 4);
}

// A system is equations such as A = sum ;
#[test]
fn grammar(rt: HostRuntime) {
    // the text ends too early
    refused(&rt, b"", 13, 0);
    for (text, place) in [
        (&b"A"[..], 1),
        (b"A=", 2),
        (b"A=1", 3),
        (b"A=1+", 4),
        (b"A=[1", 4),
        (b"A=1;B", 5),
        // an equation begins with a capital and =
        (b"a=1;", 0),
        (b"1=1;", 0),
        (b"=1;", 0),
        (b";", 0),
        (b"(A)=1;", 0),
        (b"A1;", 1),
        (b"AB=1;", 1),
        (b"A==1;", 2),
        (b"A=1=1;", 3),
        (b"A=1;;", 4),
        (b"A=1;b", 4),
    ] {
        refused(&rt, text, 13, place);
    }
}

// A sum is terms and a term factors, and a group is a factor.
#[test]
fn right_sides(rt: HostRuntime) {
    for (text, place) in [
        // a sum begins with a factor, and one stands between two signs
        (&b"A=;"[..], 2),
        (b"A=-1;", 2),
        (b"A=1+;", 4),
        (b"A=1*-1;", 4),
        (b"A=();", 3),
        (b"A=[+1];", 3),
        // two factors do not meet
        (b"A=[bc];", 4),
        (b"A=[BC];", 4),
        (b"A=2b;", 3),
        (b"A=b2;", 3),
        (b"A=(1)(2);", 5),
        (b"A=[1]2;", 5),
        // a group ends with the sign of its own kind, before the equation does
        (b"A=(1];", 4),
        (b"A=[1);", 4),
        (b"A=[(1]);", 5),
        (b"A=[1]*(2];", 8),
        (b"A=1);", 3),
        (b"A=(1))", 5),
        (b"A=(1;", 4),
    ] {
        refused(&rt, text, 13, place);
    }
    accepted(&rt, b"A=[(1)]*([2]);", 5, 1);
}

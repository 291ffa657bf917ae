// Long texts and bytes of no text.
use super::answers::{accepted, refused};

// A text has 4,096 bytes at most, and a longer one is refused before all else.
#[test]
fn lengths(rt: HostRuntime) {
    let mut text = [b' '; 4096];
    text[0] = b'A';
    text[1] = b'=';
    text[2] = b'1';
    text[4095] = b';';
    accepted(&rt, &text, 1, 0);
    text[4095] = b'2';
    refused(&rt, &text, 13, 4095);
    text[4095] = b' ';
    refused(&rt, &text, 13, 4096);
    let mut longer = [b' '; 4097];
    longer[0] = b'A';
    longer[1] = b'=';
    longer[2] = b'1';
    longer[3] = b';';
    refused(&rt, &longer, 10, 4096);
    longer[0] = b'#';
    refused(&rt, &longer, 10, 4096);
    // one byte throughout, or behind a left side
    refused(&rt, &[b'7'; 4097], 10, 4096);
    refused(&rt, &[b'7'; 4096], 12, 0);
    refused(&rt, &[b'('; 4096], 13, 0);
    refused(&rt, &[b'\n'; 4096], 13, 4096);
    refused(&rt, &[0; 4096], 11, 0);
    refused(&rt, &[255; 4096], 11, 0);
    for (byte, number, place) in [(b'7', 12, 2), (b'(', 14, 18), (b'[', 14, 18), (0, 11, 2)] {
        let mut text = [byte; 4096];
        text[0] = b'A';
        text[1] = b'=';
        refused(&rt, &text, number, place);
    }
}

// Each byte behind a whole equation.
#[test]
fn every_byte(rt: HostRuntime) {
    for byte in 0..=255 {
        let text = [b'A', b'=', b'1', b';', byte];
        match char::from(byte) {
            ' ' | '\n' => accepted(&rt, &text, 1, 0),
            'A' => refused(&rt, &text, 15, 4),
            'B'..='Z' => refused(&rt, &text, 13, 5),
            '=' | ';' | '+' | '-' | '*' | '(' | ')' | '[' | ']' => refused(&rt, &text, 13, 4),
            '0'..='9' | 'a'..='z' => refused(&rt, &text, 13, 4),
            _ => refused(&rt, &text, 11, 4),
        }
    }
}

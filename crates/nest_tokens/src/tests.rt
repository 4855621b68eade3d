//! The tokens of texts, and where they stand.

use crate::{BadToken, Cursor, Mark, Name, Token};
use std::alloc::{AllocError, Global};
use std::test::Fail;

/// Writes a token.
fn show_token(alloc: Global, token: Token, out: &mut String) -> Result<(), AllocError> {
    match token {
        Token::Name(name) => {
            for byte in name.bytes {
                if byte != 0 {
                    out.push(char::from(byte))?;
                }
            }
            Ok(())
        }
        Token::Number(number) => out.push_str(format!(in alloc; "{number}")?.as_str()),
        Token::Plain(mark) => {
            out.push_str("'")?;
            for byte in mark.spelling() {
                out.push(char::from(*byte))?;
            }
            out.push_str("'")
        }
        Token::Bad(BadToken::Byte) => out.push_str("?byte"),
        Token::Bad(BadToken::Number) => out.push_str("?number"),
        Token::Bad(BadToken::Name) => out.push_str("?name"),
        Token::End => out.push_str("end"),
    }
}

/// The tokens of a text, each behind its offset, up to the end.
fn show(alloc: Global, text: &[u8]) -> Result<String, Fail> {
    let mut out = String::new(alloc);
    let mut cursor = Cursor::new(text);
    for _ in 0..text.len() + 1 {
        let spot = cursor.spot();
        out.push_str(format!(in alloc; "{}:", spot.at)?.as_str())?;
        show_token(alloc, spot.token, &mut out)?;
        if spot.token == Token::End {
            break;
        }
        out.push_str(" ")?;
        cursor.skip();
    }
    Ok(out)
}

/// Texts, each with its tokens.
static TEXTS: [(&str, &str); 14] = [
    ("", "0:end"),
    (" # a comment", "12:end"),
    ("#\n#\n7", "4:7 5:end"),
    ("\t\r\n a", "4:a 5:end"),
    ("nest 01", "0:'nest' 5:1 7:end"),
    ("nests_1z", "0:nests_1z 8:end"),
    ("3abc", "0:3 1:abc 4:end"),
    ("a=b==c", "0:a 1:'=' 2:b 3:'==' 5:c 6:end"),
    ("<=<>=>!==", "0:'<=' 2:'<' 3:'>=' 5:'>' 6:'!=' 8:'=' 9:end"),
    (
        "{}()[],:;",
        "0:'{' 1:'}' 2:'(' 3:')' 4:'[' 5:']' 6:',' 7:':' 8:';' 9:end",
    ),
    ("+-*/%", "0:'+' 1:'-' 2:'*' 3:'/' 4:'%' 5:end"),
    ("! $", "0:?byte 2:?byte 3:end"),
    ("A", "0:?byte 1:end"),
    (
        "9223372036854775807 9223372036854775808 99999999999999999999999",
        "0:9223372036854775807 20:?number 40:?number 63:end",
    ),
];

#[test]
fn tokens_of_texts(rt: HostRuntime) -> Result<(), Fail> {
    for (text, expected) in &TEXTS {
        let seen = show(rt.alloc(), text.as_bytes())?;
        assert_eq!(rt; seen.as_str(), *expected);
    }
    Ok(())
}

#[test]
fn names_of_32_and_33_bytes(rt: HostRuntime) -> Result<(), Fail> {
    let longest = show(rt.alloc(), b"abcdefghijklmnopqrstuvwxyz_01234")?;
    assert_eq!(rt;
        longest.as_str(),
        "0:abcdefghijklmnopqrstuvwxyz_01234 32:end"
    );
    let longer = show(rt.alloc(), b"abcdefghijklmnopqrstuvwxyz_012345")?;
    assert_eq!(rt; longer.as_str(), "0:?name 33:end");
    Ok(())
}

#[test]
fn marks(rt: HostRuntime) -> Result<(), Fail> {
    assert!(rt; Token::Plain(Mark::Less).is(Mark::Less));
    assert!(rt; !Token::Plain(Mark::Less).is(Mark::AtMost));
    assert!(rt; !Token::End.is(Mark::Less));
    Ok(())
}

#[test]
fn text_of_a_name(rt: HostRuntime) -> Result<(), Fail> {
    let mut bytes = [0; 32];
    bytes[0] = b'a';
    bytes[1] = b'1';
    let short = Name { bytes };
    assert_eq!(rt; short.text(), b"a1".as_slice());
    let long = Name { bytes: [b'z'; 32] };
    assert_eq!(rt; long.text(), [b'z'; 32].as_slice());
    Ok(())
}

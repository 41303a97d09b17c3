//! Texts of tokens, decided by hand from docs/LANGUAGE.md.
use c_lexer::{lex, token_text};
use c_syntax::{Punct, Token, TokenKind};
use std::process::Abort;
use std::test::Fail;

// Writes the tokens of a source, and those of what is written.
fn is_written<R: AllocGlobal + Abort>(rt: &R, source: &str, text: &str) -> Result<(), Fail> {
    let alloc = rt.alloc();
    assert!(rt; source.len() <= 1_000);
    let tokens = lex(alloc, source.as_bytes())?;
    let written = token_text(alloc, &tokens)?;
    assert_eq!(rt; written.as_slice(), text.as_bytes(), "at {source}");
    assert!(rt; written.len() <= 1_000_000);
    let again = token_text(alloc, &lex(alloc, &written)?)?;
    assert_eq!(rt; again.as_slice(), text.as_bytes(), "behind {source}");
    Ok(())
}

#[test]
fn words_and_marks(rt: HostRuntime) -> Result<(), Fail> {
    is_written(&rt, "", "")?;
    is_written(
        &rt,
        "int main(void){/* a */return x_1>>=y;}",
        "int main ( void ) {\nreturn x_1 >>= y ;\n}\n",
    )?;
    is_written(&rt, "a+++b-->c...", "a ++ + b -- > c ... ")?;
    // A name as long as it may be.
    let name =
        "a123456789b123456789c123456789d123456789e123456789f123456789g123456789h123456789i123456789j123456789k123456789l123456789m123456 ";
    assert_eq!(&rt; name.len(), 128);
    is_written(&rt, name, name)
}

// As many tokens as a text may have, and one more.
#[test]
fn many_tokens(rt: HostRuntime) -> Result<(), Fail> {
    let alloc = rt.alloc();
    let text = b"x ".repeat(alloc, 200_000)?;
    assert!(&rt; text.len() <= 1_000_000);
    let mut tokens = lex(alloc, &text)?;
    assert_eq!(&rt; token_text(alloc, &tokens)?.as_slice(), text.as_slice());
    tokens.push(Token {
        kind: TokenKind::Mark(Punct::Semicolon),
        at: 400_000,
        len: 1,
    })?;
    let longer = token_text(alloc, &tokens)?;
    assert_eq!(&rt; longer.len(), 400_002);
    assert!(&rt; longer.ends_with(b"x ;\n"));
    Ok(())
}

#[test]
fn constants(rt: HostRuntime) -> Result<(), Fail> {
    is_written(
        &rt,
        "0 00 1 10u 017 0X1FU 5000000000 0xfFfFfFfFf 4294967295 0x10",
        "0x0 0x0 1 10u 0xf 0x1fu 4294967295 0xffffffff 4294967295 0x10 ",
    )?;
    is_written(
        &rt,
        "' ' '\\'' '\\n' '\\777' '\\xffff' '\\x0'",
        "'\\x0020' '\\x0027' '\\x000a' '\\x01ff' '\\xffff' '\\x0000' ",
    )
}

//! Lines, words and numbers of a text.
use std::test::Fail;
use vi_words::{Lines, Words, has_bad_byte, hex_bytes, is_word, name_number, number, says_nothing};

#[test]
fn texts_have_lines_and_words(rt: HostRuntime) {
    let mut lines = Lines::of(b"# x\n  d0  map\nend");
    assert!(rt;
        lines
            .take()
            .is_some_and(|line| says_nothing(Words::of(line)))
    );
    let mut words = Words::of(lines.take().unwrap_or(b""));
    assert!(rt; words.take().is_some_and(|word| is_word(word, b"d0")));
    assert!(rt;
        words
            .again()
            .take()
            .is_some_and(|word| is_word(word, b"map"))
    );
    assert!(rt; lines.take().is_some_and(|line| !has_bad_byte(line)));
    assert!(rt; lines.take().is_none());
    assert!(rt; has_bad_byte(b"\t"));
}

#[test]
fn words_have_numbers(rt: HostRuntime) -> Result<(), Fail> {
    assert_eq!(rt; number(b"0xFf"), Some(255));
    assert_eq!(rt; number(b"18446744073709551616"), None);
    assert_eq!(rt; name_number(b"01"), None);
    assert_eq!(rt; name_number(b"99999999999"), Some(1 << 32));
    let bytes = hex_bytes(rt.alloc(), b"0aFF")?.ok_or("bytes")?;
    assert_eq!(rt; bytes.as_slice(), [10, 255].as_slice());
    assert!(rt; hex_bytes(rt.alloc(), b"0a1")?.is_none());
    Ok(())
}

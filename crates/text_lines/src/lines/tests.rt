use crate::{Lines, Words, judge_line};
use knx_base::Cause;
use std::test::Fail;

#[test]
fn a_line_ends_with_a_line_feed_a_return_before_it_or_the_text(rt: HostRuntime) {
    let mut lines = Lines::new(b"a\r\n\nb\rc\nd\r");
    for expected in [(1, b"a".as_slice()), (2, b""), (3, b"b\rc"), (4, b"d\r")] {
        assert_eq!(rt; lines.next(), Some(expected));
    }
    assert_eq!(rt; lines.next(), None);
}

#[test]
fn words_stand_between_spaces_and_tabs(rt: HostRuntime) -> Result<(), Fail> {
    let mut words = words_in(b" \trole  1/2/3\tany ~ ").ok_or("no words")?;
    for word in ["role", "1/2/3", "any", "~"] {
        assert_eq!(rt; words.next(), Some(word));
    }
    assert_eq!(rt; words.next(), None);
    Ok(())
}

#[test]
fn a_line_without_words_or_with_a_comment_says_nothing(rt: HostRuntime) {
    for line in [
        b"".as_slice(),
        b" \t ",
        b"#",
        b"\t # caf\xc3\xa9 \x00",
        b"#word word",
    ] {
        assert_eq!(rt; cause_in(line), None);
        assert_eq!(rt; words_in(line).is_none(), true);
    }
}

#[test]
fn other_octets_and_too_many_are_refused(rt: HostRuntime) {
    let long = [b'#'; 1025];
    assert_eq!(rt; cause_in(&long), Some(Cause::Long));
    assert_eq!(rt; cause_in(&long[1..]), None);
    for line in [
        b"caf\xc3\xa9".as_slice(),
        b"word #\x7f",
        b"word\r",
        b"\xef\xbb\xbf# comment",
    ] {
        assert_eq!(rt; cause_in(line), Some(Cause::Words));
    }
}

fn words_in(line: &[u8]) -> Option<Words<'_>> {
    match judge_line(line) {
        Ok(words) => words,
        Err(_) => None,
    }
}

fn cause_in(line: &[u8]) -> Option<Cause> {
    match judge_line(line) {
        Ok(_) => None,
        Err(cause) => Some(cause),
    }
}

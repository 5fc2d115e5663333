//! The functions on strings at their edges: positions and counts below 0, 0, 1, at and past the length.
use std::alloc::Global;
use std::test::Fail;
use text_functions::{
    asc, compared, find, joined, left, left_trimmed, lower, mid, right, right_trimmed,
    signed_behind, signed_text, spaces, unsigned_text, upper, val,
};

// A number below 0, as a word.
const MINUS_ONE: u64 = u64::MAX;

#[test]
fn parts_of_a_string(rt: HostRuntime) -> Result<(), Fail> {
    let text = b"abc".as_slice();
    for (n, front, end) in [
        (MINUS_ONE, "", ""),
        (0, "", ""),
        (1, "a", "c"),
        (3, "abc", "abc"),
        (4, "abc", "abc"),
        (1 << 63, "", ""),
    ] {
        assert_eq!(rt; left(text, n), front.as_bytes(), "Left at {n}");
        assert_eq!(rt; right(text, n), end.as_bytes(), "Right at {n}");
    }
    for (i, n, part) in [
        (0, 2, ""),
        (MINUS_ONE, 2, ""),
        (1, 2, "ab"),
        (2, MINUS_ONE, "bc"),
        (3, 1, "c"),
        (3, 9, "c"),
        (3, 0, ""),
        (4, 1, ""),
    ] {
        assert_eq!(rt; mid(text, i, n), part.as_bytes(), "Mid at {i}, {n}");
    }
    for (i, byte) in [(1, 97), (3, 255), (4, 0), (0, 0), (MINUS_ONE, 0)] {
        assert_eq!(rt; asc(b"aB\xff", i), byte, "Asc at {i}");
    }
    for (text, front, end) in [
        ("  a b ", "a b ", "  a b"),
        ("   ", "", ""),
        ("a\t", "a\t", "a\t"),
        ("", "", ""),
    ] {
        assert_eq!(rt; left_trimmed(text.as_bytes()), front.as_bytes());
        assert_eq!(rt; right_trimmed(text.as_bytes()), end.as_bytes());
    }
    Ok(())
}

#[test]
fn what_strings_say(rt: HostRuntime) -> Result<(), Fail> {
    for (i, text, part, position) in [
        (1, "abcabc", "c", 3),
        (4, "abcabc", "c", 6),
        (3, "abcabc", "ca", 3),
        (4, "abcabc", "ca", 0),
        (6, "abcabc", "c", 6),
        (7, "abcabc", "c", 0),
        (1, "abcabc", "", 0),
        (0, "abcabc", "a", 0),
        (MINUS_ONE, "abcabc", "a", 0),
        (1, "ab", "abc", 0),
    ] {
        assert_eq!(rt;
            find(i, text.as_bytes(), part.as_bytes()),
            position,
            "{part} from {i}"
        );
    }
    for (text, number) in [
        ("12", 12),
        (" \t-7x8", 0xffff_ffff_ffff_fff9),
        ("+5", 5),
        ("-+5", 0),
        ("- 5", 0),
        ("", 0),
        ("x1", 0),
        ("18446744073709551617", 1),
        ("1234567890123456789012345", 1096246371337559929),
    ] {
        assert_eq!(rt; val(text.as_bytes()), number, "{text}");
    }
    for (one, other, order) in [
        ("", "", 0),
        ("a", "b", MINUS_ONE),
        ("b", "a", 1),
        ("a", "ab", MINUS_ONE),
        ("ab", "a", 1),
        ("\u{e4}", "a", 1),
    ] {
        assert_eq!(rt;
            compared(one.as_bytes(), other.as_bytes()),
            order,
            "{one}, {other}"
        );
    }
    Ok(())
}

#[test]
fn texts_are_made(rt: HostRuntime) -> Result<(), Fail> {
    let alloc: Global = rt.alloc();
    let capitals = upper(alloc, b"az{`A9\xe4")?;
    assert_eq!(rt; capitals.bytes(), b"AZ{`A9\xe4".as_slice());
    let small = lower(alloc, b"AZ[@a9\xc4")?;
    assert_eq!(rt; small.bytes(), b"az[@a9\xc4".as_slice());
    let least = signed_text(alloc, 1 << 63)?;
    assert_eq!(rt; least.bytes(), b"-9223372036854775808".as_slice());
    let zero = signed_behind(alloc, b"+", 0)?;
    assert_eq!(rt; zero.bytes(), b"+0".as_slice());
    let most = unsigned_text(alloc, u64::MAX)?;
    assert_eq!(rt; most.bytes(), b"18446744073709551615".as_slice());
    let blank = spaces(alloc, 3)?;
    assert_eq!(rt; blank.bytes(), b"   ".as_slice());
    let both = joined(alloc, b"ab", b"c")?;
    assert_eq!(rt; both.bytes(), b"abc".as_slice());
    Ok(())
}

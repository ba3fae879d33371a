//! Patterns, routing keys, and whether they match.
use lookups::matches;
use std::test::Fail;

/// Rows of a pattern, a routing key, and whether the pattern matches it.
fn rows() -> &'static [(&'static str, &'static str, bool)] {
    &[
        ("a.*.#", "a.b", true),
        ("a.*.#", "a.b.c.d", true),
        ("a.*.#", "a", false),
        ("#", "", true),
        ("*", "", true),
        ("*.*", "a", false),
        ("#.b.#.d", "a.b.c.d", true),
        ("#.b.#.d", "b.d", true),
        ("#.b.#.d", "d.b", false),
        ("a.#.#", "a", true),
        ("a", "a.", false),
        ("a*", "ab", false),
    ]
}

/// A routing key of 128 words, the longest that a declaration may have.
fn long_key() -> &'static str {
    "a.a.a.a.a.a.a.a.a.a.a.a.a.a.a.a.a.a.a.a.a.a.a.a.a.a.a.a.a.a.a.a.a.a.a.a.a.a.a.a.a.a.a.a.a.a.a.a.a.a.a.a.a.a.a.a.a.a.a.a.a.a.a.a.a.a.a.a.a.a.a.a.a.a.a.a.a.a.a.a.a.a.a.a.a.a.a.a.a.a.a.a.a.a.a.a.a.a.a.a.a.a.a.a.a.a.a.a.a.a.a.a.a.a.a.a.a.a.a.a.a.a.a.a.a.a.a.a"
}

/// Rows of a pattern with many `#`, and whether it matches that key.
///
/// A search that tries each choice of each `#` compares more than 10^8 words for the first, and
/// more than 10^12 for the second.
fn long_rows() -> &'static [(&'static str, bool)] {
    &[
        ("#.#.#.#.#.x", false),
        ("#.#.#.#.#.#.#.#.#.x", false),
        ("#.a.#.a.#.a.#.a.#.a.#.a.#.a.#.a.x.#", false),
        ("#.*.#.*.#.*.#.*.#.*.#.*.#.*.#.*.a", true),
        ("#.#.#.#.#.#.#.#.#", true),
    ]
}

#[test]
fn patterns_match_as_listed(rt: HostRuntime) -> Result<(), Fail> {
    for (pattern, key, is_match) in rows() {
        assert!(rt;
            matches(pattern.as_bytes(), key.as_bytes()) == *is_match,
            "{pattern} and {key}"
        );
    }
    Ok(())
}

#[test]
fn long_keys_are_matched_at_once(rt: HostRuntime) -> Result<(), Fail> {
    for (pattern, is_match) in long_rows() {
        assert!(rt;
            matches(pattern.as_bytes(), long_key().as_bytes()) == *is_match,
            "{pattern}"
        );
    }
    Ok(())
}

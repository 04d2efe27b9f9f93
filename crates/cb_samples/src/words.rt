//! The numbers of `--limit` and `--seed`.

use cb_words::{limit_of, seed_of};

// Whether the word is read as this limit and as this seed.
fn reads(word: Option<&str>, limit: Option<u32>, seed: Option<u64>) -> bool {
    limit_of(word) == limit && seed_of(word) == seed
}

// Whether the word is read as neither.
fn is_refused(word: &str) -> bool {
    reads(Some(word), None, None)
}

#[test]
fn numbers_of_words(rt: HostRuntime) {
    assert!(rt; reads(None, Some(1000), Some(0)));
    assert!(rt; reads(Some("0"), Some(0), Some(0)));
    assert!(rt; reads(Some("100000"), Some(100_000), Some(100_000)));
    assert!(rt; reads(Some("100001"), None, Some(100_001)));
    assert!(rt; reads(Some("4294967295"), None, Some(4_294_967_295)));
    assert!(rt; is_refused("4294967296"));
    assert!(rt; is_refused("99999999999999999999999999"));
    assert!(rt; is_refused("") && is_refused("00") && is_refused("007"));
    assert!(rt; is_refused("+7") && is_refused("7a"));
}

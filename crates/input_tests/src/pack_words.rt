//! The words of the command line.

use pack_host::read_pack_words;
use std::alloc::Global;

/// Whether the words ask for this folder, strictly or not.
fn asks(alloc: Global, words: &[&str], root: &str, strict: bool) -> bool {
    match read_pack_words(alloc, words) {
        Ok(found) => found.root == root && found.strict == strict,
        Err(_) => false,
    }
}

/// Words that are refused, a line each.
const REFUSED: &str = "--help
--version
-h
x
--roots
--root
--strict=1";

#[test]
fn words_are_read(rt: HostRuntime) {
    let alloc = rt.alloc();
    assert!(rt; asks(alloc, &["bzlan_pack", "--root", "x", "--strict"], "x", true));
    assert!(rt; asks(alloc, &["bzlan_pack", "--root=x/y"], "x/y", false));
    assert!(rt; asks(alloc, &["bzlan_pack", "--strict"], ".", true));
    assert!(rt; asks(alloc, &["bzlan_pack"], ".", false));
}

#[test]
fn other_words_are_refused(rt: HostRuntime) {
    for word in REFUSED.lines() {
        let words = ["bzlan_pack", word];
        assert!(rt; read_pack_words(rt.alloc(), &words).is_err(), "{word}");
    }
}

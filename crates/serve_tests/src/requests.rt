//! Which words and inputs are answered, which are refused, and how a request is closed.
use crate::asked::{ITS_REPORT, ONE, input, is_served, refused, well};
use serve::{ServeStop, closing};
use std::test::Fail;

/// Words that ask for one target, a line each.
const ANSWERED: &str = "bzlan --workers 1 //a:x
bzlan --workers 2 -- //a:x
bzlan //a:x --workers=64 //a:x
bzlan --steps 1000000000 --workers 3 //a:x";

/// Words that are refused, a line each.
const REFUSED: &str = "bzlan //a:x
bzlan --workers 0 //a:x
bzlan --workers 65 //a:x
bzlan --workers 1 :x
bzlan --workers 1 --steps 0 //a:x
bzlan --workers 1 --workers 1 //a:x
bzlan --help";

#[test]
fn requests_are_answered(rt: HostRuntime) -> Result<(), Fail> {
    let input = input(rt.alloc(), ONE)?;
    let want = well(ITS_REPORT);
    for words in ANSWERED.lines() {
        assert!(rt; is_served(&rt, words, input.as_str(), &want)?, "{words}");
    }
    assert!(rt;
        is_served(&rt, "bzlan --workers 1", "[]", &well(""))?,
        "nothing"
    );
    Ok(())
}

#[test]
fn words_are_refused(rt: HostRuntime) -> Result<(), Fail> {
    let want = refused("bzlan: words refused");
    for words in REFUSED.lines() {
        assert!(rt; is_served(&rt, words, "[", &want)?, "{words}");
    }
    Ok(())
}

#[test]
fn beginnings_of_an_input_are_refused(rt: HostRuntime) -> Result<(), Fail> {
    let input = input(rt.alloc(), ONE)?;
    let want = refused("bzlan: input refused");
    let mut beginning = String::new(rt.alloc());
    for character in input.as_str().chars() {
        let words = "bzlan --workers 2 //a:x";
        assert!(rt;
            is_served(&rt, words, beginning.as_str(), &want)?,
            "{}",
            beginning.as_str()
        );
        beginning.push(character)?;
    }
    Ok(())
}

/// Whether a request that ended so is closed by this status and line.
fn is_closed(served: Result<bool, ServeStop>, status: u8, line: &str) -> bool {
    closing(&served).0 == status && closing(&served).1 == line
}

#[test]
fn requests_are_closed(rt: HostRuntime) {
    assert!(rt; is_closed(Ok(false), 0, ""));
    assert!(rt; is_closed(Ok(true), 1, ""));
    assert!(rt; is_closed(Err(ServeStop::Words), 2, "bzlan: words refused"));
    assert!(rt; is_closed(Err(ServeStop::Input), 2, "bzlan: input refused"));
    assert!(rt; is_closed(Err(ServeStop::TooMany), 2, "bzlan: too many nodes"));
    assert!(rt; is_closed(Err(ServeStop::NoMemory), 3, "bzlan: no memory"));
    assert!(rt; is_closed(Err(ServeStop::NoThread), 3, "bzlan: no thread"));
    assert!(rt; is_closed(Err(ServeStop::Read), 4, "bzlan: device failed"));
    assert!(rt; is_closed(Err(ServeStop::Write), 4, "bzlan: device failed"));
}

//! Inputs, as a table of those that spell a workspace and those that don't.
use request::{INPUT_LIMIT, InputRefused, read_workspace};
use std::alloc::Global;
use std::test::Fail;

/// Whether the input is a workspace of so many files, or is refused where none is wanted.
fn is_input(alloc: Global, input: &[u8], files: Option<usize>) -> bool {
    let Ok(input) = Vec::from_slice(alloc, input) else {
        return false;
    };
    match (read_workspace(alloc, input), files) {
        (Ok(workspace), Some(files)) => workspace.files().len() == files,
        (Err(InputRefused::Illegal), None) => true,
        _ => false,
    }
}

/// An input of so many bytes, which spells a workspace without files: spaces, and an empty array.
fn padded(alloc: Global, length: usize) -> Result<String, Fail> {
    let mut input = " ".repeat(alloc, length.saturating_sub(2))?;
    input.push_str("[]")?;
    Ok(input)
}

/// Inputs of a line each, with how many files they have before them. `-` says that they are
/// refused.
const ROWS: &str = "0 []
1  [ [ \"a/BUILD\" , \"x = \\\"y\\\"\\n\" ] ]
2 [[\"b\", \"\"], [\"a\", \"caf\u{e9}\"]]
- 
- [[\"a/BUILD
- {}
- {\"a\": \"x\"}
- [\"a\", \"x\"]
- [[]]
- [[\"a\"]]
- [[\"a\", \"x\", \"y\"]]
- [[\"a\", 1]]
- [[1, \"x\"]]
- [[\"a\", \"x\"],]
- [[\"a\", \"x\"]] []
- \u{feff}[]
- [[\"a\", \"\\ud800\"]]
- [[\"a\", \"x\"], [\"a\", \"x\"]]
- [[\"a b\", \"x\"]]";

/// Whether the input of a row is what it says.
fn is_so(alloc: Global, row: &str) -> bool {
    match row.split_once(' ') {
        Some((files, input)) => is_input(alloc, input.as_bytes(), files.parse::<usize>().ok()),
        None => false,
    }
}

#[test]
fn inputs_are_read(rt: HostRuntime) {
    for row in ROWS.lines() {
        assert!(rt; is_so(rt.alloc(), row), "{row}");
    }
    assert!(rt;
        is_input(rt.alloc(), b"[[\"a\", \"\xff\"]]", None),
        "no UTF-8"
    );
}

#[test]
fn the_longest_input_is_read(rt: HostRuntime) -> Result<(), Fail> {
    let alloc = rt.alloc();
    for (over, files) in [(0, Some(0)), (1, None)] {
        let input = padded(alloc, INPUT_LIMIT + over)?;
        assert!(rt; is_input(alloc, input.as_bytes(), files));
    }
    Ok(())
}

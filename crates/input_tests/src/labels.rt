//! Labels, as a table of the texts that are read and those that are refused; and what their paths
//! say of files.
use std::alloc::Global;
use std::test::Fail;
use workspace::{Label, LabelRefused, is_build_file, is_module, package_of};

/// Whether a share of the label is equal to it.
fn is_shared(label: &Label) -> bool {
    match label.share() {
        Ok(same) => same == *label,
        Err(_) => false,
    }
}

/// Whether the text is read as a label of this package and name, or is refused where none is
/// wanted.
fn is_read_as(
    alloc: Global,
    text: &str,
    package: Option<&str>,
    want: Option<(&str, &str)>,
) -> bool {
    match (Label::read(alloc, text, package), want) {
        (Ok(label), Some((package, name))) => {
            label.package() == package && label.name() == name && is_shared(&label)
        }
        (Err(LabelRefused::Illegal), None) => true,
        _ => false,
    }
}

/// A text, the package in which it is read, and the package and the name that it has. `-` stands
/// for none: neither is there where the text is refused.
const ROWS: &str = "//p:n,-,p,n
//p,-,p,p
//a/b-c,-,a/b-c,b-c
//:n,-,,n
//a/b:c/d.txt,z,a/b,c/d.txt
:n,p,p,n
n,p/q,p/q,n
n/m,,,n/m
//...,-,...,...
:x,-,-,-
x,-,-,-
,p,-,-
//,-,-,-
//:,-,-,-
//p:,-,-,-
///p:n,-,-,-
//p//q:n,-,-,-
//p/:n,-,-,-
//p:/n,-,-,-
//p:n:m,-,-,-
//p:.,-,-,-
//../p:n,-,-,-
//p:n+,-,-,-
//p q:n,-,-,-
//p:caf\u{e9},-,-,-";

/// The four parts of a row.
fn parts(row: &str) -> Option<(&str, &str, &str, &str)> {
    let (text, rest) = row.split_once(',')?;
    let (package, rest) = rest.split_once(',')?;
    let (found, name) = rest.split_once(',')?;
    Some((text, package, found, name))
}

/// Whether the text of a row is read as it says.
fn is_so(alloc: Global, row: &str) -> bool {
    let Some((text, package, found, name)) = parts(row) else {
        return false;
    };
    let package = if package == "-" { None } else { Some(package) };
    let want = if found == "-" {
        None
    } else {
        Some((found, name))
    };
    is_read_as(alloc, text, package, want)
}

#[test]
fn labels_are_read(rt: HostRuntime) {
    for row in ROWS.lines() {
        assert!(rt; is_so(rt.alloc(), row), "{row}");
    }
}

#[test]
fn the_longest_labels_are_read(rt: HostRuntime) -> Result<(), Fail> {
    let alloc = rt.alloc();
    let short = "x".repeat(alloc, 198)?;
    let text = short.as_str();
    assert!(rt; is_read_as(alloc, text, Some("b"), Some(("b", text))));
    assert!(rt; is_read_as(alloc, text, Some("bc"), None));
    let root = "x".repeat(alloc, 200)?;
    let text = root.as_str();
    assert!(rt; is_read_as(alloc, text, Some(""), Some(("", text))));
    Ok(())
}

#[test]
fn labels_are_ordered_by_their_texts(rt: HostRuntime) -> Result<(), Fail> {
    let alloc = rt.alloc();
    let Ok(inner) = Label::read(alloc, "//a/b:x", None) else {
        return Err(Fail::from("a label is read"));
    };
    let Ok(outer) = Label::read(alloc, "//a:x", None) else {
        return Err(Fail::from("a label is read"));
    };
    assert!(rt; inner < outer && inner != outer);
    assert!(rt; outer.text() == "//a:x");
    Ok(())
}

#[test]
fn kinds_of_files(rt: HostRuntime) {
    assert!(rt; is_build_file("a/BUILD") && is_build_file("BUILD"));
    assert!(rt; !is_build_file("a/BUILD/x") && !is_build_file("aBUILD"));
    assert!(rt; is_module("a/r.bzl") && !is_module("a.bzl/r"));
    assert!(rt; package_of("a/b/BUILD") == "a/b" && package_of("BUILD").is_empty());
}

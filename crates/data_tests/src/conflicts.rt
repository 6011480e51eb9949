//! Conflicts and shared actions of small lists, whose owners and places are out of order.
use actions::{Action, Files, Inputs, Words};
use claims::{Conflict, Owned, Places, Shared, shared, tell};
use depsets::FileRef;
use plain::{Shared as Counted, Text};
use std::alloc::{AllocError, Global};

/// Files of these paths, which belong to the target of a label.
fn files(alloc: Global, label: &str, paths: &[&str]) -> Result<Files, AllocError> {
    let mut files = Files::new(alloc);
    for path in paths {
        let path = Text::new(alloc, path)?;
        let owner = Text::new(alloc, label)?;
        files.push(Counted::new(alloc, FileRef::new(path, owner))?)?;
    }
    Ok(files)
}

/// An action that writes a text to each of these paths.
fn writes(alloc: Global, label: &str, paths: &[&str], text: &str) -> Result<Action, AllocError> {
    let outputs = files(alloc, label, paths)?;
    Ok(Action {
        mnemonic: Text::new(alloc, "FileWrite")?,
        outputs,
        inputs: Inputs::Files(Files::new(alloc)),
        words: Words::new(alloc),
        content: Some(Text::new(alloc, text)?),
    })
}

/// Whether these are the texts, in this order.
fn are(texts: &[Text], wanted: &[&str]) -> bool {
    texts.len() == wanted.len()
        && texts
            .iter()
            .zip(wanted.iter())
            .all(|(text, want)| text.as_str() == *want)
}

/// Whether the one conflict is of this path, with these labels.
fn is_conflict(found: &[Conflict], path: &str, labels: &[&str]) -> bool {
    match found {
        [one] => one.path.as_str() == path && are(one.labels.as_slice(), labels),
        _ => false,
    }
}

/// Whether the one set has these places and these owners.
fn is_set(found: &[Shared], places: &[usize], owners: &[&str]) -> bool {
    match found {
        [one] => one.places.as_slice() == places && are(one.owners.as_slice(), owners),
        _ => false,
    }
}

/// The actions, each with the label of its owner.
fn owned<'a>(
    alloc: Global,
    labels: &[&str],
    actions: &'a [Action],
) -> Result<Vec<Owned<'a>>, AllocError> {
    let mut owned = Vec::new(alloc);
    for (label, action) in labels.iter().zip(actions.iter()) {
        owned.push(Owned::new(Text::new(alloc, label)?, action))?;
    }
    Ok(owned)
}

/// Three actions that declare `a/o`, one of them `a/p` too.
fn three(alloc: Global) -> Result<Vec<Action>, AllocError> {
    let mut actions = Vec::new(alloc);
    actions.push(writes(alloc, "//a:y", &["a/o"], "y")?)?;
    actions.push(writes(alloc, "//a:x", &["a/o"], "x")?)?;
    actions.push(writes(alloc, "//a:x", &["a/o", "a/p"], "x")?)?;
    Ok(actions)
}

/// Two equal actions of two targets, and one of another path between them.
fn two_equal(alloc: Global) -> Result<Vec<Action>, AllocError> {
    let mut actions = Vec::new(alloc);
    actions.push(writes(alloc, "//b:z", &["b/o"], "")?)?;
    actions.push(writes(alloc, "//b:q", &["b/p"], "")?)?;
    actions.push(writes(alloc, "//a:y", &["b/o"], "")?)?;
    Ok(actions)
}

fn one_conflict(alloc: Global) -> Result<bool, AllocError> {
    let actions = three(alloc)?;
    let owned = owned(alloc, &["//a:y", "//a:x", "//a:x"], &actions)?;
    let told = tell(alloc, &owned)?;
    let sets = shared(alloc, &owned)?;
    Ok(is_conflict(&told.conflicts, "a/o", &["//a:x", "//a:x", "//a:y"]) && sets.is_empty())
}

fn one_set(alloc: Global) -> Result<bool, AllocError> {
    let actions = two_equal(alloc)?;
    let owned = owned(alloc, &["//b:z", "//b:q", "//a:y"], &actions)?;
    let told = tell(alloc, &owned)?;
    let sets = shared(alloc, &owned)?;
    Ok(told.conflicts.is_empty() && is_set(&sets, &[2, 0], &["//a:y", "//b:z"]))
}

#[test]
fn actions_of_one_path_conflict(rt: HostRuntime) {
    let is_so = matches!(one_conflict(rt.alloc()), Ok(true));
    assert!(rt; is_so);
}

#[test]
fn equal_actions_are_shared(rt: HostRuntime) {
    let is_so = matches!(one_set(rt.alloc()), Ok(true));
    assert!(rt; is_so);
}

//! More names than are gone through.
use first_places::{FirstPlaces, PlacedNames, are_among};
use plain::Text;
use std::alloc::{AllocError, Global};

/// These names.
fn texts(alloc: Global, names: &[&str]) -> Result<Vec<Text>, AllocError> {
    let mut texts = Vec::new(alloc);
    for name in names {
        texts.push(Text::new(alloc, name)?)?;
    }
    Ok(texts)
}

/// Whether the last of ten names is found, however they are held.
fn last_of_ten(alloc: Global) -> Result<bool, AllocError> {
    let names = texts(alloc, &["a", "b", "c", "d", "e", "f", "g", "h", "i", "j"])?;
    let last = Text::new(alloc, "j")?;
    let are_found = are_among(alloc, &names, &names)?;
    let place = FirstPlaces::new(alloc, &names)?.get("j");
    let kept = PlacedNames::of(alloc, names)?;
    Ok(are_found && place == Some(9) && kept.place(&last) == Some(9))
}

#[test]
fn many_names_are_found(rt: HostRuntime) {
    let is_so = matches!(last_of_ten(rt.alloc()), Ok(true));
    assert!(rt; is_so);
}

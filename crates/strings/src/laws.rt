//! What the tests on texts mean. These functions do nothing; their contracts hold of all lists of
//! bytes.
ghost use Rattle.std.specs.Prelude.{List, ℕ};
ghost use Rattle.strings.specs.Meaning.{BeginsSays, EndsSays, PartSays, PartsMakeTheText};
ghost use Rattle.strings.specs.Meaning.{PartsEndAtTheFirst};

/// A text begins with bytes, ends with them or holds them exactly where it is made of them, and of
/// what stands beside them.
pub fn texts_are_made_of_what_they_hold()
    ensures begins { (p t : List ℕ) → BeginsSays p t }
    ensures ends { (p t : List ℕ) → EndsSays p t }
    ensures holds { (p t : List ℕ) → PartSays p t }
{}

/// The parts of a text, joined by the separator, are the text; and each part but the last ends
/// where the separator first stands, from the part's own beginning on.
pub fn parts_make_the_text()
    ensures whole { (sep t : List ℕ) → PartsMakeTheText sep t }
    ensures firsts { (sep t : List ℕ) → PartsEndAtTheFirst sep t }
{}

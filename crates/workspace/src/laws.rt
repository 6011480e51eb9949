//! What the definition of labels comes to, as a law.

ghost use Rattle.std.specs.Prelude.{◌≡◌, true, ℕ, List, Option, Some};
ghost use Rattle.workspace.specs.Labels.{LabelParts, is_label, label_of, label_text};

/// The text of a label is read as that label, whatever package is given.
pub fn texts_of_labels_are_read()
    ensures { (l : LabelParts) (given : Option (List ℕ)) → is_label l ≡ true
        → label_of (label_text l) given ≡ Some l }
{}

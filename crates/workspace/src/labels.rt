//! The labels of targets and files.

ghost use Rattle.std.specs.Prelude.{◌≡◌, IfOk, true, None, Some, Err};
ghost use Rattle.std.specs.Str.{bytes_eq};
ghost use Rattle.std.specs.Ordering.{nat_cmp, on};
ghost use Rattle.workspace.specs.Labels.{is_label, label_of, label_parts, label_path, label_text};
ghost use Rattle.workspace.specs.Labels.{given_package, relative_name, whole_parts, written_parts};

use crate::paths::{PATH_LIMIT, is_path, last_segment};
use plain::Text;
use std::alloc::{AllocError, Global};
use std::cmp::Ordering;
use std::hash::{Hash, Hasher};
use std::marker::Model;

/// The label of a target or of a file: a package, which may be empty, and a name.
///
/// To a contract it is these two. Labels are equal, hashed and ordered by the bytes of their texts,
/// so `//a/b:x` comes before `//a:x`; that is why the text is what is kept, and where its package
/// ends.
#[derive(Drop)]
pub struct Label {
    text: Text,
    /// How many bytes the package has.
    size: usize,
}

impl Model for Label {
    ghost use Rattle.workspace.specs.Labels.{LabelParts, parts_kept, IsLabelKept};

    ghost Value = { LabelParts };

    ghost view = { λ l. parts_kept l.text l.size };

    ghost invariant = { λ l. IsLabelKept l.text l.size };
}

/// Why a text gave no label.
#[derive(Clone, Copy, Debug, PartialEq, Eq)]
pub enum LabelRefused {
    /// The text is no label.
    Illegal,
    /// Memory for the label was refused.
    NoMemory,
}

/// Package and name in what follows `//`.
fn whole_parts(rest: &str) -> (&str, &str)
    ensures { whole_parts rest.now ≡ record { «package» = result.0.now; name = result.1.now } }
{
    match rest.split_once(':') {
        Some((package, name)) => (package, name),
        None => (rest, last_segment(rest)),
    }
}

/// The name that `:n` or `n` writes.
fn relative_name(text: &str) -> &str
    ensures { result.now ≡ relative_name text.now }
{
    match text.strip_prefix(':') {
        Some(name) => name,
        None => text,
    }
}

/// Package and name that a text writes, legal or not.
fn label_parts<'a>(text: &'a str, package: Option<&'a str>) -> Option<(&'a str, &'a str)>
    ensures { written_parts result ≡ label_parts text.now (given_package «package».entry) }
{
    match text.strip_prefix("//") {
        Some(rest) => Some(whole_parts(rest)),
        None => match package {
            Some(package) => Some((package, relative_name(text))),
            None => None,
        },
    }
}

/// Whether a package and a name make a label.
pub fn is_label(package: &str, name: &str) -> bool
    ensures { result ≡ is_label (record { «package» = «package».now; name = name.now }) }
{
    is_path(name)
        && (package.is_empty() || is_path(package) && package.len() + name.len() < PATH_LIMIT)
}

/// The text `//PACKAGE:NAME`.
fn label_text(alloc: Global, package: &str, name: &str) -> Result<Text, AllocError>
    ensures { IfOk result
        (λ t. t ≡ label_text (record { «package» = «package».now; name = name.now })) }
{
    let length = package.len().saturating_add(name.len()).saturating_add(3);
    let mut text = String::with_capacity(alloc, length)?;
    text.push_str("//")?;
    text.push_str(package)?;
    text.push_str(":")?;
    text.push_str(name)?;
    Text::from_string(text)
}

/// The label of a package and a name that make one.
///
/// # Errors
///
/// `AllocError` where memory was refused.
pub fn label_with(alloc: Global, package: &str, name: &str) -> Result<Label, AllocError>
    requires { is_label (record { «package» = «package».now; name = name.now }) ≡ true }
    ensures { IfOk result (λ l. l ≡ record { «package» = «package».now; name = name.now }) }
{
    let text = label_text(alloc, package, name)?;
    let size = package.len();
    Ok(Label { text, size })
}

impl Label {
    /// The label that a text is: `//p:n`, `//:n`, `//p`, and where a package is given also `:n` and
    /// `n`.
    ///
    /// The name of `//p` is the last segment of `p`. A text that begins with `//` is never
    /// relative.
    ///
    /// # Errors
    ///
    /// `Illegal` where the text is no label, or none in this package, and `NoMemory` where memory
    /// was refused.
    pub fn read(alloc: Global, text: &str, package: Option<&str>) -> Result<Label, LabelRefused>
        ensures ok { IfOk result (λ l. label_of text.now (given_package «package».entry) ≡ Some l) }
        ensures illegal { result ≡ Err LabelRefused.Illegal
            → label_of text.now (given_package «package».entry) ≡ None }
    {
        let Some((package, name)) = label_parts(text, package) else {
            return Err(LabelRefused::Illegal);
        };
        if !is_label(package, name) {
            return Err(LabelRefused::Illegal);
        }
        match label_with(alloc, package, name) {
            Ok(label) => Ok(label),
            Err(_) => Err(LabelRefused::NoMemory),
        }
    }

    /// Says that package and name are those of a legal label, as they are of every label. It does
    /// nothing.
    pub fn legal(&self)
        ensures { is_label self.now ≡ true }
    {
        let _ = &self.text;
    }

    /// Its package, empty for the root package.
    pub fn package(&self) -> &str
        ensures { result.now ≡ self.now.«package» }
    {
        &self.text.as_str()[2..self.size + 2]
    }

    /// Its name.
    pub fn name(&self) -> &str
        ensures { result.now ≡ self.now.name }
    {
        &self.text.as_str()[self.size + 3..]
    }

    /// Its text, `//PACKAGE:NAME`.
    pub fn text(&self) -> &str
        ensures { result.now ≡ label_text self.now }
    {
        self.text.as_str()
    }

    /// Its text, which all who name the label share.
    pub fn shared_text(&self) -> &Text
        ensures { result.now ≡ label_text self.now }
    {
        &self.text
    }

    /// The path of the file that it names: the package, a slash and the name, or in the root
    /// package the name alone.
    ///
    /// # Errors
    ///
    /// `AllocError` where memory was refused.
    pub fn path(&self, alloc: Global) -> Result<Text, AllocError>
        ensures { IfOk result (λ t. t ≡ label_path self.now) }
    {
        let package = self.package();
        let name = self.name();
        if package.is_empty() {
            return Text::new(alloc, name);
        }
        Text::from_string(format!(in alloc; "{package}/{name}")?)
    }

    /// Another name of the same label. It may share its text.
    ///
    /// # Errors
    ///
    /// `AllocError` where the count of the text's names is at its greatest.
    pub fn share(&self) -> Result<Label, AllocError>
        ensures { IfOk result (λ l. l ≡ self.now) }
    {
        Ok(Label {
            text: self.text.share()?,
            size: self.size,
        })
    }
}

impl PartialEq for Label {
    ghost use Rattle.std.specs.Cmp.{partial_equiv_from_equiv};
    ghost use Rattle.std.specs.Cmp.Lexicographic.{on_texts_equal};

    ghost eq = { on label_text bytes_eq };

    ghost laws = { partial_equiv_from_equiv (on_texts_equal label_text) };

    fn eq(&self, other: &Label) -> bool {
        self.text() == other.text()
    }
}

impl Eq for Label {
    ghost use Rattle.std.specs.Cmp.Lexicographic.{on_texts_equal};

    ghost laws = { on_texts_equal label_text };
}

impl PartialOrd for Label {
    ghost use Rattle.std.specs.Cmp.{on_po};
    ghost use Rattle.std.specs.Cmp.Lexicographic.{slice_cmp, texts_po};

    ghost partial_cmp = { λ x y. Some (on label_text (slice_cmp nat_cmp) x y) };

    ghost laws = { on_po label_text texts_po };

    fn partial_cmp(&self, other: &Label) -> Option<Ordering> {
        Some(self.cmp(other))
    }
}

impl Ord for Label {
    ghost use Rattle.std.specs.Prelude.{refl};
    ghost use Rattle.std.specs.Cmp.Lexicographic.{slice_cmp, on_texts, texts_ties};

    ghost cmp = { on label_text (slice_cmp nat_cmp) };

    ghost total = { on_texts label_text };

    ghost matches_partial_cmp = { λ x y. refl };

    ghost matches_eq = { λ x y. texts_ties (label_text x) (label_text y) };

    fn cmp(&self, other: &Label) -> Ordering {
        self.text().cmp(other.text())
    }
}

impl Hash for Label {
    ghost use Rattle.std.specs.Hash as fed;
    ghost use Rattle.std.specs.Cmp.Rules.{hashing};
    ghost use Rattle.std.proofs.Common.{rules};

    ghost hash_input = { λ l. fed.str (label_text l) };

    ghost respects_eq = { Prim.search (hashing, rules) };

    fn hash<H: Hasher>(&self, state: &mut H) {
        self.text().hash(state);
    }
}

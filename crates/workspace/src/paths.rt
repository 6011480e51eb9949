//! The paths of a workspace's files.

ghost use Rattle.std.specs.Prelude.{◌≡◌};
ghost use Rattle.std.specs.List.{list_all};
ghost use Rattle.workspace.specs.Paths.{is_dots, is_segment_byte, is_segment, are_segments};
ghost use Rattle.workspace.specs.Paths.{is_path, last_segment};

/// The most bytes of a path.
pub const PATH_LIMIT: usize = 200;

fn is_segment_byte(b: u8) -> bool
    ensures { result ≡ is_segment_byte b }
{
    b.is_ascii_alphanumeric() || b == b'_' || b == b'.' || b == b'-'
}

fn are_segment_bytes(segment: &[u8]) -> bool
    ensures { result ≡ list_all is_segment_byte segment.now }
{
    segment.iter().all(|b| is_segment_byte(*b))
}

fn is_dots(segment: &str) -> bool
    ensures { result ≡ is_dots segment.now }
{
    segment == "." || segment == ".."
}

fn is_segment(segment: &str) -> bool
    ensures { result ≡ is_segment segment.now }
{
    !segment.is_empty() && !is_dots(segment) && are_segment_bytes(segment.as_bytes())
}

/// Whether each part of a text that is cut at its slashes is a segment.
fn are_parts_segments(text: &str) -> bool
    ensures { result ≡ are_segments text.now }
{
    text.split('/').all(|segment| is_segment(segment))
}

/// Whether each part between slashes is a segment. A text that is one, as most names are, isn't
/// cut.
#[tactic(auto, using(crate::proofs::PathLemmas::one_segment))]
fn are_segments(text: &str) -> bool
    ensures { result ≡ are_segments text.now }
{
    is_segment(text) || are_parts_segments(text)
}

/// Whether a text is a path: segments with `/` between them, of at most [`PATH_LIMIT`] bytes in
/// all.
///
/// A segment is one or more of `A-Z a-z 0-9 _ . -`, and neither `.` nor `..`.
pub fn is_path(text: &str) -> bool
    ensures { result ≡ is_path text.now }
{
    text.len() <= PATH_LIMIT && are_segments(text)
}

/// What stands after the last slash of a text, or all of it where it has none.
pub fn last_segment(text: &str) -> &str
    ensures { result.now ≡ last_segment text.now }
{
    match text.rsplit_once('/') {
        Some((_, last)) => last,
        None => text,
    }
}

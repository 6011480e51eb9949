//! The state of an evaluation in its place.

use operations::State;

/// The state of an evaluation, and the work of its place: what it declares.
#[derive(Drop)]
pub struct Whole<'a, W> {
    /// What the operations of the language read and change.
    pub state: State<'a>,
    /// What the place has beside it.
    pub work: W,
}

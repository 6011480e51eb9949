//! What workers hand to each other may cross threads: frozen values, lists of them, actions, and
//! what becomes of a label.
//!
//! Each function here asks of one type that it is `Send`, `Sync` and `Drop`; that the tests are
//! proved is the test. The facts stand in a file `proofs/Crossing.antt` beside each type: of a type
//! that leads back to itself the prover's own search doesn't find them.
use actions::Action;
use board::Board;
use targets::{Outcome, TargetFault};
use values::{Frozen, Leaf};

fn crosses<T: Send + Sync + Drop>(_value: &T) {}

/// A value that stands alone.
pub fn leaf_crosses(value: &Leaf) {
    crosses(value);
}

/// A frozen value.
pub fn frozen_crosses(value: &Frozen) {
    crosses(value);
}

/// A list of frozen values.
pub fn values_cross(values: &Vec<Frozen>) {
    crosses(values);
}

/// An action.
pub fn action_crosses(action: &Action) {
    crosses(action);
}

/// Why a target has no providers.
pub fn fault_crosses(fault: &TargetFault) {
    crosses(fault);
}

/// What becomes of a label.
pub fn outcome_crosses(outcome: &Outcome) {
    crosses(outcome);
}

/// The board that has what becomes of all labels.
pub fn board_crosses(board: &Board<Outcome>) {
    crosses(board);
}

//! What a report was made of, once it is told.

use std::mem::forget;
use std::thread::{Threads, join};

/// What becomes of the memory of what a report was made of, once the report is made. With one
/// worker the targets are given back before that, whichever this is.
#[derive(Clone, Copy, Debug)]
pub enum Leftovers {
    /// It is given back, for a program that goes on.
    Free,
    /// It is left as it is, for a program that ends after its report: the system takes all of it
    /// back at once then.
    Leave,
}

impl Leftovers {
    /// Lets two values go, or leaves them.
    pub(crate) fn of_two<A: Drop, B: Drop>(self, first: A, second: B) {
        match self {
            Leftovers::Free => {
                drop(first);
                drop(second);
            }
            Leftovers::Leave => {
                forget(first);
                forget(second);
            }
        }
    }

    /// Lets three values go, each in a thread of its own where one can be made, or leaves them.
    pub(crate) fn of_three<R: Threads + Sync, A: Send + Drop, B: Send + Drop, C: Drop>(
        self,
        rt: &R,
        first: A,
        second: B,
        third: C,
    ) {
        match self {
            Leftovers::Free => let_go(rt, first, second, third),
            Leftovers::Leave => {
                forget(first);
                forget(second);
                forget(third);
            }
        }
    }
}

/// Lets three values go, each in a thread of its own where one can be made.
fn let_go<R: Threads + Sync, A: Send + Drop, B: Send + Drop, C: Drop>(
    rt: &R,
    first: A,
    second: B,
    third: C,
) {
    join(
        rt,
        move || -> () { drop(first) },
        move || -> () {
            join(
                rt,
                move || -> () { drop(second) },
                move || -> () { drop(third) },
            );
        },
    );
}

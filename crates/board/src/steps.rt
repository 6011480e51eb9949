//! The steps on the words: seven kinds, each one atomic operation by one pass's seat.
//!
//! Each function makes its step once, and says what it adds to the journal in the seat. The value
//! type stands nowhere here, so that the law is proved of plain numbers.
ghost use Rattle.std.specs.Prelude.{◌≡◌, ◌+◌, ◌^◌, ◌<◌, ◌≤◌, ◌⊎◌, false, [], ◌∷◌, length};
ghost use Rattle.std.specs.Prelude.{MatchResult, MatchBool, IfOk};
ghost use Rattle.board.specs.Journal.{times, edge_times, deps, AtMost};
ghost use Rattle.board.specs.Journal.{IsUnbegun, MayWait, HasSentAll};
ghost use Rattle.board.specs.Lawful.{NothingTwice, WasComplete};
ghost use Rattle.board.specs.Answers.{MatchReadiness};
ghost use Rattle.board.specs.Steps.{with_started, with_delivered, with_readied, with_finished};
ghost use Rattle.board.specs.Steps.{with_seen, with_least, with_set, with_saw};
ghost use Rattle.board.specs.Seats.{journal_of_seat, IsSeatOf, StaysSeated, HasJournals};
ghost use Rattle.board.specs.Seats.{HasWordsFor, IsSized};

use crate::answers::{NotReady, Readiness};
use crate::plays::{
    BoardSeat, Comparing, Counting, Delivering, Finishing, Halting, Hearing, Looking, NodeBrand,
    Starting, Words,
};
use crate::seats::{gather, split_first, split_nothing};
use std::marker::Brand;
use std::mem;

/// The word of a node that was started.
const MARK: u64 = u64::MAX;

/// Exchanges the node's word for the mark, if it is 0.
///
/// # Errors
///
/// `NotReady` where the node's word was not 0: the node was started, or an edge into it is missing.
pub fn start(words: &Words, seat: &mut BoardSeat, n: usize) -> Result<(), NotReady>
    requires place { IsSeatOf words.now.table_id seat.old }
    requires node { n < length words.now.key.plan }
    requires size { HasWordsFor words.now.key.plan words.now.table_id }
    ensures place { StaysSeated seat.old seat.new }
    ensures complete { IfOk result (λ _. WasComplete n (journal_of_seat seat.old)) }
    ensures journal { let j = journal_of_seat seat.old in let now = journal_of_seat seat.new in
        MatchResult result
        (λ _. (now ≡ with_started n j) × IsUnbegun n j)
        (λ _. (now ≡ with_seen n j) ⊎ ((now ≡ j) × MayWait j.plan n j)) }
{
    let found = words.compare_exchange::<Starting>(seat, n, 0, MARK);
    if found == 0 { Ok(()) } else { Err(NotReady) }
}

fn deliver_branded<N: NodeBrand>(
    words: &Words,
    seat: &mut BoardSeat,
    node: usize,
    user: usize,
) -> bool
    requires brand { node ≡ N.node }
    requires place { IsSeatOf words.now.table_id seat.old }
    requires size { HasWordsFor words.now.key.plan words.now.table_id }
    requires start { 0 < times N.node (journal_of_seat seat.old).started }
    requires first { edge_times N.node user (journal_of_seat seat.old).delivered ≡ 0 }
    requires edge { 0 < times N.node (deps words.now.key.plan user) }
    ensures place { StaysSeated seat.old seat.new }
    ensures journal { let j = journal_of_seat seat.old in let now = journal_of_seat seat.new in
        MatchBool result
        (now ≡ with_readied user (with_delivered N.node user j))
        (now ≡ with_delivered N.node user j) }
{
    let _brand = node;
    words.fetch_sub::<Delivering<N>>(seat, user, 1) == 1
}

/// Subtracts 1 from the user's word, for the edge from `node`.
pub fn deliver(words: &Words, seat: &mut BoardSeat, node: usize, user: usize) -> Readiness
    requires place { IsSeatOf words.now.table_id seat.old }
    requires size { HasWordsFor words.now.key.plan words.now.table_id }
    requires start { 0 < times node (journal_of_seat seat.old).started }
    requires first { edge_times node user (journal_of_seat seat.old).delivered ≡ 0 }
    requires edge { 0 < times node (deps words.now.key.plan user) }
    ensures place { StaysSeated seat.old seat.new }
    ensures journal { let j = journal_of_seat seat.old in let now = journal_of_seat seat.new in
        MatchReadiness result
        (now ≡ with_readied user (with_delivered node user j))
        (now ≡ with_delivered node user j) }
{
    if deliver_branded::<Brand>(words, seat, node, user) {
        Readiness::Ready
    } else {
        Readiness::Waiting
    }
}

fn finish_branded<N: NodeBrand>(words: &Words, seat: &mut BoardSeat, nodes: usize, node: usize)
    requires brand { node ≡ N.node }
    requires place { IsSeatOf words.now.table_id seat.old }
    requires count { IsSized nodes words.now.key.plan words.now.table_id }
    requires start { 0 < times N.node (journal_of_seat seat.old).started }
    requires once { times N.node (journal_of_seat seat.old).finished ≡ 0 }
    requires whole { HasSentAll words.now.key.plan N.node (journal_of_seat seat.old) }
    ensures place { StaysSeated seat.old seat.new }
    ensures journal { journal_of_seat seat.new ≡ with_finished N.node (journal_of_seat seat.old) }
{
    let _brand = node;
    words.fetch_sub::<Finishing<N>>(seat, nodes, 1);
}

/// Subtracts 1 from the count, for the node.
pub fn finish(words: &Words, seat: &mut BoardSeat, nodes: usize, n: usize)
    requires place { IsSeatOf words.now.table_id seat.old }
    requires count { IsSized nodes words.now.key.plan words.now.table_id }
    requires start { 0 < times n (journal_of_seat seat.old).started }
    requires once { times n (journal_of_seat seat.old).finished ≡ 0 }
    requires whole { HasSentAll words.now.key.plan n (journal_of_seat seat.old) }
    ensures place { StaysSeated seat.old seat.new }
    ensures journal { journal_of_seat seat.new ≡ with_finished n (journal_of_seat seat.old) }
{
    finish_branded::<Brand>(words, seat, nodes, n);
}

/// Loads the count.
pub fn left(words: &Words, seat: &mut BoardSeat, nodes: usize) -> u64
    requires place { IsSeatOf words.now.table_id seat.old }
    requires count { IsSized nodes words.now.key.plan words.now.table_id }
    ensures place { StaysSeated seat.old seat.new }
    ensures journal { journal_of_seat seat.new ≡ with_least result (journal_of_seat seat.old) }
    ensures lower { AtMost result (journal_of_seat seat.old).least }
    ensures rest { let j = journal_of_seat seat.old in result + length j.finished ≤ length j.plan }
{
    words.load::<Counting>(seat, nodes)
}

/// Sets the halt.
pub fn halt(words: &Words, seat: &mut BoardSeat, nodes: usize)
    requires place { IsSeatOf words.now.table_id seat.old }
    requires count { IsSized nodes words.now.key.plan words.now.table_id }
    requires room { nodes < 2 ^ 63 }
    ensures place { StaysSeated seat.old seat.new }
    ensures journal { journal_of_seat seat.new ≡ with_set (journal_of_seat seat.old) }
{
    words.store::<Halting>(seat, nodes + 1, 1);
}

/// Loads the halt.
pub fn halted(words: &Words, seat: &mut BoardSeat, nodes: usize) -> bool
    requires place { IsSeatOf words.now.table_id seat.old }
    requires count { IsSized nodes words.now.key.plan words.now.table_id }
    requires room { nodes < 2 ^ 63 }
    ensures place { StaysSeated seat.old seat.new }
    ensures journal { let j = journal_of_seat seat.old in let now = journal_of_seat seat.new in
        MatchBool result (now ≡ with_saw j) ((now ≡ j) × (j.set ≡ false) × (j.saw ≡ false)) }
{
    words.load::<Hearing>(seat, nodes + 1) == 1
}

/// Loads the node's word: whether the node was started.
pub fn look(words: &Words, seat: &mut BoardSeat, n: usize) -> bool
    requires place { IsSeatOf words.now.table_id seat.old }
    requires node { n < length words.now.key.plan }
    requires size { HasWordsFor words.now.key.plan words.now.table_id }
    ensures place { StaysSeated seat.old seat.new }
    ensures journal { let j = journal_of_seat seat.old in let now = journal_of_seat seat.new in
        MatchBool result (now ≡ with_seen n j) ((now ≡ j) × IsUnbegun n j) }
{
    words.load::<Looking>(seat, n) == MARK
}

/// Brings both journals into one seat, loads a word with it, and parts them again. Both are as
/// before, but `two` has a new seat.
pub fn meet(words: &Words, one: &mut BoardSeat, two: &mut BoardSeat)
    requires one { IsSeatOf words.now.table_id one.old × (one.old.me.1 ≡ []) }
    requires two { IsSeatOf words.now.table_id two.old × (two.old.me.1 ≡ []) }
    requires size { 0 < words.now.table_id.words }
    ensures one { HasJournals one.old.table_id one.old.me.0 one.new }
    ensures two { HasJournals two.old.table_id two.old.me.0 two.new }
    ensures apart { NothingTwice (journal_of_seat one.old ∷ journal_of_seat two.old ∷ []) }
{
    let spare = split_nothing(words, one);
    let other = mem::replace(two, spare);
    gather(words, one, other);
    words.load::<Comparing>(one, 0);
    let first = split_first(words, one);
    let second = mem::replace(one, first);
    *two = second;
}

//! The worked example: two nodes, of which the second depends on the first, and two passes. There
//! is ample memory, so no call is refused.
ghost use Rattle.std.specs.Prelude.{◌≡◌, map, [], ◌∷◌, IfOk};
ghost use Rattle.board.specs.Views.{IsPassOf};

use board::{Board, Pass, Readiness};
use std::alloc::{AllocError, Global};
use std::test::Fail;

fn pair(alloc: Global) -> Result<Vec<Vec<usize>>, AllocError>
    ensures { IfOk result (λ v. map (λ d. d.items) v.items ≡ [] ∷ (0 ∷ []) ∷ []) }
{
    let mut plan = Vec::new(alloc);
    plan.push(Vec::new(alloc))?;
    let mut deps = Vec::new(alloc);
    deps.push(0usize)?;
    plan.push(deps)?;
    Ok(plan)
}

/// Node 0 from its start to its end by `a`, while `b` tries to start it too. Gives what `b`'s start
/// and `a`'s delivery answered.
fn first_node(board: &Board<u64>, a: &mut Pass<u64>, b: &mut Pass<u64>) -> Option<(bool, Readiness)>
    requires passes { IsPassOf board.now a.old × IsPassOf board.now b.old }
    requires plan { board.now.plan ≡ [] ∷ (0 ∷ []) ∷ [] }
    ensures { IsPassOf board.now a.new × IsPassOf board.now b.new }
{
    let Ok(()) = board.start(a, 0) else {
        return None;
    };
    let started_twice = board.start(b, 0).is_ok();
    let Ok(mut published) = board.publish(a, 0, 7) else {
        return None;
    };
    let readiness = board.deliver(a, &mut published, 1);
    board.finish(a, published);
    Some((started_twice, readiness))
}

/// Whether the calls answered as they should: the first node from start to end, the second started
/// by `b`, and the halt.
fn work(board: &Board<u64>, a: &mut Pass<u64>, b: &mut Pass<u64>) -> bool
    requires passes { IsPassOf board.now a.old × IsPassOf board.now b.old }
    requires plan { board.now.plan ≡ [] ∷ (0 ∷ []) ∷ [] }
    ensures { IsPassOf board.now a.new × IsPassOf board.now b.new }
{
    let left_at_first = board.left(a);
    let second_is_early = board.start(a, 1).is_err();
    let first_is_done = first_node(board, a, b) == Some((false, Readiness::Ready));
    let left_after_first = board.left(b);
    let second_starts = board.start(b, 1).is_ok();
    left_at_first == 2
        && second_is_early
        && first_is_done
        && left_after_first == 1
        && second_starts
        && ends(board, a, b)
}

/// Whether both passes read the first node's value, and one hears the halt that the other sets.
fn ends(board: &Board<u64>, a: &mut Pass<u64>, b: &mut Pass<u64>) -> bool
    requires passes { IsPassOf board.now a.old × IsPassOf board.now b.old }
    requires plan { board.now.plan ≡ [] ∷ (0 ∷ []) ∷ [] }
    ensures { IsPassOf board.now a.new × IsPassOf board.now b.new }
{
    let read_by_b = board.read(b, 0).copied();
    let read_by_a = board.read(a, 0).copied();
    board.meet(a, b);
    let halted_before = board.halted(a);
    board.halt(b);
    let halted_after = board.halted(a);
    read_by_b == Some(7) && read_by_a == Some(7) && !halted_before && halted_after
}

#[test]
fn two_nodes_two_passes(rt: HostRuntime) -> Result<(), Fail> {
    let alloc = rt.alloc();
    let plan = pair(alloc)?;
    let Ok((board, mut passes)) = Board::<u64>::new(alloc, plan.as_slice(), 2) else {
        panic!(rt; "no memory")
    };
    let mut b = board.take_pass(&mut passes).expect(&rt, "two passes");
    let mut a = board.take_pass(&mut passes).expect(&rt, "two passes");
    let well = work(&board, &mut a, &mut b);
    assert!(rt; well);
    passes.push(a)?;
    passes.push(b)?;
    let closed = board.close(passes);
    let ends_as_wanted = closed.left() == 1 && closed.halted();
    assert!(rt; ends_as_wanted);
    let has_values = closed.get(0).copied() == Some(7) && closed.get(1).is_none();
    assert!(rt; has_values);
    Ok(())
}

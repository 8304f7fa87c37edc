//! A level of two kinds of operations, and the graph on it.

ghost use Rattle.std.specs.Prelude.{◌≡◌, IfOk, refl};

use super::*;
use lists::List;
use std::process::Abort;
use std::test::Fail;

/// The operands, in memory of their own.
fn list_of(alloc: Global, operands: &[u32]) -> Result<List<u32>, AllocError>
    ensures { IfOk result (λ list. list ≡ operands.now) }
{
    Ok(List::from_vec(Vec::from_slice(alloc, operands)?))
}

/// What an operation does, beside its operands.
#[derive(Clone, Copy, Debug, PartialEq, Eq)]
enum Kind {
    Leaf,
    Add,
}

/// An operation of the test level.
#[derive(Debug, Drop)]
struct TestOp {
    kind: Kind,
    operands: List<u32>,
}

/// The test level.
struct TestLevel;

impl Level for TestLevel {
    type Ty = Kind;

    type Op = TestOp;

    ghost operands = { λ op. op.operands };

    ghost with_operands = { λ op list. record op { operands = list } };

    ghost type_of = { λ op. op.kind };

    fn arity(op: &TestOp) -> usize {
        op.operands.len()
    }

    fn operand(op: &TestOp, at: usize) -> u32 {
        op.operands.as_slice()[at]
    }

    fn set_operand(op: &mut TestOp, at: usize, value: u32) {
        op.operands.set(at, value);
    }

    fn result(op: &TestOp) -> Kind {
        op.kind
    }

    ghost put_is_read = { λ op list same. refl };

    ghost own_put_is_same = { λ op. refl };

    ghost last_put_stays = { λ op first last same_first same_last. refl };

    ghost put_keeps_type = { λ op list same. refl };
}

/// Adds an operation whose operands are there.
fn push(
    rt: &(impl Abort + AllocGlobal),
    graph: &mut Graph<TestLevel>,
    kind: Kind,
    operands: &[u32],
) -> Result<u32, Fail> {
    for operand in operands {
        assert!(rt; graph.holds(*operand));
    }
    assert!(rt; operands.len() < 10);
    assert!(rt; graph.made() < 100);
    let operands = list_of(rt.alloc(), operands)?;
    let number = graph.push(TestOp { kind, operands })?;
    Ok(number)
}

/// Adds an operation before one that is there, after its operands.
fn insert_before(
    rt: &(impl Abort + AllocGlobal),
    graph: &mut Graph<TestLevel>,
    place: u32,
    operands: &[u32],
) -> Result<u32, Fail> {
    assert!(rt; graph.holds(place));
    for operand in operands {
        assert!(rt; graph.holds(*operand));
        assert!(rt; graph.stands_before(*operand, place));
    }
    assert!(rt; operands.len() < 10);
    assert!(rt; graph.made() < 100);
    let operands = list_of(rt.alloc(), operands)?;
    let number = graph.insert_before(
        place,
        TestOp {
            kind: Kind::Add,
            operands,
        },
    )?;
    Ok(number)
}

/// Takes away an operation that is there and has no use.
fn erase(rt: &(impl Abort + AllocGlobal), graph: &mut Graph<TestLevel>, value: u32) -> TestOp {
    assert!(rt; graph.holds(value));
    assert_eq!(rt; graph.use_count(value), 0);
    graph.erase(value)
}

/// Puts one value for another, where both are there and the one stands before the users.
fn replace_uses(
    rt: &(impl Abort + AllocGlobal),
    graph: &mut Graph<TestLevel>,
    from: u32,
    to: u32,
) -> Result<(), Fail> {
    assert!(rt; graph.holds(from));
    assert!(rt; graph.holds(to));
    let uses = graph.uses_of(from)?;
    for (user, _) in &uses {
        assert!(rt; graph.holds(*user));
        assert!(rt; graph.stands_before(to, *user));
    }
    graph.replace_uses(from, to);
    Ok(())
}

/// The uses of a value are these, and as many are counted.
fn expect_uses(
    rt: &(impl Abort + AllocGlobal),
    graph: &Graph<TestLevel>,
    value: u32,
    want: &[(u32, u32)],
) -> Result<(), Fail> {
    let uses = graph.uses_of(value)?;
    assert_eq!(rt; uses.as_slice(), want, "uses of {value}");
    assert_eq!(rt; graph.use_count(value), want.len(), "uses of {value}");
    Ok(())
}

/// A walk over the whole list meets these numbers.
fn expect_numbers(
    rt: &(impl Abort + AllocGlobal),
    graph: &Graph<TestLevel>,
    want: &[u32],
) -> Result<(), Fail> {
    let mut numbers = Vec::new(rt.alloc());
    let mut at = graph.first();
    while let Some(value) = at {
        numbers.push(value)?;
        at = graph.next(value);
    }
    assert_eq!(rt; numbers.as_slice(), want);
    Ok(())
}

/// The operation with a number has these operands.
fn expect_operands(
    rt: &(impl Abort + AllocGlobal),
    graph: &Graph<TestLevel>,
    value: u32,
    want: &[u32],
) {
    assert!(rt; graph.holds(value));
    let op = graph.op(value);
    assert_eq!(rt; TestLevel::arity(op), want.len());
    for at in 0..want.len() {
        assert_eq!(rt;
            TestLevel::operand(op, at),
            want[at],
            "operand {at} of {value}"
        );
    }
}

#[test]
fn list_of_leaves_and_adds(rt: HostRuntime) -> Result<(), Fail> {
    let mut graph = Graph::<TestLevel>::new(rt.alloc());
    expect_numbers(&rt, &graph, &[])?;
    assert_eq!(rt; push(&rt, &mut graph, Kind::Leaf, &[])?, 0);
    assert_eq!(rt; push(&rt, &mut graph, Kind::Leaf, &[])?, 1);
    assert_eq!(rt; push(&rt, &mut graph, Kind::Add, &[0, 1])?, 2);
    assert_eq!(rt; push(&rt, &mut graph, Kind::Add, &[2, 2])?, 3);
    expect_numbers(&rt, &graph, &[0, 1, 2, 3])?;
    expect_uses(&rt, &graph, 0, &[(2, 0)])?;
    expect_uses(&rt, &graph, 1, &[(2, 1)])?;
    expect_uses(&rt, &graph, 2, &[(3, 0), (3, 1)])?;
    expect_uses(&rt, &graph, 3, &[])?;

    replace_uses(&rt, &mut graph, 2, 0)?;
    expect_uses(&rt, &graph, 0, &[(2, 0), (3, 0), (3, 1)])?;
    expect_uses(&rt, &graph, 2, &[])?;
    expect_operands(&rt, &graph, 3, &[0, 0]);

    let erased = erase(&rt, &mut graph, 2);
    assert_eq!(rt; erased.operands.as_slice(), [0, 1].as_slice());
    assert_eq!(rt; TestLevel::result(&erased), Kind::Add);
    expect_numbers(&rt, &graph, &[0, 1, 3])?;
    expect_uses(&rt, &graph, 0, &[(3, 0), (3, 1)])?;
    expect_uses(&rt, &graph, 1, &[])?;

    assert_eq!(rt; insert_before(&rt, &mut graph, 3, &[0, 0])?, 4);
    expect_numbers(&rt, &graph, &[0, 1, 4, 3])?;
    expect_uses(&rt, &graph, 0, &[(3, 0), (3, 1), (4, 0), (4, 1)])?;
    assert!(rt; graph.holds(3));
    assert!(rt; graph.holds(4));
    assert!(rt; graph.stands_before(4, 3));
    assert!(rt; !graph.stands_before(3, 4));
    Ok(())
}

#[test]
fn operations_of_no_and_of_five_operands(rt: HostRuntime) -> Result<(), Fail> {
    let mut graph = Graph::<TestLevel>::new(rt.alloc());
    push(&rt, &mut graph, Kind::Leaf, &[])?;
    push(&rt, &mut graph, Kind::Leaf, &[])?;
    push(&rt, &mut graph, Kind::Add, &[1, 0, 1, 1, 0])?;
    expect_operands(&rt, &graph, 0, &[]);
    expect_operands(&rt, &graph, 2, &[1, 0, 1, 1, 0]);
    expect_uses(&rt, &graph, 1, &[(2, 0), (2, 2), (2, 3)])?;
    replace_uses(&rt, &mut graph, 1, 0)?;
    expect_operands(&rt, &graph, 2, &[0, 0, 0, 0, 0]);
    expect_uses(&rt, &graph, 0, &[(2, 0), (2, 1), (2, 2), (2, 3), (2, 4)])?;
    Ok(())
}

#[test]
fn numbers_are_not_used_again(rt: HostRuntime) -> Result<(), Fail> {
    let mut graph = Graph::<TestLevel>::new(rt.alloc());
    for number in 0..3u32 {
        assert_eq!(rt; push(&rt, &mut graph, Kind::Leaf, &[])?, number);
        erase(&rt, &mut graph, number);
        assert!(rt; !graph.holds(number));
    }
    assert_eq!(rt; graph.made(), 3);
    graph.known();
    expect_numbers(&rt, &graph, &[])?;
    Ok(())
}

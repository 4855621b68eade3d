//! Ports that verify, and instances of blocks and heads followed over them.

ghost use Rattle.std.specs.Prelude.{◌≡◌, ◌≤◌, ◌^◌, true, None, slice_index_or};
ghost use Rattle.follow.specs.Intervals.{interval_by};
ghost use Rattle.nest_lang.specs.Rules.{strides};

use super::*;
use block_exec::{MemoryPort, Places, Port, Stop};
use nest_lang::{BlockRef, Expr, Head, Op, Part, Place, Stmt, Trap};
use sqlite_items::{Boxed, Items};
use std::alloc::{AllocError, Global};
use std::test::Fail;

/// Access 1 is expected at 1 and 2, access 2 nowhere, and access 3 from 0 to 6; there is no access 0.
const EXPECTED: [Option<Interval>; 4] = [
    None,
    Some(Interval {
        line: 1,
        low: 0,
        high: 1,
    }),
    None,
    Some(Interval {
        line: 2,
        low: -2,
        high: 4,
    }),
];

/// Intervals by access number, and the scalars after an instance.
#[derive(Clone, Copy)]
struct Listed<'e> {
    intervals: &'e [Option<Interval>],
    after: [i128; 2],
}

impl Expected for Listed<'_> {
    ghost intervals = { λ e access. interval_by (slice_index_or e.intervals.now access None) };

    ghost after = { λ e. e.after };

    fn interval(&self, access: u8) -> Option<Interval> {
        self.intervals.get(access as usize).copied().unwrap_or(None)
    }

    fn scalar_after(&self, number: u8) -> i128 {
        self.after.get(number as usize).copied().unwrap_or(0)
    }
}

fn unexpected(seen: i64, expected: Option<i128>) -> Stop {
    Stop::Unexpected { seen, expected }
}

#[test]
fn loads_are_compared_with_their_intervals(rt: HostRuntime) -> Result<(), Fail> {
    let mut memory = [7, 8, 9];
    let mut port = MemoryPort::new(&mut memory);
    let expected = Listed {
        intervals: &EXPECTED,
        after: [5, 6],
    };
    let mut verified = VerifyingPort::new(&mut port, &expected);
    assert_eq!(rt; verified.load(1, 1), Ok(8));
    assert_eq!(rt; verified.load(1, 2), Ok(9));
    assert_eq!(rt; verified.load(1, 0), Err(unexpected(0, Some(1))));
    assert_eq!(rt; verified.load(1, 3), Err(unexpected(3, Some(1))));
    assert_eq!(rt; verified.load(2, 1), Err(unexpected(1, None)));
    assert_eq!(rt; verified.load(4, 1), Err(unexpected(1, None)));
    assert_eq!(rt; verified.load(3, 0), Ok(7));
    assert_eq!(rt; verified.load(3, 6), Err(Stop::Outside(6)));
    assert_eq!(rt; verified.load(3, -1), Err(unexpected(-1, Some(2))));
    Ok(())
}

#[test]
fn a_refused_store_leaves_the_memory(rt: HostRuntime) -> Result<(), Fail> {
    let mut memory = [7, 8, 9];
    let mut port = MemoryPort::new(&mut memory);
    let expected = Listed {
        intervals: &EXPECTED,
        after: [5, 6],
    };
    let mut verified = VerifyingPort::new(&mut port, &expected);
    assert_eq!(rt; verified.store(1, 2, 5), Ok(()));
    assert_eq!(rt; verified.store(1, 0, 5), Err(unexpected(0, Some(1))));
    assert_eq!(rt; verified.store(2, 1, 5), Err(unexpected(1, None)));
    assert_eq!(rt; verified.load(3, 0), Ok(7));
    assert_eq!(rt; verified.load(3, 1), Ok(8));
    assert_eq!(rt; verified.load(3, 2), Ok(5));
    Ok(())
}

/// Follows an instance of a block over these words, with the scalars 5 and 6.
fn followed(
    block: &[Stmt],
    intervals: &[Option<Interval>],
    after: [i128; 2],
    words: &mut [i64],
    left: u64,
) -> Result<u64, How>
    requires { left ≤ 2 ^ 32 }
{
    let block_ref = BlockRef {
        part: Part::Pre,
        level: 1,
    };
    let places = Places::new();
    let expected = Listed { intervals, after };
    let mut scalars = [5, 6];
    let mut port = MemoryPort::new(words);
    let mut verified = VerifyingPort::new(&mut port, &expected);
    let mut how = How::Limit;
    match follow_block_verified(
        &places.site(block_ref, 0),
        block,
        &expected,
        &mut scalars,
        &mut verified,
        left,
        &mut how,
    ) {
        Ok(steps) => Ok(steps),
        Err(_) => Err(how),
    }
}

/// Follows an instance of the head of a loop of that level over the words 9, 2, with the scalars 5 and 6.
fn evaluated(
    head: &Head,
    level: u8,
    turning: Turning,
    after: [i128; 2],
    left: u64,
) -> Result<u64, How>
    requires left { left ≤ 2 ^ 32 }
    requires strides { strides head.now ≡ true }
{
    let block_ref = BlockRef {
        part: Part::Head,
        level,
    };
    let places = Places::new();
    let expected = Listed {
        intervals: &EXPECTED,
        after,
    };
    let mut words = [9, 2];
    let mut scalars = [5, 6];
    let mut port = MemoryPort::new(&mut words);
    let mut verified = VerifyingPort::new(&mut port, &expected);
    let mut how = How::Limit;
    match follow_head_verified(
        &places.site(block_ref, 0),
        head,
        &expected,
        turning,
        &mut scalars,
        &mut verified,
        left,
        &mut how,
    ) {
        Ok(steps) => Ok(steps),
        Err(_) => Err(how),
    }
}

fn load(alloc: Global, access: u8, address: i64) -> Result<Expr, AllocError> {
    Ok(Expr::Load(access, Boxed::new(alloc, Expr::Number(address))?))
}

/// `[to] = [from]; s1 = s0 / [0]`: accesses 1, 3 and 1 again.
fn copying(alloc: Global, to: i64, from: i64) -> Result<Items<Stmt>, AllocError> {
    let mut block = Items::new(alloc);
    block.push(Stmt::Store(3, Expr::Number(to), load(alloc, 1, from)?))?;
    let divisor = Boxed::new(alloc, load(alloc, 3, 0)?)?;
    let quotient = Expr::Two(
        Op::Div,
        Boxed::new(alloc, Expr::Var(Place::Scalar(0)))?,
        divisor,
    );
    block.push(Stmt::Set(1, quotient))?;
    Ok(block)
}

#[test]
fn an_instance_that_follows_gives_its_steps(rt: HostRuntime) -> Result<(), Fail> {
    let alloc = rt.alloc();
    let block = copying(alloc, 3, 1)?;
    let mut words = [2, 8, 9, 0];
    let result = followed(block.as_slice(), &EXPECTED, [5, 2], &mut words, 2);
    assert_eq!(rt; result, Ok(2));
    assert_eq!(rt; words, [2, 8, 9, 8]);
    Ok(())
}

#[test]
fn an_address_that_is_not_expected_reaches_no_word(rt: HostRuntime) -> Result<(), Fail> {
    let alloc = rt.alloc();
    let block = copying(alloc, 7, 2)?;
    let mut words = [2, 8, 9, 0];
    let result = followed(block.as_slice(), &EXPECTED, [5, 2], &mut words, 9);
    assert_eq!(rt; result, Err(How::Address(3, 2, 7)));
    let block = copying(alloc, 3, 3)?;
    let result = followed(block.as_slice(), &EXPECTED, [5, 2], &mut words, 9);
    assert_eq!(rt; result, Err(How::Address(1, 1, 3)));
    let result = followed(block.as_slice(), &[], [5, 2], &mut words, 9);
    assert_eq!(rt; result, Err(How::Unseen(1, 3)));
    assert_eq!(rt; words, [2, 8, 9, 0]);
    Ok(())
}

#[test]
fn scalars_are_compared_at_the_end(rt: HostRuntime) -> Result<(), Fail> {
    let alloc = rt.alloc();
    let block = copying(alloc, 3, 1)?;
    let mut words = [2, 8, 9, 0];
    let result = followed(block.as_slice(), &EXPECTED, [5, 6], &mut words, 2);
    assert_eq!(rt; result, Err(How::Scalar(1, 6, 2)));
    let large = 9_223_372_036_854_775_808;
    let result = followed(block.as_slice(), &EXPECTED, [large, 6], &mut words, 2);
    assert_eq!(rt; result, Err(How::Scalar(0, large, 5)));
    Ok(())
}

#[test]
fn traps_and_the_limit_come_after_what_was_seen(rt: HostRuntime) -> Result<(), Fail> {
    let alloc = rt.alloc();
    let block = copying(alloc, 3, 1)?;
    let mut words = [0, 8, 9, 0];
    let result = followed(block.as_slice(), &EXPECTED, [5, 2], &mut words, 2);
    assert_eq!(rt; result, Err(How::Trap(Trap::ZeroDivisor)));
    let result = followed(block.as_slice(), &EXPECTED, [5, 2], &mut words, 1);
    assert_eq!(rt; result, Err(How::Limit));
    let block = copying(alloc, 6, 1)?;
    let result = followed(block.as_slice(), &EXPECTED, [5, 2], &mut words, 2);
    assert_eq!(rt; result, Err(How::Trap(Trap::Outside(6))));
    Ok(())
}

#[test]
fn heads_are_compared_with_their_forms(rt: HostRuntime) -> Result<(), Fail> {
    let alloc = rt.alloc();
    let head = Head::For(load(alloc, 1, 1)?, Expr::Number(7), 2);
    let bounds = Turning::Bounds(2, 3);
    assert_eq!(rt; evaluated(&head, 2, bounds, [5, 6], 1), Ok(1));
    let result = evaluated(&head, 2, Turning::Bounds(3, 4), [5, 6], 1);
    assert_eq!(rt; result, Err(How::Lower(3, 2)));
    let result = evaluated(&head, 2, Turning::Bounds(2, -1), [5, 6], 1);
    assert_eq!(rt; result, Err(How::Trip(-1, 3)));
    let result = evaluated(&head, 2, bounds, [5, 7], 1);
    assert_eq!(rt; result, Err(How::Scalar(1, 7, 6)));
    let result = evaluated(&head, 2, bounds, [5, 6], 0);
    assert_eq!(rt; result, Err(How::Limit));
    let head = Head::For(load(alloc, 2, 1)?, Expr::Number(7), 2);
    let result = evaluated(&head, 2, bounds, [5, 6], 1);
    assert_eq!(rt; result, Err(How::Unseen(2, 1)));
    Ok(())
}

#[test]
fn conditions_are_compared(rt: HostRuntime) -> Result<(), Fail> {
    let head = Head::While(Expr::Number(0));
    let result = evaluated(&head, 2, Turning::Holds(false), [5, 6], 1);
    assert_eq!(rt; result, Ok(1));
    let result = evaluated(&head, 2, Turning::Holds(true), [5, 6], 1);
    assert_eq!(rt; result, Err(How::Condition(true, false)));
    let result = evaluated(&head, 1, Turning::Holds(true), [5, 6], 1);
    assert_eq!(rt; result, Err(How::Ended));
    let head = Head::While(Expr::Number(-3));
    let result = evaluated(&head, 2, Turning::Holds(false), [5, 6], 1);
    assert_eq!(rt; result, Err(How::Condition(false, true)));
    Ok(())
}

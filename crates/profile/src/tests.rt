//! Profiles that are worked by hand: what is shown, and the forms that it has.

ghost use Rattle.std.specs.Prelude.{◌≡◌, IfOk};
ghost use Rattle.profile.specs.Examples.{filling};

use crate::log::Item;
use crate::{FitEnd, Sampler, Samples, Unfit, UnfitWhy, fit};
use affine::Form;
use block_exec::Watch;
use domain::{Instance, Prediction, What};
use line_fit::{Miss, NoFit, Tube};
use nest_lang::{BlockRef, Expr, Head, Loop, Nest, Part, Place, Seen, Stmt};
use sqlite_items::Items;
use std::alloc::{AllocError, Global};
use std::mem::size_of;
use std::test::Fail;

const HEAD2: BlockRef = BlockRef {
    part: Part::Head,
    level: 2,
};

const PRE1: BlockRef = BlockRef {
    part: Part::Pre,
    level: 1,
};

const PRE2: BlockRef = BlockRef {
    part: Part::Pre,
    level: 2,
};

const POST1: BlockRef = BlockRef {
    part: Part::Post,
    level: 1,
};

/// The tube of a line that can be kept.
fn tube<const D: usize>(coef: [i64; D], cst: i64, low: i64, high: i64) -> Option<Tube<D>> {
    match Form::new(coef, cst) {
        Some(line) => Some(Tube { line, low, high }),
        None => None,
    }
}

/// What was shown of `for i { for j { .. [20i + j + 1] .. } s = .. }` in two turns of two inner turns each.
fn skewed(alloc: Global) -> Result<Samples, AllocError> {
    let mut sampler = Sampler::new(alloc);
    for outer in 0..2i64 {
        sampler.see(HEAD2, &[outer], Seen::Start, 0);
        sampler.see(HEAD2, &[outer], Seen::Lower, i128::from(outer));
        sampler.see(HEAD2, &[outer], Seen::Trip, 2);
        for inner in 0..2i64 {
            sampler.see(PRE2, &[outer, inner], Seen::Start, 0);
            sampler.see(PRE2, &[outer, inner], Seen::Scalar(0), 7);
            sampler.see(
                PRE2,
                &[outer, inner],
                Seen::Address(1),
                20 * i128::from(outer) + i128::from(inner) + 1,
            );
        }
        sampler.see(POST1, &[outer], Seen::Scalar(0), 3 * i128::from(outer));
    }
    sampler.finish()
}

#[test]
fn skewed_forms(rt: HostRuntime) -> Result<(), Fail> {
    let samples = skewed(rt.alloc())?;
    assert_eq!(rt;
        samples.fit_of::<2>(rt.alloc(), PRE2, Seen::Address(1), 64),
        Ok(tube([20, 1], 1, 0, 0))
    );
    assert_eq!(rt;
        samples.fit_of::<2>(rt.alloc(), PRE2, Seen::Scalar(0), 0),
        Ok(tube([0, 0], 7, 0, 0))
    );
    assert_eq!(rt;
        samples.fit_of::<2>(rt.alloc(), HEAD2, Seen::Lower, 0),
        Ok(tube([1, 0], 0, 0, 0))
    );
    assert_eq!(rt;
        samples.fit_of::<2>(rt.alloc(), HEAD2, Seen::Trip, 0),
        Ok(tube([0, 0], 2, 0, 0))
    );
    assert_eq!(rt;
        samples.fit_of::<2>(rt.alloc(), POST1, Seen::Scalar(0), 0),
        Ok(tube([3, 0], 0, 0, 0))
    );
    Ok(())
}

#[test]
fn datum_without_samples_has_no_form(rt: HostRuntime) -> Result<(), Fail> {
    let samples = skewed(rt.alloc())?;
    assert_eq!(rt;
        samples.fit_of::<2>(rt.alloc(), PRE2, Seen::Address(2), 64),
        Ok(None)
    );
    assert_eq!(rt;
        samples.fit_of::<2>(rt.alloc(), PRE1, Seen::Scalar(0), 0),
        Ok(None)
    );
    Ok(())
}

#[test]
fn false_conditions_tell_trips(rt: HostRuntime) -> Result<(), Fail> {
    let mut sampler = Sampler::new(rt.alloc());
    for outer in 0..3i64 {
        for inner in 0..outer {
            sampler.see(HEAD2, &[outer, inner], Seen::Condition, 1);
        }
        sampler.see(HEAD2, &[outer, outer], Seen::Condition, 0);
    }
    let samples = sampler.finish()?;
    assert_eq!(rt;
        samples.fit_of::<2>(rt.alloc(), HEAD2, Seen::Trip, 0),
        Ok(tube([1, 0], 0, 0, 0))
    );
    assert_eq!(rt;
        samples.fit_of::<2>(rt.alloc(), HEAD2, Seen::Lower, 0),
        Ok(None)
    );
    Ok(())
}

#[test]
fn trip_of_inner_while_off_its_line(rt: HostRuntime) -> Result<(), Fail> {
    let mut sampler = Sampler::new(rt.alloc());
    sampler.see(HEAD2, &[0, 0], Seen::Condition, 0);
    sampler.see(HEAD2, &[1, 1], Seen::Condition, 0);
    sampler.see(HEAD2, &[2, 4], Seen::Condition, 0);
    let samples = sampler.finish()?;
    let miss = Miss {
        at: [2, 0],
        line: 2,
        seen: 4,
    };
    assert_eq!(rt;
        samples.fit_of::<2>(rt.alloc(), HEAD2, Seen::Trip, 0),
        Err(NoFit::Missed(miss))
    );
    Ok(())
}

#[test]
fn longest_trip_is_kept(rt: HostRuntime) -> Result<(), Fail> {
    let mut sampler = Sampler::new(rt.alloc());
    sampler.see(HEAD2, &[0], Seen::Trip, 18_446_744_073_709_551_615);
    let samples = sampler.finish()?;
    assert_eq!(rt;
        samples.fit_of::<2>(rt.alloc(), HEAD2, Seen::Trip, 0),
        Err(NoFit::Large(18_446_744_073_709_551_615))
    );
    Ok(())
}

#[test]
fn item_has_two_words(rt: HostRuntime) {
    assert_eq!(rt; size_of::<Item>(), 16);
}

/// `for i = 0 below 8 { [i] = 5 }`.
fn filling(alloc: Global) -> Result<Nest, AllocError>
    ensures { IfOk result (λ nest. nest.loops ≡ filling) }
{
    let mut block = Items::new(alloc);
    block.push(Stmt::Store(1, Expr::Var(Place::Counter(0)), Expr::Number(5)))?;
    let mut loops = Items::new(alloc);
    loops.push(Loop {
        head: Head::For(Expr::Number(0), Expr::Number(8), 1),
        pre: block,
        post: Items::new(alloc),
    })?;
    Ok(Nest { loops })
}

/// What was shown of the block of one loop in its turns from 0 on: these values of a datum.
fn shown(alloc: Global, what: Seen, values: &[i128]) -> Result<Samples, AllocError> {
    let mut sampler = Sampler::new(alloc);
    for (turn, value) in values.iter().enumerate() {
        sampler.see(PRE1, &[turn as i64], what, *value);
    }
    sampler.finish()
}

/// The fit of that nest, with one scalar.
fn fitted(alloc: Global, samples: &Samples) -> Result<Prediction<1>, FitEnd<1>> {
    let nest = filling(alloc)?;
    fit(alloc, &nest, 1, samples)
}

/// The answer where a datum of the block has no fit.
fn unfit(what: What, why: UnfitWhy<1>) -> Option<FitEnd<1>> {
    Some(FitEnd::Unfit(Unfit {
        block: 0,
        what,
        why,
    }))
}

#[test]
fn squares_lie_in_a_tube(rt: HostRuntime) -> Result<(), Fail> {
    let alloc = rt.alloc();
    let pred = fitted(alloc, &shown(alloc, Seen::Address(1), &[0, 1, 4, 9])?).expect(&rt, "a fit");
    let line = Form { coef: [1], cst: 0 };
    assert_eq!(rt; pred.form(0, What::Address(1)), Some(line));
    assert_eq!(rt; pred.tube(0, 1), Some((0, 6)));
    assert_eq!(rt; pred.form(0, What::Scalar(0)), None);
    Ok(())
}

#[test]
fn a_tube_of_65_and_a_wide_coefficient_are_unfit(rt: HostRuntime) -> Result<(), Fail> {
    let alloc = rt.alloc();
    let wide = fitted(alloc, &shown(alloc, Seen::Address(1), &[0, 10, 20, 95])?);
    let why = UnfitWhy::Line {
        at: Instance { block: 0, at: [3] },
        line: 30,
        seen: 95,
    };
    assert_eq!(rt; wide.err(), unfit(What::Address(1), why));
    let steep = [0, 2_000_000_000_000, 4_000_000_000_000];
    let large = fitted(alloc, &shown(alloc, Seen::Scalar(0), &steep)?);
    let why = UnfitWhy::Large(2_000_000_000_000);
    assert_eq!(rt; large.err(), unfit(What::Scalar(0), why));
    Ok(())
}

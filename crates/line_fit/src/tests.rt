//! Fits of samples whose lines, tubes and misses are worked by hand.

use crate::{Miss, NoFit, Sample, Tube, fit_datum};
use affine::Form;

/// A sample of one counter.
fn at(turn: i64, value: i64) -> Sample<1> {
    Sample {
        at: [turn],
        value: i128::from(value),
    }
}

/// A sample of two counters.
fn at_two(outer: i64, inner: i64, value: i64) -> Sample<2> {
    Sample {
        at: [outer, inner],
        value: i128::from(value),
    }
}

/// The fit of a line that can be kept.
fn tube(coef: [i64; 1], cst: i64, low: i64, high: i64) -> Option<Tube<1>> {
    match Form::new(coef, cst) {
        Some(line) => Some(Tube { line, low, high }),
        None => None,
    }
}

#[test]
fn no_samples_have_no_form(rt: HostRuntime) {
    assert_eq!(rt; fit_datum::<1>(rt.alloc(), &[], 64), Ok(None));
}

#[test]
fn squares_have_a_tube(rt: HostRuntime) {
    let squares = [at(0, 0), at(1, 1), at(2, 4), at(3, 9)];
    assert_eq!(rt; fit_datum(rt.alloc(), &squares, 64), Ok(tube([1], 0, 0, 6)));
    let miss = Miss {
        at: [2],
        line: 2,
        seen: 4,
    };
    assert_eq!(rt;
        fit_datum(rt.alloc(), &squares, 0),
        Err(NoFit::Missed(miss))
    );
}

#[test]
fn tube_of_64_is_kept(rt: HostRuntime) {
    let widest = [at(0, 0), at(1, 10), at(2, 20), at(3, 94)];
    assert_eq!(rt;
        fit_datum(rt.alloc(), &widest, 64),
        Ok(tube([10], 0, 0, 64))
    );
    let wider = [at(0, 0), at(1, 10), at(2, 20), at(3, 95)];
    let miss = Miss {
        at: [3],
        line: 30,
        seen: 95,
    };
    assert_eq!(rt; fit_datum(rt.alloc(), &wider, 64), Err(NoFit::Missed(miss)));
}

#[test]
fn tube_lies_on_either_side(rt: HostRuntime) {
    let below = [at(0, 100), at(1, 113), at(2, 118), at(3, 134)];
    assert_eq!(rt;
        fit_datum(rt.alloc(), &below, 64),
        Ok(tube([13], 100, -8, 0))
    );
}

#[test]
fn first_step_is_taken(rt: HostRuntime) {
    let steps = [at(0, 5), at(2, 50), at(3, 51), at(4, 60)];
    let miss = Miss {
        at: [2],
        line: 7,
        seen: 50,
    };
    assert_eq!(rt; fit_datum(rt.alloc(), &steps, 0), Err(NoFit::Missed(miss)));
}

#[test]
fn later_neighbour_is_no_step(rt: HostRuntime) {
    let turned = [at(1, 7), at(0, 7)];
    assert_eq!(rt; fit_datum(rt.alloc(), &turned, 0), Ok(tube([0], 7, 0, 0)));
}

#[test]
fn large_numbers_come_first(rt: HostRuntime) {
    let steep = [at(0, 0), at(1, 1_099_511_627_777), at(2, 0)];
    assert_eq!(rt;
        fit_datum(rt.alloc(), &steep, 64),
        Err(NoFit::Large(1_099_511_627_777))
    );
    let least = [at(0, 0), at(1, -1_099_511_627_777)];
    assert_eq!(rt;
        fit_datum(rt.alloc(), &least, 64),
        Err(NoFit::Large(-1_099_511_627_777))
    );
    let steepest = [at(0, 0), at(1, 1_099_511_627_776)];
    assert_eq!(rt;
        fit_datum(rt.alloc(), &steepest, 64),
        Ok(tube([1_099_511_627_776], 0, 0, 0))
    );
    let high = [
        at(10, 9_223_372_036_854_775_807),
        at(11, 9_223_370_937_343_148_031),
    ];
    assert_eq!(rt;
        fit_datum(rt.alloc(), &high, 64),
        Err(NoFit::Large(9_223_383_031_971_053_567))
    );
}

#[test]
fn counters_have_their_own_steps(rt: HostRuntime) {
    let skewed = [
        at_two(0, 0, 1),
        at_two(0, 1, 2),
        at_two(1, 0, 21),
        at_two(1, 1, 22),
    ];
    let Some(line) = Form::new([20, 1], 1) else {
        panic!(rt; "small coefficients");
    };
    assert_eq!(rt;
        fit_datum(rt.alloc(), &skewed, 64),
        Ok(Some(Tube {
            line,
            low: 0,
            high: 0
        }))
    );
}

#[test]
fn least_counter_has_no_step_below(rt: HostRuntime) {
    let ends = [at(i64::MIN, 3), at(i64::MAX, 3)];
    assert_eq!(rt; fit_datum(rt.alloc(), &ends, 0), Ok(tube([0], 3, 0, 0)));
}

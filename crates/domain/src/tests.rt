//! Worked rows, as calls: the expected answers were computed by hand.

ghost use Rattle.std.specs.Prelude.{◌≡◌, ◌<◌, ◌≤◌, ◌≤ℤ◌, ◌^◌, pos, [], ◌∷◌, IfOk, length, unsigned_abs};
ghost use Rattle.domain.specs.Instances.{counter, instance};
ghost use Rattle.domain.specs.Examples.{near, row, two_loops};

use crate::{
    AccessForm, BlockForms, Chunk, Held, HeldWhy, Instance, Launched, LoopForms, LoopKind,
    Prediction, Touched, What, expected, footprint, launch, successor,
};
use affine::Form;
use nest_lang::Part;
use std::alloc::{AllocError, Global};

/// `for i { [i] = 1 }`.
fn row(alloc: Global) -> Result<Prediction<1>, AllocError>
    ensures { IfOk result (λ pred. pred ≡ row) }
{
    let mut levels = Vec::new(alloc);
    levels.push(LoopForms {
        kind: LoopKind::For(1),
        lower: None,
        trip: None,
    })?;
    let mut accesses = Vec::new(alloc);
    accesses.push(AccessForm {
        stores: true,
        line: Some(Form { coef: [1], cst: 0 }),
        low: 0,
        high: 0,
    })?;
    let mut blocks = Vec::new(alloc);
    blocks.push(BlockForms {
        part: Part::Pre,
        level: 1,
        scalars: Vec::new(alloc),
        accesses,
    })?;
    Ok(Prediction::new(levels, blocks))
}

/// An access that stores at a line.
fn store_at(line: Form<2>) -> AccessForm<2> {
    AccessForm {
        stores: true,
        line: Some(line),
        low: 0,
        high: 0,
    }
}

/// Two loops: the inner one has a stride, a lower bound and a trip, and a block with these accesses.
fn two_loops(
    alloc: Global,
    stride: i64,
    lower: Form<2>,
    trip: Form<2>,
    accesses: Vec<AccessForm<2>>,
) -> Result<Prediction<2>, AllocError>
    requires few { length accesses.items ≤ 64 }
    requires stride { unsigned_abs stride ≤ 2 ^ 60 }
    requires outer { unsigned_abs (counter trip.coef 0) ≤ 1 }
    requires inner { unsigned_abs (counter trip.coef 1) ≤ 1 }
    requires constant { unsigned_abs trip.cst ≤ 2 ^ 12 }
    ensures { IfOk result (λ pred. pred ≡ two_loops stride lower trip accesses.items) }
{
    let mut levels = Vec::new(alloc);
    levels.push(LoopForms {
        kind: LoopKind::For(1),
        lower: None,
        trip: None,
    })?;
    levels.push(LoopForms {
        kind: LoopKind::For(stride),
        lower: Some(lower),
        trip: Some(trip),
    })?;
    let mut blocks = Vec::new(alloc);
    blocks.push(BlockForms {
        part: Part::Head,
        level: 2,
        scalars: Vec::new(alloc),
        accesses: Vec::new(alloc),
    })?;
    blocks.push(BlockForms {
        part: Part::Pre,
        level: 2,
        scalars: Vec::new(alloc),
        accesses,
    })?;
    Ok(Prediction::new(levels, blocks))
}

#[test]
fn a_store_past_the_memory_holds_a_chunk(rt: HostRuntime) {
    let pred = row(rt.alloc()).expect(&rt, "ample memory");
    let chunk = Chunk {
        first: 36,
        turns: 5,
    };
    let held = Held {
        at: Instance { block: 0, at: [40] },
        why: HeldWhy::Outside(1, 40),
    };
    assert_eq!(rt; launch(&pred, chunk, 40), Err(held));
    assert_eq!(rt; launch(&pred, chunk, 41), Ok(Launched { instances: 5 }));
}

/// A list of one access.
fn alone(alloc: Global, access: AccessForm<2>) -> Result<Vec<AccessForm<2>>, AllocError>
    ensures { IfOk result (λ accesses. length accesses.items ≡ 1) }
{
    let mut accesses = Vec::new(alloc);
    accesses.push(access)?;
    Ok(accesses)
}

/// A list of two accesses.
fn pair(
    alloc: Global,
    first: AccessForm<2>,
    second: AccessForm<2>,
) -> Result<Vec<AccessForm<2>>, AllocError>
    ensures { IfOk result (λ accesses. length accesses.items ≡ 2) }
{
    let mut accesses = Vec::new(alloc);
    accesses.push(first)?;
    accesses.push(second)?;
    Ok(accesses)
}

/// `for i { for j = i below 10 { [20 * i + j] = 0 } }`.
fn triangle(alloc: Global) -> Result<Prediction<2>, AllocError>
    ensures { IfOk result (λ pred. length pred.blocks ≡ 2) }
{
    let lower = Form {
        coef: [1, 0],
        cst: 0,
    };
    let trip = Form {
        coef: [-1, 0],
        cst: 10,
    };
    let line = Form {
        coef: [21, 1],
        cst: 0,
    };
    two_loops(alloc, 1, lower, trip, alone(alloc, store_at(line))?)
}

/// `for i { for j = 9223372036854775800 + i below 0 { [0] = 1 } }`, whose trip is 0.
fn high_lower(alloc: Global) -> Result<Prediction<2>, AllocError> {
    let lower = Form {
        coef: [1, 0],
        cst: 9_223_372_036_854_775_800,
    };
    let trip = Form {
        coef: [0, 0],
        cst: 0,
    };
    let line = Form {
        coef: [0, 0],
        cst: 0,
    };
    two_loops(alloc, 1, lower, trip, alone(alloc, store_at(line))?)
}

/// `for i { for j = 0 below (i + 1) * 2^60 step 2^60 { [i] = 1 } }`.
fn long_steps(alloc: Global) -> Result<Prediction<2>, AllocError> {
    let lower = Form {
        coef: [0, 0],
        cst: 0,
    };
    let trip = Form {
        coef: [1, 0],
        cst: 1,
    };
    let line = Form {
        coef: [1, 0],
        cst: 0,
    };
    two_loops(alloc, 1 << 60, lower, trip, alone(alloc, store_at(line))?)
}

/// `for i { for j = 0 below 60 { [j] = [64 * (i % 4 / 2)] } }`, whose load has the tube (0, 64).
fn wide_load(alloc: Global) -> Result<Prediction<2>, AllocError> {
    let lower = Form {
        coef: [0, 0],
        cst: 0,
    };
    let trip = Form {
        coef: [0, 0],
        cst: 60,
    };
    let load = AccessForm {
        stores: false,
        line: Some(Form {
            coef: [0, 0],
            cst: 0,
        }),
        low: 0,
        high: 64,
    };
    let line = Form {
        coef: [0, 1],
        cst: 0,
    };
    two_loops(alloc, 1, lower, trip, pair(alloc, load, store_at(line))?)
}

/// `for i { for j = 0 below trip { [i] = [i] + 1 } }`.
fn counts(alloc: Global, trip: Form<2>) -> Result<Prediction<2>, AllocError>
    requires outer { unsigned_abs (counter trip.coef 0) ≤ 1 }
    requires inner { unsigned_abs (counter trip.coef 1) ≤ 1 }
    requires constant { unsigned_abs trip.cst ≤ 2 ^ 12 }
{
    let lower = Form {
        coef: [0, 0],
        cst: 0,
    };
    let line = Form {
        coef: [1, 0],
        cst: 0,
    };
    let load = AccessForm {
        stores: false,
        line: Some(line),
        low: 0,
        high: 0,
    };
    two_loops(alloc, 1, lower, trip, pair(alloc, load, store_at(line))?)
}

/// The chunk of so many turns from turn 4 on.
fn from_four(turns: i64) -> Chunk
    ensures first { result.first ≡ pos 4 }
    ensures turns { result.turns ≡ turns }
{
    Chunk { first: 4, turns }
}

/// An instance of the head of the inner loop, or of the block inside it.
fn instance(block: u8, outer: i64, inner: i64) -> Instance<2>
    ensures { result ≡ instance block (outer ∷ inner ∷ []) }
{
    Instance {
        block,
        at: [outer, inner],
    }
}

/// The chunk is held at this instance.
fn held_at(at: Instance<2>, why: HeldWhy) -> Result<Launched, Held<2>> {
    Err(Held { at, why })
}

#[test]
fn a_negative_trip_holds_a_chunk(rt: HostRuntime) {
    let pred = triangle(rt.alloc()).expect(&rt, "ample memory");
    let held = held_at(instance(0, 11, 0), HeldWhy::Negative(-1));
    assert_eq!(rt; launch(&pred, from_four(16), 400), held);
    assert_eq!(rt;
        launch(&pred, from_four(7), 400),
        Ok(Launched { instances: 28 })
    );
}

#[test]
fn a_lower_bound_that_is_no_i64_holds_a_chunk(rt: HostRuntime) {
    let pred = high_lower(rt.alloc()).expect(&rt, "ample memory");
    let held = held_at(instance(0, 8, 0), HeldWhy::Lower(1 << 63));
    assert_eq!(rt; launch(&pred, from_four(16), 4), held);
}

#[test]
fn a_last_value_that_is_no_i64_holds_a_chunk(rt: HostRuntime) {
    let pred = long_steps(rt.alloc()).expect(&rt, "ample memory");
    let held = held_at(instance(0, 8, 0), HeldWhy::Last(1 << 63));
    assert_eq!(rt; launch(&pred, from_four(16), 40), held);
}

#[test]
fn widths_hold_a_chunk(rt: HostRuntime) {
    let pred = wide_load(rt.alloc()).expect(&rt, "ample memory");
    let held = held_at(instance(1, 533, 35), HeldWhy::Many);
    assert_eq!(rt; launch(&pred, from_four(1024), 100), held);
}

#[test]
fn instances_hold_a_chunk(rt: HostRuntime) {
    let most = counts(
        rt.alloc(),
        Form {
            coef: [0, 0],
            cst: 2047,
        },
    )
    .expect(&rt, "ample memory");
    assert_eq!(rt;
        launch(&most, from_four(32), 40),
        Ok(Launched { instances: 65_536 })
    );
    let more = counts(
        rt.alloc(),
        Form {
            coef: [0, 0],
            cst: 2048,
        },
    )
    .expect(&rt, "ample memory");
    let held = held_at(instance(1, 35, 2016), HeldWhy::Many);
    assert_eq!(rt; launch(&more, from_four(32), 40), held);
}

/// The instance after an instance of one of the two blocks, as its block and its counters.
fn after(pred: &Prediction<2>, block: u8, outer: i64, inner: i64) -> Instance<2>
    requires two { length pred.now.blocks ≡ 2 }
    requires block { block < 2 }
    requires outer { outer ≤ℤ pos 100 }
    requires inner { inner ≤ℤ pos 100 }
{
    successor(pred, &instance(block, outer, inner))
}

#[test]
fn successors_go_over_a_chunk(rt: HostRuntime) {
    let pred = triangle(rt.alloc()).expect(&rt, "ample memory");
    assert_eq!(rt; after(&pred, 0, 8, 0), instance(1, 8, 0));
    assert_eq!(rt; after(&pred, 1, 8, 0), instance(1, 8, 1));
    assert_eq!(rt; after(&pred, 1, 8, 1), instance(0, 9, 0));
    assert_eq!(rt; after(&pred, 0, 10, 0), instance(0, 11, 0));
}

#[test]
fn a_datum_has_its_form_and_an_access_its_tube(rt: HostRuntime) {
    let pred = triangle(rt.alloc()).expect(&rt, "ample memory");
    let line = Form {
        coef: [21, 1],
        cst: 0,
    };
    assert_eq!(rt; pred.form(1, What::Address(1)), Some(line));
    assert_eq!(rt; pred.tube(1, 1), Some((0, 0)));
    assert_eq!(rt; pred.form(1, What::Trip), None);
    assert_eq!(rt; pred.tube(1, 2), None);
    assert_eq!(rt; expected(&pred, &instance(0, 4, 0), What::Trip), Some(6));
    assert_eq!(rt;
        expected(&pred, &instance(1, 4, 2), What::Address(1)),
        Some(86)
    );
}

/// `for i { [i] = [i + (i % 4 == 2) - (i % 4 == 3)] }`, whose load lies within one word of i.
fn near(alloc: Global) -> Result<Prediction<1>, AllocError>
    ensures { IfOk result (λ pred. pred ≡ near) }
{
    let mut levels = Vec::new(alloc);
    levels.push(LoopForms {
        kind: LoopKind::For(1),
        lower: None,
        trip: None,
    })?;
    let mut accesses = Vec::new(alloc);
    accesses.push(AccessForm {
        stores: false,
        line: Some(Form { coef: [1], cst: 0 }),
        low: -1,
        high: 1,
    })?;
    accesses.push(AccessForm {
        stores: true,
        line: Some(Form { coef: [1], cst: 0 }),
        low: 0,
        high: 0,
    })?;
    let mut blocks = Vec::new(alloc);
    blocks.push(BlockForms {
        part: Part::Pre,
        level: 1,
        scalars: Vec::new(alloc),
        accesses,
    })?;
    Ok(Prediction::new(levels, blocks))
}

/// What a turn of that nest touches in 40 words.
fn touched_near(alloc: Global, turn: i64) -> Result<Touched, AllocError>
    requires from { pos 0 ≤ℤ turn }
    requires to { turn ≤ℤ pos 39 }
{
    let inst = Instance {
        block: 0,
        at: [turn],
    };
    footprint(alloc, &near(alloc)?, &inst, 40)
}

#[test]
fn a_turn_reads_the_words_of_its_tube_and_writes_one(rt: HostRuntime) {
    let inside = touched_near(rt.alloc(), 7).expect(&rt, "ample memory");
    assert_eq!(rt; inside.reads.as_slice(), [6, 7, 8].as_slice());
    assert_eq!(rt; inside.writes.as_slice(), [7].as_slice());
    let last = touched_near(rt.alloc(), 39).expect(&rt, "ample memory");
    assert_eq!(rt; last.reads.as_slice(), [38, 39].as_slice());
    assert_eq!(rt; last.writes.as_slice(), [39].as_slice());
}

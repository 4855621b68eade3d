//! Outcomes of first states. Outcomes of runs stand in cases/, and the program is run on them.

use super::*;
use nest_grammar::{TextFault, TextKind};
use nest_lang::{Ending, Trap};
use nest_text::{NestFile, read_nest};
use std::alloc::Global;
use std::test::Fail;

/// The file that a text reads as.
fn read(alloc: Global, text: &str) -> Result<NestFile, Fail> {
    read_nest(alloc, text.as_bytes()).map_err(|_| Fail::from("not read"))
}

#[test]
fn scalars_stand_in_order_before_the_words(rt: HostRuntime) -> Result<(), Fail> {
    let alloc = rt.alloc();
    let file = read(
        alloc,
        "nest 1 scalar p = 140 scalar total = -7 memory 8 data 0: 1, 1, 0, -2, -2, 1 while p { p = 0 }",
    )?;
    let state = file.start(alloc).map_err(|_| "no memory")?;
    let text = outcome_text(alloc, &file, &state, &Ending::Trapped(Trap::Overflow), 9)?;
    assert_eq!(rt;
        text.as_slice(),
        b"trapped overflow\nscalar p 140\nscalar total -7\nwords 0 1 1\nwords 3 4 -2\nwords 5 5 1\nsteps 9\n".as_slice()
    );
    Ok(())
}

#[test]
fn the_greatest_numbers(rt: HostRuntime) -> Result<(), Fail> {
    let alloc = rt.alloc();
    let file = read(
        alloc,
        "nest 1 memory 1 data 0: 9223372036854775807 while 0 { [0] = 0 }",
    )?;
    let state = file.start(alloc).map_err(|_| "no memory")?;
    let ending = Ending::Trapped(Trap::Outside(i64::MIN));
    let text = outcome_text(alloc, &file, &state, &ending, u64::MAX)?;
    assert_eq!(rt;
        text.as_slice(),
        b"trapped outside -9223372036854775808\nwords 0 0 9223372036854775807\nsteps 18446744073709551615\n".as_slice()
    );
    Ok(())
}

#[test]
fn a_refusal_names_its_place_and_its_kind(rt: HostRuntime) -> Result<(), Fail> {
    let fault = TextFault {
        at: 1_048_576,
        what: TextKind::Long,
    };
    let text = refusal_text(rt.alloc(), &fault)?;
    assert_eq!(rt; text.as_slice(), b"refused 1048576 Long\n".as_slice());
    Ok(())
}

//! Expected answers are those of the arguments' description, found by hand.
use super::*;
use std::alloc::Global;
use std::test::Fail;

fn read(alloc: Global, words: &[&str]) -> Result<Option<Invocation>, Fail> {
    let mut owned = Vec::new(alloc);
    for word in words {
        owned.push(String::from_str(alloc, word)?)?;
    }
    invocation_of(alloc, owned.as_slice()).map_err(|_| Fail::from("no memory"))
}

// Arguments, their mode, and their workers, chunk, sample and steps. More lists stand in cases/words.jsonl.
static INVOCATIONS: [(&[&str], Mode, (u32, i64, i64, u64)); 4] = [
    (&["plain"], Mode::Plain, (4, 32, 4, 1_000_000)),
    (
        &["gen", "7", "list", "2"],
        Mode::Gen(Recipe {
            seed: 7,
            shape: Shape::List,
            size: 2,
        }),
        (4, 32, 4, 1_000_000),
    ),
    (
        &["--workers=64", "--", "check"],
        Mode::Check,
        (64, 32, 4, 1_000_000),
    ),
    (
        &[
            "--steps=4294967296",
            "--sample",
            "64",
            "--chunk=0000001024",
            "plain",
        ],
        Mode::Plain,
        (4, 1024, 64, 4_294_967_296),
    ),
];

#[test]
fn words_that_are_an_invocation(rt: HostRuntime) -> Result<(), Fail> {
    let alloc = rt.alloc();
    for (words, mode, (workers, chunk, sample, steps)) in INVOCATIONS {
        let options = Options {
            workers,
            chunk,
            sample,
            steps,
        };
        let found = read(alloc, words)?;
        assert_eq!(rt; found, Some(Invocation { mode, options }), "{words:?}");
    }
    Ok(())
}

static OTHERS: [&[&str]; 3] = [&[], &["plain", "--steps", "+5"], &["--help"]];

#[test]
fn words_that_are_none(rt: HostRuntime) -> Result<(), Fail> {
    let alloc = rt.alloc();
    for words in OTHERS {
        assert_eq!(rt; read(alloc, words)?, None, "{words:?}");
    }
    Ok(())
}

#[test]
fn the_usage_line(rt: HostRuntime) {
    assert_eq!(rt;
        usage_text(),
        "usage: nestrun plain|run|check|deps|gen [SEED KIND SIZE] [--workers N] [--chunk N] [--sample N] [--steps N]\n"
    );
}

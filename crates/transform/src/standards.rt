//! The standard candidates.

ghost use Rattle.std.specs.Prelude.{◌≡◌, ◌<◌, ◌≤◌, ◌∷◌, ◌++◌, ◌-◌, [], pos};
ghost use Rattle.std.specs.Option.{option_and_then};
ghost use Rattle.nest_lang.specs.declared.command.Command.TheVariants as commands;
ghost use Rattle.transform.specs.Drafts.{drafted_all, new_draft};
ghost use Rattle.transform.specs.Standards as standards;

use crate::Schedule;
use crate::draft::Draft;
use arrayvec::ArrayVec;
use nest_lang::Command;

/// The standard candidate with this number, from 1, for a nest of D loops, D from 1 to 6, by the table of
/// docs/SCHEDULES.md. None comes exactly where the table has no such number: past 2 for one loop, and past 5 for more.
pub fn standard<const D: usize>(number: u8) -> Option<Schedule<D>>
    requires some { 0 < D }
    requires few { D < 7 }
    ensures { result ≡ standards.standard D number }
{
    let draft = standard_draft(number)?;
    Some(draft.finish())
}

/// What the commands of a standard candidate make.
fn standard_draft<const D: usize>(number: u8) -> Option<Draft<D>>
    requires some { 0 < D }
    requires few { D < 7 }
    ensures { result ≡ option_and_then (drafted_all D (new_draft D)) (standards.standard_script D number) }
{
    if D == 1 {
        return match number {
            1 => first_parallel(),
            2 => tiled(Draft::new(), 1, 8),
            _ => None,
        };
    }
    match number {
        1 => first_parallel(),
        2 => second_parallel(),
        3 => tiled(Draft::new(), 1, 4),
        4 => skewed(),
        5 => innermost_tiled(),
        _ => None,
    }
}

/// `par 1`, and `tile A 8` for every row A.
fn first_parallel<const D: usize>() -> Option<Draft<D>>
    requires { D < 7 }
    ensures { result ≡ drafted_all D (new_draft D) (standards.parallel_row 1 ∷ standards.tiles 1 D (pos 8)) }
{
    let draft = Draft::new().with(&parallel(1))?;
    tiled(draft, 1, 8)
}

/// `seq 1; par 2`, and `tile A 8` for A from 2.
fn second_parallel<const D: usize>() -> Option<Draft<D>>
    requires { D < 7 }
    ensures { result ≡ drafted_all D (new_draft D) (commands.Seq 1 ∷ standards.parallel_row 2 ∷ standards.tiles 2 D (pos 8)) }
{
    let draft = Draft::new().with(&Command::Seq(1))?;
    let draft = draft.with(&parallel(2))?;
    tiled(draft, 2, 8)
}

/// `skew A 1 1` for A from 2, and `tile A 4` for every row.
fn skewed<const D: usize>() -> Option<Draft<D>>
    requires { D < 7 }
    ensures { result ≡ drafted_all D (new_draft D) (standards.skews D ++ standards.tiles 1 D (pos 4)) }
{
    let draft = skewed_by_first(Draft::new())?;
    tiled(draft, 1, 4)
}

/// `seq D-1; tile D 8`.
fn innermost_tiled<const D: usize>() -> Option<Draft<D>>
    requires some { 0 < D }
    requires few { D < 7 }
    ensures { result ≡ drafted_all D (new_draft D) (commands.Seq (D - 1) ∷ commands.Tile D (pos 8) ∷ []) }
{
    let draft = Draft::new().with(&Command::Seq(D as u8 - 1))?;
    draft.with(&Command::Tile(D as u8, 8))
}

/// The draft with this size for each row from the first one given.
fn tiled<const D: usize>(draft: Draft<D>, first: usize, size: i64) -> Option<Draft<D>>
    requires first { 1 ≤ first }
    requires few { D < 7 }
    ensures { result ≡ drafted_all D draft.entry (standards.tiles first D size) }
{
    let mut draft = draft;
    for row in first - 1..D {
        draft.apply(&Command::Tile(row as u8 + 1, size))?;
    }
    Some(draft)
}

/// The draft in which each row from the second has gained the first.
fn skewed_by_first<const D: usize>(draft: Draft<D>) -> Option<Draft<D>>
    requires { D < 7 }
    ensures { result ≡ drafted_all D draft.entry (standards.skews D) }
{
    let mut draft = draft;
    for row in 1..D {
        draft.apply(&Command::Skew(row as u8 + 1, 1, 1))?;
    }
    Some(draft)
}

/// The command that marks one row parallel.
fn parallel(row: u8) -> Command
    ensures { result ≡ standards.parallel_row row }
{
    let mut rows = ArrayVec::new();
    rows.push(row);
    Command::Par(rows)
}

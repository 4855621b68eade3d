//! A script that is read command by command.

ghost use Rattle.std.specs.Prelude.{◌≡◌, ◌<◌, ◌≤◌, ◌-◌, ◌&&◌, not, nat_eq, unsigned_abs, is_some, IfSome, if◌then◌else◌};
ghost use Rattle.std.specs.List.{list_all};
ghost use Rattle.nest_lang.specs.declared.command.Command.TheVariants as commands;
ghost use Rattle.transform.specs.Scripts.{are_rows, is_row, is_size, marked};

use crate::Schedule;
use affine::Unimodular;
use arrayvec::ArrayVec;
use nest_lang::Command;
use std::marker::Model;

/// The most skews of one script.
const MOST_SKEWS: u8 = 6;

/// The largest size of a skew's factor.
const LARGEST_FACTOR: u64 = 8;

/// The most rows of one mark.
const MOST_ROWS: usize = 6;

/// The greatest size of a row's tiles.
const LARGEST_SIZE: i64 = 65_536;

/// What the commands so far have made. After a command that broke a rule it says nothing.
#[derive(Drop)]
pub struct Draft<const D: usize> {
    matrix: Unimodular<D>,
    seq: Option<usize>,
    size: [u32; D],
    parallel: [bool; D],
    skews: u8,
}

impl<const D: usize> Model for Draft<D> {
    ghost use Rattle.std.specs.Prelude.{unwrap_or, is_some};
    ghost use Rattle.transform.specs.Drafts as drafts;

    ghost Value = { drafts.Draft };

    ghost view = { λ d. record { parts = record { rows = d.matrix.rows; seq = unwrap_or d.seq 0; sizes = d.size; parallel = d.parallel }; led = is_some d.seq; skews = d.skews } };

    ghost invariant = { λ d. drafts.IsDraft D d.matrix.rows d.matrix.columns (unwrap_or d.seq 0) d.size d.skews };
}

impl<const D: usize> Draft<D> {
    ghost use Rattle.std.specs.Prelude.{Some, None};
    ghost use Rattle.transform.specs.Drafts.{drafted, new_draft};
    ghost use Rattle.transform.specs.Scripts.{schedule_from};

    /// What no command makes.
    pub fn new() -> Draft<D>
        ensures { result ≡ new_draft D }
    {
        Draft {
            matrix: Unimodular::identity(),
            seq: None,
            size: [1; D],
            parallel: [false; D],
            skews: 0,
        }
    }

    /// Applies a command. None comes exactly where it breaks a rule.
    pub fn apply(&mut self, command: &Command) -> Option<()>
        ensures { drafted D self.old command.now ≡ (if is_some result then Some self.new else None) }
    {
        match command {
            Command::Seq(count) => self.lead(*count),
            Command::Swap(a, b) => self.swap(*a, *b),
            Command::Skew(a, b, m) => self.skew(*a, *b, *m),
            Command::Tile(a, size) => self.tile(*a, *size),
            Command::Par(rows) => self.mark_parallel(rows),
            Command::Wave(rows) => self.mark_wave(rows),
        }
    }

    /// What the command makes of the draft. None comes exactly where it breaks a rule.
    pub fn with(mut self, command: &Command) -> Option<Draft<D>>
        ensures { result ≡ drafted D self.entry command.now }
    {
        self.apply(command)?;
        Some(self)
    }

    /// The schedule that is made.
    pub fn finish(self) -> Schedule<D>
        ensures { result ≡ schedule_from self.entry.parts }
    {
        let Draft {
            matrix,
            seq,
            size,
            parallel,
            ..
        } = self;
        Schedule::new(matrix, seq.unwrap_or(0), size, parallel)
    }

    /// So many rows lead.
    fn lead(&mut self, count: u8) -> Option<()>
        ensures { drafted D self.old (commands.Seq count) ≡ (if is_some result then Some self.new else None) }
    {
        let count = usize::from(count);
        if count > D || self.seq.is_some() {
            return None;
        }
        self.seq = Some(count);
        Some(())
    }

    /// An exchange of rows.
    fn swap(&mut self, a: u8, b: u8) -> Option<()>
        ensures { drafted D self.old (commands.Swap a b) ≡ (if is_some result then Some self.new else None) }
    {
        let (a, b) = two_rows(a, b, D)?;
        self.matrix.swap(a, b);
        Some(())
    }

    /// Row a gains m times row b.
    fn skew(&mut self, a: u8, b: u8, m: i64) -> Option<()>
        ensures { drafted D self.old (commands.Skew a b m) ≡ (if is_some result then Some self.new else None) }
    {
        let (a, b) = two_rows(a, b, D)?;
        if m.unsigned_abs() > LARGEST_FACTOR {
            return None;
        }
        if self.skews == MOST_SKEWS {
            return None;
        }
        self.matrix.skew(a, b, m);
        self.skews += 1;
        Some(())
    }

    /// The size of a row's tiles.
    fn tile(&mut self, a: u8, size: i64) -> Option<()>
        ensures { drafted D self.old (commands.Tile a size) ≡ (if is_some result then Some self.new else None) }
    {
        let a = one_row(a, D)?;
        self.size[a] = size_from(size)?;
        Some(())
    }

    /// These rows are parallel.
    fn mark_parallel(&mut self, rows: &ArrayVec<u8, 6>) -> Option<()>
        ensures { drafted D self.old (commands.Par rows.now) ≡ (if is_some result then Some self.new else None) }
    {
        self.parallel = with_marks(self.parallel, rows.as_slice(), true)?;
        Some(())
    }

    /// These rows are wave rows.
    fn mark_wave(&mut self, rows: &ArrayVec<u8, 6>) -> Option<()>
        ensures { drafted D self.old (commands.Wave rows.now) ≡ (if is_some result then Some self.new else None) }
    {
        self.parallel = with_marks(self.parallel, rows.as_slice(), false)?;
        Some(())
    }
}

/// The place of the row with this number, which is from 1. None where there is no such row.
fn one_row(number: u8, rows: usize) -> Option<usize>
    ensures some { is_some result ≡ is_row rows number }
    ensures place { IfSome result (λ place. place ≡ number - 1) }
    ensures below { IfSome result (λ place. place < rows) }
{
    let number = usize::from(number);
    if 1 <= number && number <= rows {
        Some(number - 1)
    } else {
        None
    }
}

/// The places of two different rows.
fn two_rows(a: u8, b: u8, rows: usize) -> Option<(usize, usize)>
    ensures some { is_some result ≡ ((is_row rows a && is_row rows b) && not (nat_eq a b)) }
    ensures first { IfSome result (λ places. (places.0 ≡ a - 1) × (places.0 < rows)) }
    ensures second { IfSome result (λ places. (places.1 ≡ b - 1) × (places.1 < rows)) }
    ensures different { IfSome result (λ places. places.0 ≡ places.1 → ⊥) }
{
    let first = one_row(a, rows)?;
    let second = one_row(b, rows)?;
    if a == b { None } else { Some((first, second)) }
}

/// The number as a size of tiles.
fn size_from(size: i64) -> Option<u32>
    ensures some { is_some result ≡ is_size size }
    ensures value { IfSome result (λ number. number ≡ unsigned_abs size) }
    ensures least { IfSome result (λ number. 0 < number) }
    ensures most { IfSome result (λ number. number ≤ 65536) }
{
    if 1 <= size && size <= LARGEST_SIZE {
        Some(size as u32)
    } else {
        None
    }
}

/// The marks, with this one for these rows.
fn with_marks<const D: usize>(marks: [bool; D], rows: &[u8], mark: bool) -> Option<[bool; D]>
    ensures some { is_some result ≡ are_rows D rows.now }
    ensures value { IfSome result (λ marks'. marks' ≡ marked mark rows.now marks.entry) }
{
    if !are_rows(rows, D) {
        return None;
    }
    let mut marks = marks;
    for row in rows {
        marks[usize::from(*row) - 1] = mark;
    }
    Some(marks)
}

/// Whether these are the numbers of 1 to 6 rows.
fn are_rows(numbers: &[u8], rows: usize) -> bool
    ensures { result ≡ are_rows rows numbers.now }
{
    match numbers.len() {
        1..=MOST_ROWS => all_rows(numbers, rows),
        _ => false,
    }
}

/// Whether each of these is the number of a row.
fn all_rows(numbers: &[u8], rows: usize) -> bool
    ensures { result ≡ list_all (is_row rows) numbers.now }
{
    numbers
        .iter()
        .all(|&number| 1 <= number && usize::from(number) <= rows)
}

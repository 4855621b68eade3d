//! What a nest is run with.

ghost use Rattle.std.specs.Prelude.{◌≡◌, ◌<◌, ◌++◌, length, slice_get, Some, IfOk, OnOk};
ghost use Rattle.std.specs.List.{filter_map};
ghost use Rattle.std.specs.Option.{option_to_list};
ghost use Rattle.nest_grammar.specs.declared.file.NestUnit.{NestUnit};
ghost use Rattle.transform.specs.Scripts.{schedule_of};
ghost use Rattle.transform.specs.Standards.{standard_scripts};
ghost use Rattle.journeys.specs.Settings.{candidates, setting_of};
ghost use Rattle.controller.specs.Courses.{IsUnit};

use nest_lang::{Command, Nest};
use nest_text::NestFile;
use report::Options;
use sqlite_items::Items;
use std::alloc::{AllocError, Global};
use std::marker::Model;
use transform::{Schedule, schedule_of, standard};

/// The most standard candidates that a nest has.
const MOST_STANDARD: u8 = 5;

/// A nest of a file, by its number from 0, and the options.
#[derive(Clone, Copy)]
pub struct Unit<'a> {
    pub file: &'a NestFile,
    pub number: usize,
    pub nest: &'a Nest,
    pub options: Options,
}

impl<'a> Unit<'a> {
    /// The scripts of the candidates that the file has for the nest.
    fn scripts(&self) -> &'a [Items<Command>]
        ensures { (u : NestUnit) → slice_get self.now.file.now.units self.now.number ≡ Some u → result.now ≡ u.scripts }
    {
        match self.file.file().units.get(self.number) {
            Some(unit) => unit.scripts.as_slice(),
            None => &[],
        }
    }
}

/// What a nest of D loops is run with: its candidates, the turns of a profile, and those of a chunk. Contracts see it as a
/// setting.
#[derive(Drop)]
pub struct Course<'a, const D: usize> {
    pub nest: &'a Nest,
    pub scalars: u8,
    pub candidates: Vec<Schedule<D>>,
    pub sample: u64,
    pub chunk: u64,
}

impl<'a, const D: usize> Model for Course<'a, D> {
    ghost use Rattle.nest_lang.specs.contracts.tree.Expr as expr;
    ghost use Rattle.nest_lang.specs.contracts.tree.Stmt as stmt;
    ghost use Rattle.std.specs.Coded.{codes};
    ghost use Rattle.journeys.specs.Settings.{Setting};
    ghost use Rattle.controller.specs.Courses.{IsSetting};

    ghost Value = { Setting };

    ghost coded = { Prim.hlevel (codes, expr.the_row.coded, stmt.the_row.coded) };

    ghost view = { λ c. record { loops = c.nest.now.loops; scalars = c.scalars; candidates = c.candidates.items; sample = c.sample; chunk = c.chunk } };

    ghost invariant = { λ c. IsSetting D (record { loops = c.nest.now.loops; scalars = c.scalars; candidates = c.candidates.items; sample = c.sample; chunk = c.chunk }) };
}

impl<'a, const D: usize> Course<'a, D> {
    /// What a nest of a file is run with.
    pub fn of(alloc: Global, unit: &Unit<'a>) -> Result<Course<'a, D>, AllocError>
        requires few { D < 7 }
        requires unit { IsUnit unit.now.file.now unit.now.number unit.now.nest.now unit.now.options }
        requires depth { length unit.now.nest.now.loops ≡ D }
        ensures { IfOk result (λ course. (u : NestUnit) → slice_get unit.now.file.now.units unit.now.number ≡ Some u → course ≡ setting_of unit.now.options (length unit.now.file.now.scalars) u) }
    {
        Ok(Course {
            nest: unit.nest,
            scalars: unit.file.file().scalars.len() as u8,
            candidates: candidates(alloc, unit.scripts())?,
            sample: unit.options.sample as u64,
            chunk: unit.options.chunk as u64,
        })
    }
}

/// The candidates of a nest: those of these scripts or, where there is none, the standard ones.
fn candidates<const D: usize>(
    alloc: Global,
    scripts: &[Items<Command>],
) -> Result<Vec<Schedule<D>>, AllocError>
    requires some { 0 < D }
    requires few { D < 7 }
    ensures { IfOk result (λ schedules. schedules.items ≡ candidates D scripts.now) }
{
    if scripts.is_empty() {
        standards(alloc)
    } else {
        schedules_of(alloc, scripts)
    }
}

/// The standard candidates.
fn standards<const D: usize>(alloc: Global) -> Result<Vec<Schedule<D>>, AllocError>
    requires some { 0 < D }
    requires few { D < 7 }
    ensures { IfOk result (λ schedules. schedules.items ≡ filter_map (schedule_of D) (standard_scripts D)) }
{
    let mut schedules = Vec::new(alloc);
    for place in 0..MOST_STANDARD {
        let schedule = standard(place + 1);
        add(&mut schedules, schedule)?;
    }
    Ok(schedules)
}

/// The schedules of these scripts.
fn schedules_of<const D: usize>(
    alloc: Global,
    scripts: &[Items<Command>],
) -> Result<Vec<Schedule<D>>, AllocError>
    requires { D < 7 }
    ensures { IfOk result (λ schedules. schedules.items ≡ filter_map (schedule_of D) scripts.now) }
{
    let mut schedules = Vec::with_capacity(alloc, scripts.len())?;
    for script in scripts {
        let schedule = schedule_of(script.as_slice());
        add(&mut schedules, schedule)?;
    }
    Ok(schedules)
}

/// Puts a schedule behind others, where there is one.
fn add<const D: usize>(
    schedules: &mut Vec<Schedule<D>>,
    schedule: Option<Schedule<D>>,
) -> Result<(), AllocError>
    ensures { OnOk result (schedules.new.items ≡ schedules.old.items ++ option_to_list schedule.entry) }
{
    if let Some(schedule) = schedule {
        schedules.push(schedule)?;
    }
    Ok(())
}

//! The scripts of a schedule list, and their schedules.

ghost use Rattle.std.specs.Prelude.{◌≡◌, ◌<◌, ◌≤◌, ◌+◌, ◌-◌, ◌++◌, pos, length};
ghost use Rattle.transform.specs.Standards.{tiles};
ghost use Rattle.seek.specs.ScheduleLists as lists;

use crate::script::Script;
use nest_lang::Command;
use transform::{Schedule, schedule_of};

/// The script of a number, from 1, in the schedule list of a nest of so many loops. None comes exactly where the loops aren't
/// 1 to 6, or the list has no such number.
pub fn listed(depth: u8, number: u32) -> Option<Script>
    ensures { result ≡ lists.listed depth number }
{
    if !(1..=6).contains(&depth) || number < 1 || number > count(depth) {
        return None;
    }
    Some(script_at(depth, number - 1))
}

/// How many choices there are of a factor from 0 to 3 for each row from the second.
fn choices(depth: u8) -> u32
    requires some { 1 ≤ depth }
    requires few { depth ≤ 6 }
    ensures value { result ≡ lists.choices depth }
    ensures most { result ≤ 1024 }
{
    4u32.pow(u32::from(depth) - 1)
}

/// How many scripts a list has.
pub fn count(depth: u8) -> u32
    requires some { 1 ≤ depth }
    requires few { depth ≤ 6 }
    ensures value { result ≡ lists.count depth }
    ensures most { result ≤ 2048 }
{
    if depth == 1 { 1 } else { 2 * choices(depth) }
}

/// The script at a place, from 0.
fn script_at(depth: u8, place: u32) -> Script
    requires some { 1 ≤ depth }
    requires few { depth ≤ 6 }
    ensures { result ≡ lists.script_at depth place }
{
    let mut script = Script::new();
    let choices = choices(depth);
    if place < choices {
        push_skewed(&mut script, depth, place);
    } else {
        script.push(Command::Swap(1, 2));
        push_skewed(&mut script, depth, place - choices);
    }
    script
}

/// Puts the skews by the digits of a number behind a script, and then tiles of size 4.
fn push_skewed(script: &mut Script, depth: u8, factors: u32)
    requires some { 1 ≤ depth }
    requires few { depth ≤ 6 }
    requires room { length script.old ≤ 1 }
    ensures { script.new ≡ script.old ++ lists.skewed depth factors }
{
    push_skews(script, depth, factors);
    push_tiles(script, depth);
}

/// Puts the skews by the digits of a number behind a script.
fn push_skews(script: &mut Script, depth: u8, factors: u32)
    requires some { 1 ≤ depth }
    requires few { depth ≤ 6 }
    requires room { length script.old ≤ 1 }
    ensures value { script.new ≡ script.old ++ lists.skews depth factors }
    ensures few { length script.new ≤ length script.old + 5 }
{
    for row in 2..depth + 1 {
        push_skew(script, row, factor(depth, factors, row));
    }
}

/// The factor of a row: a digit in base 4.
fn factor(depth: u8, factors: u32, row: u8) -> u8
    requires few { depth ≤ 6 }
    requires from { 2 ≤ row }
    requires to { row ≤ depth }
    ensures value { result ≡ lists.factor depth factors row }
    ensures small { result ≤ 3 }
{
    (factors / 4u32.pow(u32::from(depth - row)) % 4) as u8
}

/// Puts the skew of a row by a factor behind a script; none where the factor is 0.
fn push_skew(script: &mut Script, row: u8, factor: u8)
    requires room { length script.old < 12 }
    ensures value { script.new ≡ script.old ++ lists.skew_by row factor }
    ensures few { length script.new ≤ length script.old + 1 }
{
    if factor > 0 {
        script.push(Command::Skew(row, 1, i64::from(factor)));
    }
}

/// Puts tiles of size 4 for each row behind a script.
fn push_tiles(script: &mut Script, depth: u8)
    requires few { depth ≤ 6 }
    requires room { length script.old ≤ 6 }
    ensures { script.new ≡ script.old ++ tiles 1 depth (pos 4) }
{
    for row in 1..depth + 1 {
        script.push(Command::Tile(row, 4));
    }
}

/// The schedule at a place, from 0, for a nest of D loops, D from 1 to 6.
pub fn schedule_at<const D: usize>(place: u32) -> Schedule<D>
    requires some { 1 ≤ D }
    requires few { D ≤ 6 }
    requires inside { place < lists.count D }
    ensures { result ≡ lists.schedule_at D place }
{
    match schedule_of(script_at(D as u8, place).as_slice()) {
        Some(schedule) => schedule,
        None => unreachable!(),
    }
}

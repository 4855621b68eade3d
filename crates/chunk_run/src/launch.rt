//! What is launched.

use follow_chunk::Task;
use shared_words::SharedWords;
use transform::Schedule;

/// A task's chunk in the order of a schedule, by so many workers over some words.
#[derive(Clone, Copy)]
pub struct Launch<'a, const D: usize> {
    pub task: &'a Task<'a, D>,
    pub schedule: &'a Schedule<D>,
    pub words: &'a SharedWords,
    pub workers: u32,
}

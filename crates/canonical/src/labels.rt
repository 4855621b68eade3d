//! The names of places.

ghost use Rattle.std.specs.Prelude.{◌≡◌};
ghost use Rattle.canonical.specs.Labels.{label, in_head, in_pre, in_post};
ghost use Rattle.nest_lang.specs.declared.tree.Place.TheVariants.{Counter};
ghost use Rattle.canonical.specs.Labelled.{labels_of};

use nest_grammar::{LoopNames, Scalar};
use nest_lang::Place;
use nest_tokens::Name;

/// The name of what has none.
const NOBODY: Name = Name { bytes: [0; 32] };

/// The scalars of a file, the names of a nest's loops, and those of a block's locals.
#[derive(Clone, Copy, Debug)]
pub struct Labels<'a> {
    pub scalars: &'a [Scalar],
    pub loops: &'a [LoopNames],
    pub lets: &'a [Name],
}

impl Labels<'_> {
    /// The name of a place.
    #[tactic(auto, unfolding(crate::specs::Labels::label))]
    pub fn name(&self, place: Place) -> Name
        ensures { result ≡ label (labels_of self.now) place }
    {
        match place {
            Place::Scalar(number) => match self.scalars.get(number as usize) {
                Some(scalar) => scalar.name,
                None => NOBODY,
            },
            Place::Counter(number) => match self.loops.get(number as usize) {
                Some(names) => names.counter.unwrap_or(NOBODY),
                None => NOBODY,
            },
            Place::Local(number) => self.lets.get(number as usize).copied().unwrap_or(NOBODY),
        }
    }
    /// The name of the turns of the loop at a level, from 0.
    #[tactic(auto, unfolding(crate::specs::Labels::label))]
    pub fn turns(&self, level: usize) -> Name
        ensures { result ≡ label (labels_of self.now) (Counter level) }
    {
        match self.loops.get(level) {
            Some(names) => names.counter.unwrap_or(NOBODY),
            None => NOBODY,
        }
    }
}

impl<'a> Labels<'a> {
    /// The same in a loop's head, which has no locals.
    pub fn in_head(&self) -> Labels<'a>
        ensures { labels_of result ≡ in_head (labels_of self.now) }
    {
        Labels { lets: &[], ..*self }
    }

    /// The same in the block before the inner loop, at a level from 0.
    pub fn in_pre(&self, level: usize) -> Labels<'a>
        ensures { labels_of result ≡ in_pre (labels_of self.now) level }
    {
        let lets = match self.loops.get(level) {
            Some(names) => names.pre.as_slice(),
            None => &[],
        };
        Labels { lets, ..*self }
    }

    /// The same in the block behind the inner loop, at a level from 0.
    pub fn in_post(&self, level: usize) -> Labels<'a>
        ensures { labels_of result ≡ in_post (labels_of self.now) level }
    {
        let lets = match self.loops.get(level) {
            Some(names) => names.post.as_slice(),
            None => &[],
        };
        Labels { lets, ..*self }
    }
}

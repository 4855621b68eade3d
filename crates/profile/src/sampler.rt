//! A watch that keeps what it is shown.

ghost use Rattle.std.specs.Prelude.{◌≡◌, ◌^◌, ◌-ℤ◌, pos, [], Some, None, IfSome, MatchResult, MatchOption, ◌<◌, length, ok_or, alloc_error};
ghost use Rattle.line_fit.specs.Answers.{IsUnfit};
ghost use Rattle.line_fit.specs.Lines.{IsFit};
ghost use Rattle.profile.specs.Logs.{told_value};
ghost use Rattle.profile.specs.Gathered.{samples_of};

use crate::gather::gather;
use crate::log::{Item, Log, Shown};
use block_exec::Watch;
use line_fit::{NoFit, Tube, fit_datum};
use nest_lang::{BlockRef, Seen};
use std::alloc::{AllocError, Global};
use std::marker::Model;

/// A watch that keeps the observations that it is shown, in order. Once memory was refused it stays so, and later
/// observations are dropped. Contracts see it as the list of its observations, or as None where memory was refused.
#[derive(Drop)]
pub struct Sampler {
    log: Log,
    refused: bool,
}

impl Model for Sampler {
    ghost use Rattle.std.specs.Prelude.{List, Option, Bool, true, false, [], ◌≡◌};
    ghost use Rattle.nest_lang.specs.Traces.{Observation};
    ghost use Rattle.profile.specs.Logs.{told, IsInStep};
    ghost use Rattle.profile.specs.Keeping.{kept_unless};

    ghost Value = { Option (List Observation) };

    ghost view = { λ s. kept_unless s.refused (told [] s.log.items.items) };

    ghost invariant = { λ s. s.refused ≡ false → IsInStep s.log };
}

/// The observations of the turns that a sampler watched, in order. Contracts see it as that list.
#[derive(Drop)]
pub struct Samples {
    items: Vec<Item>,
}

impl Model for Samples {
    ghost use Rattle.std.specs.Prelude.{List, []};
    ghost use Rattle.nest_lang.specs.Traces.{Observation};
    ghost use Rattle.profile.specs.Logs.{told};

    ghost Value = { List Observation };

    ghost view = { λ s. told [] s.items.items };
}

impl Sampler {
    /// A sampler that was shown nothing.
    pub fn new(alloc: Global) -> Sampler
        ensures { result ≡ Some [] }
    {
        Sampler {
            log: Log::new(alloc),
            refused: false,
        }
    }

    /// The observations that it was shown, unless memory was refused.
    pub fn finish(self) -> Result<Samples, AllocError>
        ensures { result ≡ ok_or self alloc_error }
    {
        let Sampler { log, refused } = self;
        if refused {
            return Err(AllocError);
        }
        let Log { items, counters: _ } = log;
        Ok(Samples { items })
    }
}

impl Samples {
    /// The fit of a datum of a block, with a tube at most so wide: of a scalar, an address, a lower bound or a trip.
    /// The trip of an inner `while` is told by its false conditions. None exactly where the datum has no samples.
    /// D is at most 6.
    pub fn fit_of<const D: usize>(
        &self,
        alloc: Global,
        block: BlockRef,
        what: Seen,
        widest: u8,
    ) -> Result<Option<Tube<D>>, NoFit<D>>
        requires { D < 7 }
        ensures { let samples = samples_of D block what self.now in MatchResult result (λ fit. MatchOption fit (samples ≡ []) (λ tube. (0 < length samples) × IsFit D widest samples tube)) (λ why. IsUnfit D widest samples why) }
    {
        let samples = gather(alloc, &self.items, block, what)?;
        fit_datum(alloc, &samples, widest)
    }
}

impl Watch for Sampler {
    ghost use Rattle.profile.specs.Sampled.{MayKeep};

    ghost may = { MayKeep };

    fn see(&mut self, block: BlockRef, counters: &[i64], what: Seen, value: i128) {
        if self.refused || what == Seen::Start {
            return;
        }
        let shown = Shown { block, what };
        self.refused = match kept_value(what, value) {
            Some(value) => self.log.note(shown, counters, value).is_err(),
            None => true,
        };
    }
}

/// The number that stands for a value: a trip is kept less 2^63. None where it is no i64, which no run shows.
fn kept_value(what: Seen, value: i128) -> Option<i64>
    ensures { IfSome result (λ kept. told_value what kept ≡ value) }
{
    match what {
        Seen::Trip => i64::try_from(value.checked_sub(1 << 63)?).ok(),
        _ => i64::try_from(value).ok(),
    }
}

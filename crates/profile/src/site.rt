//! The fit of a block: of its scalars, of its accesses, and of the bounds of its loop.

ghost use Rattle.std.specs.Prelude.{◌≡◌, ◌<◌, ◌≤◌, ◌∷◌, [], pos, length, map, List, MatchResult};
ghost use Rattle.std.specs.List.{range_with_len};
ghost use Rattle.nest_lang.specs.Accesses.{accesses_of};
ghost use Rattle.nest_lang.specs.Traces.{Observation};
ghost use Rattle.domain.specs.declared.prediction.What.TheVariants.{Scalar, Address};
ghost use Rattle.line_fit.specs.Answers.{IsUnfit};
ghost use Rattle.profile.specs.declared.unfit.UnfitWhy.TheVariants.{Line};
ghost use Rattle.profile.specs.Data.{bounds_of, data_of, samples_at, shown_as as shown_as_of, tube_about, widest as widest_of};
ghost use Rattle.profile.specs.Fits.{HasFitAt, HasNarrowTube};
ghost use Rattle.domain.specs.Shapes.{is_store};
ghost use Rattle.profile.specs.Parts.{AreAccessFits, AreBoundFits, AreScalarFits, HasTube, IsBlockFit, IsEndIn};

use crate::bounds::Bounds;
use crate::sampler::Samples;
use crate::unfit::{FitEnd, Unfit, UnfitWhy};
use affine::Form;
use domain::{AccessForm, BlockForms, Instance, What};
use line_fit::{Miss, NoFit, Tube};
use nest_lang::{Access, AccessKind, BlockRef, Nest, Part, Seen};
use std::alloc::Global;

/// A present block, with its rank.
#[derive(Clone, Copy)]
pub struct Site {
    pub rank: u8,
    pub block: BlockRef,
}

/// A block with its forms, and the bounds of the loop of which it is the head.
#[derive(Drop)]
pub struct BlockFit<const D: usize> {
    pub forms: BlockForms<D>,
    pub bounds: Bounds<D>,
}

impl Site {
    /// The fit of a datum of the block.
    fn fit<const D: usize>(
        self,
        alloc: Global,
        samples: &Samples,
        what: What,
    ) -> Result<Option<Tube<D>>, FitEnd<D>>
        requires { D < 7 }
        ensures { MatchResult result (λ fit. HasFitAt D samples.now self.block what fit) (λ end. IsEndIn D samples.now self.rank self.block (what ∷ []) end) }
    {
        match samples.fit_of(alloc, self.block, shown_as(what), widest(what)) {
            Ok(fit) => Ok(fit),
            Err(why) => Err(self.end(what, why)),
        }
    }

    /// What is answered where a datum of the block has no fit.
    fn end<const D: usize>(self, what: What, why: NoFit<D>) -> FitEnd<D>
        ensures { (observations : List Observation) → IsUnfit D (widest_of what) (samples_at D observations self.block what) why.entry → IsEndIn D observations self.rank self.block (what ∷ []) result }
    {
        match why {
            NoFit::NoMemory => FitEnd::NoMemory,
            NoFit::Large(number) => FitEnd::Unfit(Unfit {
                block: self.rank,
                what,
                why: UnfitWhy::Large(number),
            }),
            NoFit::Missed(miss) => FitEnd::Unfit(Unfit {
                block: self.rank,
                what,
                why: self.missed(&miss),
            }),
        }
    }

    /// The reason that a line misses a sample.
    fn missed<const D: usize>(self, miss: &Miss<D>) -> UnfitWhy<D>
        ensures { result ≡ Line (record { block = self.rank; at = miss.now.at }) miss.now.line miss.now.seen }
    {
        let at = Instance {
            block: self.rank,
            at: miss.at,
        };
        UnfitWhy::Line {
            at,
            line: miss.line,
            seen: miss.seen,
        }
    }

    /// The form of a datum of the block that lies on its line.
    fn line<const D: usize>(
        self,
        alloc: Global,
        samples: &Samples,
        what: What,
    ) -> Result<Option<Form<D>>, FitEnd<D>>
        requires few { D < 7 }
        requires narrow { widest_of what ≡ 0 }
        ensures { MatchResult result (λ line. HasFitAt D samples.now self.block what (tube_about line (pos 0) (pos 0))) (λ end. IsEndIn D samples.now self.rank self.block (what ∷ []) end) }
    {
        match self.fit(alloc, samples, what)? {
            Some(tube) => Ok(Some(tube.line)),
            None => Ok(None),
        }
    }

    /// The forms of the scalars.
    fn scalars<const D: usize>(
        self,
        alloc: Global,
        samples: &Samples,
        count: u8,
    ) -> Result<Vec<Option<Form<D>>>, FitEnd<D>>
        requires { D < 7 }
        ensures { MatchResult result (λ forms. AreScalarFits D samples.now self.block count forms.items) (λ end. IsEndIn D samples.now self.rank self.block (map (λ n. Scalar n) (range_with_len 0 count)) end) }
    {
        let mut forms = Vec::new(alloc);
        for number in 0..count {
            forms.push(self.line(alloc, samples, What::Scalar(number))?)?;
        }
        Ok(forms)
    }

    /// The accesses, each with the form of its address and the tube about it.
    fn accesses<const D: usize>(
        self,
        alloc: Global,
        samples: &Samples,
        accesses: &[Access],
    ) -> Result<Vec<AccessForm<D>>, FitEnd<D>>
        requires few { D < 7 }
        requires short { length accesses.now ≤ 64 }
        ensures { MatchResult result (λ forms. AreAccessFits D samples.now self.block accesses.now forms.items) (λ end. IsEndIn D samples.now self.rank self.block (map (λ n. Address n) (range_with_len 1 (length accesses.now))) end) }
    {
        let mut forms = Vec::new(alloc);
        for (before, access) in accesses.iter().enumerate() {
            let fit = self.fit(alloc, samples, What::Address(before as u8 + 1))?;
            forms.push(access_form(access.kind, &fit))?;
        }
        Ok(forms)
    }

    /// The bounds of the loop of which the block is the head, where that is an inner loop.
    fn bounds<const D: usize>(
        self,
        alloc: Global,
        samples: &Samples,
    ) -> Result<Bounds<D>, FitEnd<D>>
        requires { D < 7 }
        ensures { MatchResult result (λ bounds. AreBoundFits D samples.now self.block bounds) (λ end. IsEndIn D samples.now self.rank self.block (bounds_of self.block.part self.block.level) end) }
    {
        if self.block.part != Part::Head || self.block.level < 2 {
            return Ok(Bounds {
                lower: None,
                trip: None,
            });
        }
        let lower = self.line(alloc, samples, What::Lower)?;
        let trip = self.line(alloc, samples, What::Trip)?;
        Ok(Bounds { lower, trip })
    }

    /// The block with the forms of its data, and the bounds of its loop.
    pub fn block<const D: usize>(
        self,
        alloc: Global,
        nest: &Nest,
        scalars: u8,
        samples: &Samples,
    ) -> Result<BlockFit<D>, FitEnd<D>>
        requires few { D < 7 }
        requires short { length (accesses_of nest.now.loops self.block) ≤ 64 }
        ensures { MatchResult result (λ fit. IsBlockFit D scalars nest.now.loops samples.now self.block fit.forms fit.bounds) (λ end. IsEndIn D samples.now self.rank self.block (data_of scalars nest.now.loops self.block) end) }
    {
        let scalars = self.scalars(alloc, samples, scalars)?;
        let accesses = self.accesses(alloc, samples, nest.accesses(self.block).as_slice())?;
        let bounds = self.bounds(alloc, samples)?;
        let forms = BlockForms {
            part: self.block.part,
            level: self.block.level,
            scalars,
            accesses,
        };
        Ok(BlockFit { forms, bounds })
    }
}

/// An access with the fit of its address, or with none.
fn access_form<const D: usize>(kind: AccessKind, fit: &Option<Tube<D>>) -> AccessForm<D>
    requires { HasTube fit.now }
    ensures stores { result.stores ≡ is_store kind }
    ensures fit { fit.now ≡ tube_about result.line result.low result.high }
    ensures narrow { HasNarrowTube result }
{
    let stores = kind == AccessKind::Store;
    match fit {
        Some(tube) => AccessForm {
            stores,
            line: Some(tube.line),
            low: tube.low,
            high: tube.high,
        },
        None => AccessForm {
            stores,
            line: None,
            low: 0,
            high: 0,
        },
    }
}

/// How a datum is shown in a run.
fn shown_as(what: What) -> Seen
    ensures { result ≡ shown_as_of what }
{
    match what {
        What::Scalar(number) => Seen::Scalar(number),
        What::Address(access) => Seen::Address(access),
        What::Lower => Seen::Lower,
        What::Trip => Seen::Trip,
    }
}

/// How wide the tube of a datum may be.
fn widest(what: What) -> u8
    ensures { result ≡ widest_of what }
{
    match what {
        What::Address(_) => 64,
        _ => 0,
    }
}

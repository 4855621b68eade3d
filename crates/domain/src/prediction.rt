//! Predictions: the forms of a nest's data.

ghost use Rattle.std.specs.Prelude.{◌≡◌, ◌<◌, ◌≤◌, ◌^◌, ℤ, Option, IfSome, length};
ghost use Rattle.std.specs.Option.{option_copied};
ghost use Rattle.affine.specs.Forms.{value_at};
ghost use Rattle.domain.specs.Tables.{Table, IsTable, IsBlock, Reaches, stride_size, level_at, block_at, depth, head_level, rank_of, repeats, trip};
ghost use Rattle.domain.specs.Instances.{opening_at};
ghost use Rattle.domain.specs.Expected.{form_of, tube_of, expected_of};

use crate::instance::Instance;
use crate::steps::cut;
use crate::table::{BlockForms, LoopForms, LoopKind};
use affine::Form;
use nest_lang::Part;
use std::marker::Model;

/// A datum of a block: a scalar as it begins, numbered from 0, the address of an access, numbered from 1, or the lower
/// bound or the trip of a head.
#[derive(Clone, Copy, Debug, PartialEq, Eq)]
pub enum What {
    Scalar(u8),
    Address(u8),
    Lower,
    Trip,
}

/// What is expected of a nest of D loops: its loops, the outermost first, and its present blocks in the order of the
/// text, with a form for each datum that was seen.
#[derive(Drop)]
pub struct Prediction<const D: usize> {
    levels: Vec<LoopForms<D>>,
    blocks: Vec<BlockForms<D>>,
}

impl<const D: usize> Model for Prediction<D> {
    ghost use Rattle.std.specs.Prelude.{◌≡◌, length};
    ghost use Rattle.domain.specs.Tables.{Table, IsTable, IsBlock, Reaches, stride_size, level_at, block_at, depth, head_level, rank_of, repeats, trip};

    ghost Value = { Table };

    ghost view = { λ p. record { levels = p.levels.items; blocks = p.blocks.items } };

    ghost invariant = { λ p. IsTable D (record { levels = p.levels.items; blocks = p.blocks.items }) };
}

impl<const D: usize> Prediction<D> {
    /// The prediction of these loops and blocks.
    pub fn new(levels: Vec<LoopForms<D>>, blocks: Vec<BlockForms<D>>) -> Prediction<D>
        requires { IsTable D (record { levels = levels.items; blocks = blocks.items }) }
        ensures { result ≡ record { levels = levels.entry.items; blocks = blocks.entry.items } }
    {
        Prediction { levels, blocks }
    }

    /// The rank of the block of that part and level, where it is present.
    pub(crate) fn rank(&self, part: Part, level: usize) -> Option<u8>
        ensures rank { result ≡ rank_of self.now part level }
        ensures small { IfSome result (λ rank. rank < 18) }
    {
        for (rank, block) in self.blocks.iter().enumerate() {
            if block.is(part, level) {
                return Some(rank as u8);
            }
        }
        None
    }

    /// The instance of the first block at a turn, with inner counters 0.
    pub(crate) fn opening(&self, turn: i64) -> Instance<D>
        ensures opening { result ≡ opening_at self.now turn }
        ensures table { IsTable D self.now }
    {
        let _levels = &self.levels;
        let mut at = [0; D];
        at[0] = turn;
        Instance { block: 0, at }
    }

    /// The number of present blocks, at most 18.
    pub fn block_count(&self) -> usize
        ensures value { result ≡ length self.now.blocks }
        ensures short { result ≤ 18 }
        ensures table { IsTable D self.now }
    {
        self.blocks.len()
    }

    /// The block of a rank, from 0.
    pub fn block(&self, rank: u8) -> &BlockForms<D>
        requires { rank < length self.now.blocks }
        ensures block { result.now ≡ block_at self.now rank }
        ensures is { IsBlock D result.now }
        ensures short { length self.now.blocks ≤ 18 }
        ensures deep { depth self.now ≡ D }
        ensures table { IsTable D self.now }
    {
        &self.blocks[rank as usize]
    }

    /// The loop inside so many others.
    pub fn level(&self, around: usize) -> &LoopForms<D>
        requires { around < D }
        ensures level { result.now ≡ level_at self.now around }
        ensures strides { stride_size result.now.kind ≤ 2 ^ 63 }
        ensures reach { Reaches (stride_size result.now.kind) result.now.trip }
    {
        &self.levels[around]
    }

    /// Whether the loop inside so many others is a `while`.
    pub fn repeats(&self, around: usize) -> bool
        requires { around < D }
        ensures { result ≡ repeats self.now around }
    {
        matches!(self.levels[around].kind, LoopKind::While)
    }

    /// The predicted trip of the loop inside so many others, at the counters of these alone.
    pub(crate) fn trip(&self, around: usize, at: &[i64; D]) -> i128
        requires { around < D }
        ensures { result ≡ trip self.now around at.now }
    {
        match &self.levels[around].trip {
            Some(form) => form.at(&cut(at, around)),
            None => 0,
        }
    }

    /// The loop of which the block is the head.
    fn head_loop(&self, block: &BlockForms<D>) -> Option<&LoopForms<D>>
        ensures { option_copied result ≡ head_level self.now block.now }
    {
        if block.part != Part::Head {
            return None;
        }
        let around = block.level.checked_sub(1)?;
        self.levels.get(around as usize)
    }

    /// The form of a datum of the block of that rank; None exactly where it has none.
    #[tactic(auto, unfolding(crate::specs::Expected::form_of))]
    pub fn form(&self, block: u8, what: What) -> Option<Form<D>>
        ensures { result ≡ form_of self.now block what }
    {
        let forms = self.blocks.get(block as usize)?;
        match what {
            What::Scalar(number) => forms.scalar(number),
            What::Address(number) => forms.line(number),
            What::Lower => self.head_loop(forms)?.lower,
            What::Trip => self.head_loop(forms)?.trip,
        }
    }

    /// The tube of an access of the block of that rank, as its least and its greatest distance from the line; None exactly
    /// where the access has no form.
    #[tactic(auto, unfolding(crate::specs::Expected::tube_of))]
    pub fn tube(&self, block: u8, access: u8) -> Option<(i64, i64)>
        ensures { result ≡ tube_of self.now block access }
    {
        self.blocks.get(block as usize)?.tube(access)
    }
}

/// The expected value of a datum at an instance: that of its form at the counters, for an address the line. None
/// exactly where the datum has no form. D is at most 6.
#[tactic(auto, unfolding(crate::specs::Expected::expected_of))]
pub fn expected<const D: usize>(
    pred: &Prediction<D>,
    inst: &Instance<D>,
    what: What,
) -> Option<i128>
    requires { D < 7 }
    ensures { result ≡ expected_of pred.now inst.now what }
{
    let form = pred.form(inst.block, what)?;
    Some(form.at(&inst.at))
}

//! The present blocks of a nest, in the order of the text (docs/DEFINITIONS.md, Blocks).

ghost use Rattle.std.specs.Prelude.{◌≡◌, ◌+◌, ◌*◌, ◌≤◌, ◌++◌, length, slice_get, option_map};
ghost use Rattle.std.specs.List.{position};
ghost use Rattle.arrayvec.specs.ArrayVec.{array_vec_len};
ghost use Rattle.nest_lang.specs.Blocks.{present_blocks, outermost, opening, closing, block_if_any, rank_of, same_block, loop_at, head_at, statements_of, counters_of};

use crate::tree::{BlockRef, Head, Loop, Nest, Part, Stmt};
use arrayvec::ArrayVec;
use sqlite_items::Items;

impl Nest {
    /// The present blocks: at most 18, which are three for each loop.
    #[tactic(auto, using(crate::proofs::PresentBlockLaws::present), unfolding(crate::specs::Blocks::present_blocks))]
    pub fn blocks(&self) -> ArrayVec<BlockRef, 18>
        requires { length self.now.loops ≤ 6 }
        ensures { result.items ≡ present_blocks self.now.loops }
    {
        let mut blocks = ArrayVec::new();
        if let Some((first, inner)) = self.loops.as_slice().split_first() {
            push_outermost(&first.head, &mut blocks);
            push_if_any(Part::Pre, 1, &first.pre, &mut blocks);
            push_opening(inner, 2, &mut blocks);
            push_closing(self.loops.as_slice(), 1, &mut blocks);
        }
        blocks
    }

    /// The present block of a number, from 0. None exactly where there are not so many.
    pub fn present(&self, number: u8) -> Option<BlockRef>
        requires { length self.now.loops ≤ 6 }
        ensures { result ≡ slice_get (present_blocks self.now.loops) number }
    {
        self.blocks().get(number as usize).copied()
    }

    /// The rank of a block: its number among the present ones, from 0. None exactly where it is none
    /// of them.
    pub fn rank(&self, block: BlockRef) -> Option<u8>
        requires { length self.now.loops ≤ 6 }
        ensures { result ≡ rank_of self.now.loops block }
    {
        let blocks = self.blocks();
        let rank = rank_in(blocks.as_slice(), block)?;
        Some(rank as u8)
    }

    /// The loop at a level, from 1 for the outermost. None exactly where there is none.
    pub fn level(&self, level: u8) -> Option<&Loop>
        ensures { option_map (λ one. one.now) result ≡ loop_at self.now.loops level }
    {
        if level == 0 {
            return None;
        }
        self.loops.get((level - 1) as usize)
    }

    /// The head of the loop at a level. None exactly where there is none.
    pub fn head(&self, level: u8) -> Option<&Head>
        ensures { option_map (λ head. head.now) result ≡ head_at self.now.loops level }
    {
        let at = self.level(level)?;
        Some(&at.head)
    }

    /// How many turn numbers an occurrence of a block has: those of the loops around it and of its own
    /// loop, but for the head of a `for`, which runs before the turns of its loop. None exactly where
    /// the nest has no such level.
    pub fn counters(&self, block: BlockRef) -> Option<u8>
        ensures { result ≡ counters_of self.now.loops block }
    {
        match (block.part, self.head(block.level)?) {
            (Part::Head, Head::For(_, _, _)) => Some(block.level - 1),
            _ => Some(block.level),
        }
    }

    /// The statements of a block. None exactly for a head, and where the nest has no such level.
    pub fn statements(&self, block: BlockRef) -> Option<&[Stmt]>
        ensures { option_map (λ block. block.now) result ≡ statements_of self.now.loops block }
    {
        let at = self.level(block.level)?;
        match block.part {
            Part::Head => None,
            Part::Pre => Some(at.pre.as_slice()),
            Part::Post => Some(at.post.as_slice()),
        }
    }
}

/// The place of a block in a list.
fn rank_in(blocks: &[BlockRef], block: BlockRef) -> Option<usize>
    ensures { result ≡ position (λ b. same_block b block) blocks.now }
{
    blocks.iter().position(|b| *b == block)
}

/// The head of the outermost loop, where it is a `while`.
fn push_outermost(head: &Head, blocks: &mut ArrayVec<BlockRef, 18>)
    requires { array_vec_len blocks.old + 1 ≤ 18 }
    ensures items { blocks.new.items ≡ blocks.old.items ++ outermost head.now }
    ensures len { array_vec_len blocks.new ≤ array_vec_len blocks.old + 1 }
{
    if let Head::While(_) = head {
        blocks.push(BlockRef {
            part: Part::Head,
            level: 1,
        });
    }
}

/// The heads and the blocks before the inner loops, inwards from a level.
fn push_opening(loops: &[Loop], level: u8, blocks: &mut ArrayVec<BlockRef, 18>)
    requires levels { level + length loops.now ≤ 255 }
    requires room { array_vec_len blocks.old + 2 * length loops.now ≤ 18 }
    ensures items { blocks.new.items ≡ blocks.old.items ++ opening level loops.now }
    ensures len { array_vec_len blocks.new ≤ array_vec_len blocks.old + 2 * length loops.now }
{
    if let Some((first, rest)) = loops.split_first() {
        blocks.push(BlockRef {
            part: Part::Head,
            level,
        });
        push_if_any(Part::Pre, level, &first.pre, blocks);
        push_opening(rest, level + 1, blocks);
    }
}

/// The blocks after the inner loops, outwards to a level.
fn push_closing(loops: &[Loop], level: u8, blocks: &mut ArrayVec<BlockRef, 18>)
    requires levels { level + length loops.now ≤ 255 }
    requires room { array_vec_len blocks.old + length loops.now ≤ 18 }
    ensures items { blocks.new.items ≡ blocks.old.items ++ closing level loops.now }
    ensures len { array_vec_len blocks.new ≤ array_vec_len blocks.old + length loops.now }
{
    if let Some((first, rest)) = loops.split_first() {
        push_closing(rest, level + 1, blocks);
        push_if_any(Part::Post, level, &first.post, blocks);
    }
}

/// A block, where it has statements.
fn push_if_any(part: Part, level: u8, block: &Items<Stmt>, blocks: &mut ArrayVec<BlockRef, 18>)
    requires { array_vec_len blocks.old + 1 ≤ 18 }
    ensures items { blocks.new.items ≡ blocks.old.items ++ block_if_any part level block.now }
    ensures len { array_vec_len blocks.new ≤ array_vec_len blocks.old + 1 }
{
    if !block.is_empty() {
        blocks.push(BlockRef { part, level });
    }
}

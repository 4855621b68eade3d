//! The code of nests.

ghost use Rattle.std.specs.Prelude.{◌≡◌, Some, IfOk, IfSome};
ghost use Rattle.block_exec.specs.declared.nest_code.HeadCode.TheVariants.{For, While};
ghost use Rattle.block_exec.specs.NestCodes.{IsHeadCode, IsLoopCode, IsNestCode, AreLoopCodes};

use crate::code::{BlockCode, BoundsCode, ValueCode};
use crate::compile::{block_code, value_code};
use nest_lang::{Head, Loop, Nest};
use sqlite_items::Items;
use std::alloc::{AllocError, Global};

/// The code of the head of a `for` or of a `while`.
#[derive(Debug, Drop)]
pub enum HeadCode {
    For(BoundsCode),
    While(ValueCode),
}

/// The code of a loop: of its head, and of its statements before and after the loop inside it. What has no code
/// needs more registers than there are, and is run by its tree.
#[derive(Debug, Drop)]
pub struct LoopCode {
    pub(crate) head: Option<HeadCode>,
    pub(crate) pre: Option<BlockCode>,
    pub(crate) post: Option<BlockCode>,
}

/// The code of a nest: of its loops, the outermost first.
#[derive(Debug, Drop)]
pub struct NestCode {
    pub(crate) loops: Items<LoopCode>,
}

impl LoopCode {
    /// The code of the bounds of a `for`.
    pub fn bounds(&self) -> Option<&BoundsCode>
        ensures { IfSome result (λ c. self.now.head ≡ Some (For c.now)) }
    {
        match &self.head {
            Some(HeadCode::For(code)) => Some(code),
            _ => None,
        }
    }

    /// The code of the condition of a `while`.
    pub fn condition(&self) -> Option<&ValueCode>
        ensures { IfSome result (λ c. self.now.head ≡ Some (While c.now)) }
    {
        match &self.head {
            Some(HeadCode::While(code)) => Some(code),
            _ => None,
        }
    }

    /// The code of the statements before the loop inside.
    pub fn pre(&self) -> Option<&BlockCode>
        ensures { IfSome result (λ c. self.now.pre ≡ Some c.now) }
    {
        match &self.pre {
            Some(code) => Some(code),
            None => None,
        }
    }

    /// The code of the statements after the loop inside.
    pub fn post(&self) -> Option<&BlockCode>
        ensures { IfSome result (λ c. self.now.post ≡ Some c.now) }
    {
        match &self.post {
            Some(code) => Some(code),
            None => None,
        }
    }
}

impl NestCode {
    /// The code of a nest. Only want of memory is an error.
    pub fn new(alloc: Global, nest: &Nest) -> Result<NestCode, AllocError>
        ensures { IfOk result (λ code. IsNestCode nest.now code) }
    {
        let mut loops = Items::new(alloc);
        for one in nest.loops.as_slice() {
            let code = loop_code(alloc, one)?;
            loops.push(code)?;
        }
        Ok(NestCode { loops })
    }

    /// The code of its loops, the outermost first.
    pub fn loops(&self) -> &[LoopCode]
        ensures { result.now ≡ self.now.loops }
    {
        self.loops.as_slice()
    }
}

fn loop_code(alloc: Global, one: &Loop) -> Result<LoopCode, AllocError>
    ensures { IfOk result (λ code. IsLoopCode one.now code) }
{
    let head = head_code(alloc, &one.head)?;
    let pre = block_code(alloc, one.pre.as_slice())?;
    let post = block_code(alloc, one.post.as_slice())?;
    Ok(LoopCode { head, pre, post })
}

fn head_code(alloc: Global, head: &Head) -> Result<Option<HeadCode>, AllocError>
    ensures { IfOk result (λ code. IfSome code (λ c. IsHeadCode head.now c)) }
{
    match head {
        Head::For(lower, upper, _) => {
            let Some(lower) = value_code(alloc, lower)? else {
                return Ok(None);
            };
            let Some(upper) = value_code(alloc, upper)? else {
                return Ok(None);
            };
            Ok(Some(HeadCode::For(BoundsCode { lower, upper })))
        }
        Head::While(condition) => {
            let Some(condition) = value_code(alloc, condition)? else {
                return Ok(None);
            };
            Ok(Some(HeadCode::While(condition)))
        }
    }
}

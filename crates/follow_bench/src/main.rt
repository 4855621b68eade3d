//! Runs an instance of a block as often as its input says: plainly, or followed against its prediction, alone or in a
//! list of eight. Each line of its input has one of `plain`, `instance` and `list`, and a number. A line with `turns` or
//! `chunk`, a number and, behind a colon, the text of a file has a chunk of the file's first nest run so often by the plain
//! interpreter, or followed. It writes the steps, or what differs. It stands on `follow_chunk`, and is what
//! bench/follow.sh measures.
#![tactic(auto)]

mod chunks;
mod instances;
mod plain;
mod profiled;
mod tasks;

ghost use Rattle.std.specs.Prelude.{◌≡◌, pos, Some, [], ◌∷◌, IfOk, length};
ghost use Rattle.domain.specs.Examples.{row};
ghost use Rattle.domain.specs.Instances.{instance, Predicted};
ghost use Rattle.follow_chunk.specs.Laws.{one_row, one_turn};
ghost use Rattle.follow_chunk.specs.Tasks.{task_of, IsTask};

use affine::Form;
use block_exec::{Blind, Halt, MemoryPort, Places, Run};
use chunks::{Way, steps_text};
use domain::{AccessForm, BlockForms, Chunk, Instance, LoopForms, LoopKind, Prediction};
use follow_chunk::{Followed, Task, follow_instance, follow_list};
use nest_lang::{BlockRef, Budget, Expr, Head, Loop, Nest, Outer, Part, Place, Stmt};
use sqlite_items::Items;
use std::alloc::{AllocError, Global};
use std::io;
use std::io::{BufRead, BufReader};

/// The block of the loop.
const PRE1: BlockRef = BlockRef {
    part: Part::Pre,
    level: 1,
};

fn main(rt: HostRuntime) -> io::Result<()> {
    let alloc = rt.alloc();
    let nest = nest(alloc)?;
    let pred = prediction(alloc)?;
    for line in BufReader::new(alloc, rt.reader())?.lines(alloc) {
        let line = line?;
        let (asked, text) = line.as_str().split_once(':').unwrap_or((line.as_str(), ""));
        let mut words = asked.split(' ');
        let kind = words.next().unwrap_or("");
        let times = words.next().map_or(0, number);
        let answer = match kind {
            "turns" => steps_text(alloc, text, Way::Plainly, times)?,
            "chunk" => steps_text(alloc, text, Way::Followed, times)?,
            _ => block_text(alloc, &nest, &pred, kind, times)?,
        };
        println!(rt; "{answer}")?;
    }
    Ok(())
}

/// What is written of the block of one store.
fn block_text(
    alloc: Global,
    nest: &Nest,
    pred: &Prediction<1>,
    kind: &str,
    times: u32,
) -> Result<String, AllocError>
    requires nest { nest.now.loops ≡ one_row }
    requires pred { pred.now ≡ row }
{
    let followed = match kind {
        "plain" => Followed::Same {
            steps: block_steps(nest, times),
        },
        "instance" => alone(nest, pred, times),
        "list" => listed(nest, pred, times),
        _ => Followed::Same { steps: 0 },
    };
    match followed {
        Followed::Same { steps } => format!(in alloc; "{steps}"),
        Followed::Differs(deviation) => format!(in alloc; "{deviation:?}"),
    }
}

/// The number that a word is, or 0 where it is none of 32 bits.
fn number(word: &str) -> u32 {
    word.parse::<u32>().unwrap_or(0)
}

/// The steps of so many plain runs of the block.
fn block_steps(nest: &Nest, times: u32) -> u64 {
    let mut words = [0; 40];
    let mut steps: u64 = 0;
    if let Some(block) = nest.statements(PRE1) {
        for _ in 0..times {
            steps = steps.wrapping_add(plain_once(block, &mut words));
        }
    }
    steps
}

/// The steps of one.
fn plain_once(block: &[Stmt], words: &mut [i64]) -> u64 {
    let mut port = MemoryPort::new(words);
    let mut watch = Blind;
    let mut scalars = [];
    let mut run = Run {
        scalars: &mut scalars,
        locals: [0; 16],
        port: &mut port,
        steps: Budget {
            left: 1 << 31,
            used: 0,
        },
        watch: &mut watch,
        halt: Halt::NONE,
    };
    let mut places = Places::new();
    places.begin(0, 0, 0);
    match run.block(&places.site(PRE1, 1), block) {
        Ok(()) => run.steps.used,
        Err(_) => 0,
    }
}

/// The steps of so many followed runs of it, or how one differs.
fn alone(nest: &Nest, pred: &Prediction<1>, times: u32) -> Followed<1>
    requires nest { nest.now.loops ≡ one_row }
    requires pred { pred.now ≡ row }
{
    let task = task(nest, pred);
    let mut words = [0; 40];
    let mut steps: u64 = 0;
    for _ in 0..times {
        match alone_once(&task, &mut words) {
            Followed::Same { steps: more } => steps = steps.wrapping_add(more),
            Followed::Differs(deviation) => return Followed::Differs(deviation),
        }
    }
    Followed::Same { steps }
}

/// One.
fn alone_once(task: &Task<'_, 1>, words: &mut [i64]) -> Followed<1>
    requires task { IsTask 1 (task_of task.now) (pos 40) }
    requires first { Predicted task.now.pred.now task.now.chunk (instance 0 (pos 0 ∷ [])) }
    requires words { length words.old ≡ 40 }
{
    let mut port = MemoryPort::new(words);
    follow_instance(task, &first(), &mut port)
}

/// The steps of so many lists of eight, or how an instance of one differs.
fn listed(nest: &Nest, pred: &Prediction<1>, times: u32) -> Followed<1>
    requires nest { nest.now.loops ≡ one_row }
    requires pred { pred.now ≡ row }
{
    let task = task(nest, pred);
    let mut words = [0; 40];
    let mut steps: u64 = 0;
    for _ in 0..times {
        match listed_once(&task, &mut words) {
            Followed::Same { steps: more } => steps = steps.wrapping_add(more),
            Followed::Differs(deviation) => return Followed::Differs(deviation),
        }
    }
    Followed::Same { steps }
}

/// One.
fn listed_once(task: &Task<'_, 1>, words: &mut [i64]) -> Followed<1>
    requires task { IsTask 1 (task_of task.now) (pos 40) }
    requires first { Predicted task.now.pred.now task.now.chunk (instance 0 (pos 0 ∷ [])) }
    requires words { length words.old ≡ 40 }
{
    let mut port = MemoryPort::new(words);
    let inst = first();
    let list = [inst, inst, inst, inst, inst, inst, inst, inst];
    follow_list(task, &list, &mut port)
}

/// The first turn of the nest, with what is predicted of it.
fn task<'a>(nest: &'a Nest, pred: &'a Prediction<1>) -> Task<'a, 1>
    ensures nest { result.nest.now ≡ nest.now }
    ensures pred { result.pred.now ≡ pred.now }
    ensures scalars { result.scalars ≡ 0 }
    ensures outer { result.outer ≡ record { lower = pos 0; next = pos 0; left = Some 40 } }
    ensures chunk { result.chunk ≡ one_turn }
{
    Task {
        nest,
        pred,
        scalars: 0,
        outer: Outer {
            lower: 0,
            next: 0,
            left: Some(40),
        },
        chunk: Chunk { first: 0, turns: 1 },
    }
}

/// The instance of the block in the first turn.
fn first() -> Instance<1>
    ensures { result ≡ instance 0 (pos 0 ∷ []) }
{
    Instance { block: 0, at: [0] }
}

/// `for i = 0 below 40 { [i] = 1 }`.
fn nest(alloc: Global) -> Result<Nest, AllocError>
    ensures { IfOk result (λ nest. nest.loops ≡ one_row) }
{
    let mut body = Items::new(alloc);
    body.push(Stmt::Store(1, Expr::Var(Place::Counter(0)), Expr::Number(1)))?;
    let mut loops = Items::new(alloc);
    loops.push(Loop {
        head: Head::For(Expr::Number(0), Expr::Number(40), 1),
        pre: body,
        post: Items::new(alloc),
    })?;
    Ok(Nest { loops })
}

/// What is predicted of it.
fn prediction(alloc: Global) -> Result<Prediction<1>, AllocError>
    ensures { IfOk result (λ pred. pred ≡ row) }
{
    let mut levels = Vec::new(alloc);
    levels.push(LoopForms {
        kind: LoopKind::For(1),
        lower: None,
        trip: None,
    })?;
    let mut accesses = Vec::new(alloc);
    accesses.push(AccessForm {
        stores: true,
        line: Some(Form { coef: [1], cst: 0 }),
        low: 0,
        high: 0,
    })?;
    let mut blocks = Vec::new(alloc);
    blocks.push(BlockForms {
        part: Part::Pre,
        level: 1,
        scalars: Vec::new(alloc),
        accesses,
    })?;
    Ok(Prediction::new(levels, blocks))
}

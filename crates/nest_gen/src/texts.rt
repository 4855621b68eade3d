//! The text of each shape.
ghost use Rattle.std.specs.Prelude.{◌≡◌, ◌<◌, ◌≤◌, ◌+◌, ◌*◌, ◌-◌, IfOk, string_bytes};
ghost use Rattle.nest_gen.specs.Texts.{copy_text, list_text, grid_text, grid_of, rows, upper, lower, chain, shortcut};

use crate::draws::Draws;
use std::alloc::{AllocError, Global};

/// Each word of the lower half, and a number, into the upper half.
pub fn copy(alloc: Global, seed: u32, size: u32) -> Result<String, AllocError>
    requires { size ≤ 256 }
    ensures { IfOk result (λ text. string_bytes text ≡ copy_text seed size) }
{
    let words = 64 * u64::from(size);
    let mut draws = Draws {
        latest: u64::from(seed),
    };
    let addend = draws.draw(100);
    format!(in alloc;
        "nest 1 memory {} for i = 0 below {words} {{ [{words} + i] = [i] + {addend} }}",
        2 * words
    )
}

/// A linked list whose nodes are counted up, with a few shortcuts by nodes that stand elsewhere.
pub fn list(alloc: Global, seed: u32, size: u32) -> Result<String, AllocError>
    requires from { 1 ≤ size }
    requires to { size ≤ 256 }
    ensures { IfOk result (λ text. string_bytes text ≡ list_text seed size) }
{
    let nodes = 64 * u64::from(size);
    let mut draws = Draws {
        latest: u64::from(seed),
    };
    let shortcuts = 1 + draws.draw(4);
    let mut text = chain(alloc, nodes)?;
    for _shortcut in 0..shortcuts {
        let node = 1 + draws.draw(nodes - 2);
        text.push_str(&past(alloc, nodes, node)?)?;
    }
    text.push_str("while [p] { [p + 1] = [p + 1] + 1 p = [p] }")?;
    Ok(text)
}

/// The head of a list of so many nodes, without shortcuts.
fn chain(alloc: Global, nodes: u64) -> Result<String, AllocError>
    requires from { 1 ≤ nodes }
    requires to { nodes ≤ 16384 }
    ensures { IfOk result (λ text. string_bytes text ≡ chain nodes) }
{
    format!(in alloc;
        "nest 1 scalar p = 2 memory {} ramp 2 {} 2 4 2 ",
        4 * nodes,
        nodes - 1
    )
}

/// The data that lead from a node to one that stands behind all others, and from there on.
fn past(alloc: Global, nodes: u64, node: u64) -> Result<String, AllocError>
    requires nodes { nodes ≤ 16384 }
    requires node { node < nodes }
    ensures { IfOk result (λ text. string_bytes text ≡ shortcut nodes node) }
{
    let from = 2 * node;
    let by = 2 * nodes + 2 + 2 * node;
    format!(in alloc; "data {from}: {by} data {by}: {} ", 4 + 2 * node)
}

/// A sweep over a square grid, each inner word of which becomes the mean of five.
pub fn grid(alloc: Global, seed: u32, size: u32) -> Result<String, AllocError>
    requires { size ≤ 256 }
    ensures { IfOk result (λ text. string_bytes text ≡ grid_text seed size) }
{
    let side = u64::from(size) + 2;
    let mut draws = Draws {
        latest: u64::from(seed),
    };
    let start = draws.draw(1000);
    sweep(alloc, side, start)
}

/// The sweep over a grid of so many rows, whose words grow by one from `start` on.
fn sweep(alloc: Global, side: u64, start: u64) -> Result<String, AllocError>
    requires from { 1 ≤ side }
    requires to { side ≤ 258 }
    ensures { IfOk result (λ text. string_bytes text ≡ grid_of side start) }
{
    let mut text = rows(alloc, side, start)?;
    text.push_str(&upper(alloc, side)?)?;
    text.push_str(&lower(alloc, side)?)?;
    Ok(text)
}

/// The memory and the loops' heads.
fn rows(alloc: Global, side: u64, start: u64) -> Result<String, AllocError>
    requires from { 1 ≤ side }
    requires to { side ≤ 258 }
    ensures { IfOk result (λ text. string_bytes text ≡ rows side start) }
{
    let words = side * side;
    let end = side - 1;
    format!(in alloc;
        "nest 1 memory {words} ramp 0 {words} 1 {start} 1 for i = 1 below {end} {{ for j = 1 below {end} {{ "
    )
}

/// The store, as far as the words that are already swept.
fn upper(alloc: Global, side: u64) -> Result<String, AllocError>
    ensures { IfOk result (λ text. string_bytes text ≡ upper side) }
{
    format!(in alloc; "[{side} * i + j] = ([{side} * i + j - {side}] + [{side} * i + j - 1] + ")
}

/// The other words of the mean, and the candidate.
fn lower(alloc: Global, side: u64) -> Result<String, AllocError>
    ensures { IfOk result (λ text. string_bytes text ≡ lower side) }
{
    format!(in alloc;
        "[{side} * i + j] + [{side} * i + j + 1] + [{side} * i + j + {side}]) / 5 }} }} candidate {{ tile 1 8; tile 2 8 }}"
    )
}

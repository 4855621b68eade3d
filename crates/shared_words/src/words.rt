//! The table of shared words.
ghost use Rattle.std.specs.Prelude.{◌≡◌, ◌≤◌, ◌++◌, length, replicate, IfOk};
ghost use Rattle.core_steps.specs.Views.{first_view};
ghost use Rattle.core_steps.specs.States.{bits_of};
ghost use Rattle.shared_words.specs.Seats.{memory_words};

use crate::main_seat::MainSeat;
use crate::steps::CoreRule;
use atomic_table::Table;
use core_steps::View;
use std::alloc::{AllocError, Global};
use std::iter;
use std::marker::Model;
use std::snapshot::Snapshot;

/// The flag's word (docs/WORDS.md, Layout).
pub const FLAG: usize = 0;

/// The claim of tile 0; those of the other 65,535 tiles follow.
pub const CLAIMS: usize = 1;

/// The word 0 of the memory; the others follow.
pub const MEMORY: usize = 65_537;

/// The words that all seats step on: the flag, the claims and the memory (docs/WORDS.md). Contracts see which table
/// it is.
#[derive(Drop)]
pub struct SharedWords {
    pub(crate) table: Table<(), View, Snapshot<Vec<u64>>, CoreRule, Global>,
}

impl Model for SharedWords {
    ghost use Rattle.std.specs.Prelude.{◌+◌, ◌≤◌};
    ghost use Rattle.atomic_table.specs.Seated.{TableId};

    ghost Value = { TableId };

    ghost view = { λ s. s.table.shared.table_id };

    ghost invariant = { λ s. (65537 ≤ s.table.shared.table_id.words) × (s.table.shared.table_id.words ≤ 65537 + 1048576) };
}

impl SharedWords {
    /// The words, with this memory of at most 2^20 words, at epoch 0 with no flag, no claim and no plan; and the
    /// seat of the one that begins and ends phases. Takes the memory of all words, and is the only call that takes
    /// any.
    pub fn new(alloc: Global, words: &[i64]) -> Result<(SharedWords, MainSeat), AllocError>
        requires { length words.now ≤ 1048576 }
        ensures table { IfOk result (λ made. made.1.table ≡ made.0) }
        ensures count { IfOk result (λ made. memory_words made.0 ≡ length words.now) }
        ensures view { IfOk result (λ made. made.1.view ≡ first_view (bits_of words.now)) }
    {
        let row = laid_out(alloc, MEMORY, words)?;
        let (table, seat) = Table::of_words(alloc, row.as_slice(), &Snapshot::of(&row))?;
        Ok((SharedWords { table }, MainSeat::first(seat)))
    }

    /// How many memory words there are.
    pub fn count(&self) -> u64
        ensures { result ≡ memory_words self.now }
    {
        (self.table.word_count() - MEMORY) as u64
    }
}

/// So many zeros, and then the bits of the words.
fn laid_out(alloc: Global, zeros: usize, words: &[i64]) -> Result<Vec<u64>, AllocError>
    ensures { IfOk result (λ row. row.items ≡ replicate zeros 0 ++ bits_of words.now) }
{
    iter::repeat_n(0, zeros)
        .chain(words.iter().map(|word| word.cast_unsigned()))
        .collect(alloc)
}

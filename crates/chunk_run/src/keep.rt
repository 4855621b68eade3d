//! Keeping words, and storing them back.
ghost use Rattle.std.specs.Prelude.{◌≡◌, ℤ, ◌<◌, ◌^◌, ◌≤ℤ◌, ◌<ℤ◌, ◌++◌, false, pos, List, length, slice_set, IfOk, OnOk};
ghost use Rattle.std.specs.List.{All};
ghost use Rattle.shared_words.specs.Memories.{signed};
ghost use Rattle.tiles.specs.Stripes.{address_at, IsWithin, addresses_of, addresses_of_all};
ghost use Rattle.chunk_run.specs.Backups.{words_at, addresses_kept, IsRestored, IsRestoredView, DiffersOnlyAt};

use shared_words::{MainSeat, SharedWords};
use std::alloc::{AllocError, Global};
use std::marker::Model;
use tiles::Stripe;

/// A word that is kept: its address and its value.
#[derive(Clone, Copy, Debug, PartialEq, Eq)]
pub struct Kept {
    pub address: u64,
    pub value: i64,
}

/// Words as they were when they were kept. Contracts see the list of them, in which each address has one value.
#[derive(Debug, Drop)]
pub struct Backup {
    kept: Vec<Kept>,
}

impl Model for Backup {
    ghost use Rattle.std.specs.Prelude.{List};
    ghost use Rattle.chunk_run.specs.declared.keep.Kept.{Kept};
    ghost use Rattle.chunk_run.specs.Backups.{HasOneValueEach};

    ghost Value = { List Kept };

    ghost view = { λ b. b.kept.items };

    ghost invariant = { λ b. HasOneValueEach b.kept.items };
}

/// Keeps the value of each address of each stripe, in order. No plan may be posted, and each of these addresses is
/// to be that of a word. Leaves the seat as it is.
pub fn take(
    alloc: Global,
    main: &mut MainSeat,
    words: &SharedWords,
    stripes: &[Stripe],
) -> Result<Backup, AllocError>
    requires table { main.old.table ≡ words.now }
    requires unposted { main.old.view.posted ≡ false }
    requires within { All (IsWithin (length main.old.view.base)) stripes.now }
    ensures unchanged { main.new ≡ main.old }
    ensures kept { IfOk result (λ backup. backup ≡ words_at (signed main.old.view.base) (addresses_of_all stripes.now)) }
    ensures addresses { IfOk result (λ backup. addresses_kept backup ≡ addresses_of_all stripes.now) }
    ensures words { IfOk result (λ backup. All (λ word. word.address < length main.new.view.base) backup) }
{
    let mut kept = Vec::new(alloc);
    for stripe in stripes {
        keep(&mut kept, main, words, *stripe)?;
    }
    Ok(Backup { kept })
}

/// Keeps the value of each address of this stripe as well.
fn keep(
    kept: &mut Vec<Kept>,
    main: &mut MainSeat,
    words: &SharedWords,
    stripe: Stripe,
) -> Result<(), AllocError>
    requires table { main.old.table ≡ words.now }
    requires unposted { main.old.view.posted ≡ false }
    requires within { IsWithin (length main.old.view.base) stripe }
    ensures unchanged { main.new ≡ main.old }
    ensures kept { OnOk result (kept.new.items ≡ kept.old.items ++ words_at (signed main.old.view.base) (addresses_of stripe)) }
{
    // for the prover alone: the number of words is a u64, so each address is one
    let _words = main.count(words);
    for k in 0..stripe.count {
        let address = address(stripe, k);
        let value = main.load(words, address);
        kept.push(Kept { address, value })?;
    }
    Ok(())
}

/// The address number k of the stripe, from 0.
fn address(stripe: Stripe, k: u64) -> u64
    requires from { pos 0 ≤ℤ address_at stripe k }
    requires below { address_at stripe k <ℤ pos (2 ^ 64) }
    ensures { pos result ≡ address_at stripe k }
{
    narrowed(i128::from(stripe.first) + i128::from(stripe.step) * i128::from(k))
}

/// The same number as a u64.
fn narrowed(number: i128) -> u64
    requires from { pos 0 ≤ℤ number }
    requires below { number <ℤ pos (2 ^ 64) }
    ensures { pos result ≡ number }
{
    number as u64
}

/// Stores the words of the backup back. All other words stay. No plan may be posted, and the backup's addresses are
/// to be those of words. Takes no memory.
pub fn restore(main: &mut MainSeat, words: &SharedWords, backup: &Backup)
    requires table { main.old.table ≡ words.now }
    requires unposted { main.old.view.posted ≡ false }
    requires within { All (λ word. word.address < length main.old.view.base) backup.now }
    ensures table { main.new.table ≡ main.old.table }
    ensures restored { IsRestored backup.now (signed main.old.view.base) (signed main.new.view.base) }
    ensures view { IsRestoredView backup.now main.old.view main.new.view }

    // if only words at the backup's addresses changed since a memory was kept, it is that memory again
    ensures start { (memory : List ℤ) → backup.now ≡ words_at memory (addresses_kept backup.now)
        → DiffersOnlyAt (addresses_kept backup.now) memory (signed main.old.view.base) → signed main.new.view.base ≡ memory }
{
    let kept = backup.kept.as_slice();
    for word in kept {
        put_back(main, words, word);
    }
}

/// Stores one word back.
fn put_back(main: &mut MainSeat, words: &SharedWords, word: &Kept)
    requires table { main.old.table ≡ words.now }
    requires unposted { main.old.view.posted ≡ false }
    requires within { word.now.address < length main.old.view.base }
    ensures table { main.new.table ≡ main.old.table }
    ensures word { signed main.new.view.base ≡ slice_set (signed main.old.view.base) word.now.address word.now.value }
    ensures rest { let v = main.old.view in main.new.view ≡ record v { base = main.new.view.base; stored = v.epoch } }
{
    let Kept { address, value } = *word;
    main.store(words, address, value);
}

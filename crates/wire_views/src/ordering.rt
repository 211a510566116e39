//! The entries of a map of a view in order.
ghost use Rattle.std.specs.Prelude.{◌≡◌, [], ◌∷◌, true, OnOk, IfOk};
ghost use Rattle.wire_views.specs.Entries.{map_with, put_last, with_runs, Rises};

use std::alloc::{AllocError, Global};
use std::cmp::Ordering;

/// The entries of a map in the order of their keys, and of each key the last alone, so that a key
/// is found by a binary search. Entries that stand so are handed back as they are. Refused where
/// memory runs out.
pub fn in_order<K: Ord + Drop, V: Drop>(
    alloc: Global,
    entries: Vec<(K, V)>,
) -> Result<Vec<(K, V)>, AllocError>
    ensures map { IfOk result (λ sorted. sorted.items ≡ map_with K.cmp entries.items) }
    ensures rises { IfOk result (λ sorted. Rises K.cmp sorted.items) }
{
    if rise(&entries) {
        return Ok(entries);
    }
    let mut entries = entries;
    entries.sort_by(by_key)?;
    last_of_each(alloc, entries)
}

// Whether each key is above the one before it.
fn rise<K: Ord, V>(entries: &[(K, V)]) -> bool
    ensures { result ≡ true → Rises K.cmp entries.now }
{
    let mut rest = entries;
    while let Some((first, others)) = rest.split_first() {
        if !is_before(&first.0, others) {
            return false;
        }
        rest = others;
    }
    true
}

// Whether a key is below that of the first entry, if there is one.
fn is_before<K: Ord, V>(key: &K, entries: &[(K, V)]) -> bool
    ensures { result ≡ true → (value : V) → Rises K.cmp entries.now
        → Rises K.cmp ((key.now, value) ∷ entries.now) }
{
    match entries.split_first() {
        Some((first, _)) => key.cmp(&first.0).is_lt(),
        None => true,
    }
}

fn by_key<K: Ord, V>(a: &(K, V), b: &(K, V)) -> Ordering
    ensures { result ≡ K.cmp a.now.0 b.now.0 }
{
    a.0.cmp(&b.0)
}

// Of each run of equal keys one entry: the first of the keys, and the last of the values.
fn last_of_each<K: Ord + Drop, V: Drop>(
    alloc: Global,
    entries: Vec<(K, V)>,
) -> Result<Vec<(K, V)>, AllocError>
    ensures { IfOk result (λ kept. kept.items ≡ with_runs K.cmp [] entries.items) }
{
    let mut kept = Vec::with_capacity(alloc, entries.len())?;
    for entry in entries {
        put_last(&mut kept, entry)?;
    }
    Ok(kept)
}

// Puts an entry behind the others, or its value in the place of the last one's where the keys are
// equal.
fn put_last<K: Ord + Drop, V: Drop>(kept: &mut Vec<(K, V)>, entry: (K, V)) -> Result<(), AllocError>
    ensures { OnOk result (kept.new.items ≡ put_last K.cmp kept.old.items entry.0 entry.1) }
{
    let (key, value) = entry;
    let Some((last, old)) = kept.pop() else {
        kept.push((key, value))?;
        return Ok(());
    };
    if last.cmp(&key).is_eq() {
        kept.push((last, value))?;
        return Ok(());
    }
    kept.push((last, old))?;
    kept.push((key, value))?;
    Ok(())
}

//! Rows under keys, in the order of the keys.
ghost use Rattle.std.specs.Prelude.{◌≡◌, ◌≤◌, length, MatchOption, None, OnOk, is_some};
ghost use Rattle.react_core.specs.Keyed.{at_key, with_new_at, without_at, KeysRiseFrom};
ghost use Rattle.react_steps.specs.Rows.{place, StandsAt};

use react_core::outside::OutOfMemory;

/// How many rows have a lower key, found by halves.
pub(crate) fn place_of<T>(rows: &[(usize, T)], key: usize) -> usize
    requires { KeysRiseFrom 0 rows.now }
    ensures place { result ≡ place key rows.now }
    ensures within { result ≤ length rows.now }
{
    rows.partition_point(|row| row.0 < key)
}

/// Where the row of this key stands.
pub(crate) fn find<T>(rows: &[(usize, T)], key: usize) -> Option<usize>
    requires { KeysRiseFrom 0 rows.now }
    ensures { MatchOption result (at_key rows.now key ≡ None) (λ at. StandsAt key rows.now at) }
{
    let at = place_of(rows, key);
    if at < rows.len() && rows[at].0 == key {
        Some(at)
    } else {
        None
    }
}

/// Whether a row has this key.
pub(crate) fn has<T>(rows: &[(usize, T)], key: usize) -> bool
    requires { KeysRiseFrom 0 rows.now }
    ensures { result ≡ is_some (at_key rows.now key) }
{
    find(rows, key).is_some()
}

/// Takes the row of this key out, where there is one.
pub(crate) fn take_row<T: Drop>(rows: &mut Vec<(usize, T)>, key: usize)
    requires { KeysRiseFrom 0 rows.old.items }
    ensures { rows.new.items ≡ without_at rows.old.items key }
{
    if let Some(at) = find(rows, key) {
        let _ = rows.remove(at);
    }
}

/// Adds a row under a key that has none.
pub(crate) fn put_row<T: Drop>(
    rows: &mut Vec<(usize, T)>,
    key: usize,
    value: T,
) -> Result<(), OutOfMemory>
    requires rises { KeysRiseFrom 0 rows.old.items }
    requires free { at_key rows.old.items key ≡ None }
    ensures { OnOk result (rows.new.items ≡ with_new_at rows.old.items key value) }
{
    let at = place_of(rows, key);
    if rows.insert(at, (key, value)).is_err() {
        return Err(OutOfMemory);
    }
    Ok(())
}

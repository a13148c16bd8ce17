ghost use Rattle.std.specs.Prelude.{◌≡◌, ◌+◌, ◌<◌, ◌≤◌, IfOk, IfErr, IfSome, option_map, vec_len, vec_capacity};
ghost use Rattle.std.specs.FinMap.{get, insert, is_sorted};
ghost use Rattle.fluid_table.specs.Table.{byte_order};
ghost use Rattle.fluid_table.specs.Keyed.{pairs_of, IsInOrder, table_of, IsAt, IsGap};

/// What has a key, and a value under it.
pub trait Entry {
    ghost use Rattle.std.specs.Prelude.{◌≡◌, ℕ, List};

    type Value;

    ghost key_of: { Self → List ℕ };

    ghost value_of: { Self → Self.Value };

    fn key(&self) -> &str
        ensures { result.now ≡ key_of self.now };
}

/// The entry under a key; none where the key has none.
pub fn find<'a, T: Entry>(entries: &'a [T], key: &str) -> Option<&'a T>
    requires { IsInOrder T.key_of T.value_of entries.now }
    ensures found { option_map (λ entry. T.value_of entry.now) result ≡ get (table_of T.key_of T.value_of entries.now) key.now }
    ensures under { IfSome result (λ entry. T.key_of entry.now ≡ key.now) }
{
    match place(entries, key) {
        Ok(at) => Some(&entries[at]),
        Err(_) => None,
    }
}

/// Puts an entry in, in place of one that has its key. It needs room for one more, and takes no memory.
pub fn put<T: Entry + Drop>(entries: &mut Vec<T>, entry: T)
    requires order { IsInOrder T.key_of T.value_of entries.old.items }
    requires room { vec_len entries.old < vec_capacity entries.old }
    ensures order { IsInOrder T.key_of T.value_of entries.new.items }
    ensures table { table_of T.key_of T.value_of entries.new.items ≡ insert (table_of T.key_of T.value_of entries.old.items) (T.key_of entry) (T.value_of entry) }
    ensures len { vec_len entries.new ≤ vec_len entries.old + 1 }
    ensures capacity { vec_capacity entries.old ≤ vec_capacity entries.new }
{
    match place(entries, entry.key()) {
        Ok(at) => entries[at] = entry,
        Err(at) => entries.insert(at, entry).unwrap(),
    }
}

/// Whether the keys strictly rise.
pub fn is_in_order<T: Entry>(entries: &[T]) -> bool
    ensures { result ≡ is_sorted byte_order (pairs_of T.key_of T.value_of entries.now) }
{
    entries.is_sorted_by(|a, b| a.key().cmp(b.key()).is_lt())
}

// Where a key stands, or where it would stand.
pub(crate) fn place<T: Entry>(entries: &[T], key: &str) -> Result<usize, usize>
    requires { IsInOrder T.key_of T.value_of entries.now }
    ensures found { IfOk result (IsAt T.key_of entries.now key.now) }
    ensures absent { IfErr result (IsGap T.key_of entries.now key.now) }
{
    entries.binary_search_by(|entry| entry.key().cmp(key))
}

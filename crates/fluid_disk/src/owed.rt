/// What a record file has to repair before it writes again.
#[derive(Clone, Copy, Debug, PartialEq, Eq)]
pub enum Owed {
    Nothing,
    /// An append failed: behind the last gate, and in it, anything may stand.
    Append,
    /// A cut to so many records failed: that gate may have any value.
    Cut(usize),
}

/// One thing that can be asked of a store.
#[derive(Clone, Copy)]
pub enum Operation<'o> {
    /// Set a name to a value.
    Set(&'o [u8], &'o [u8]),
    /// Unset all names.
    Clear,
    /// The value of a name.
    Value(&'o [u8]),
    /// How many names are set.
    Count,
    /// How many bytes they and their values have.
    Bytes,
    /// How many names can be set.
    MostNames,
    /// How many bytes they and their values can have.
    MostBytes,
}

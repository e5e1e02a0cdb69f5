/// A store over lent bytes: a packed run.
///
/// It uses the first 4,160 bytes that it is lent. Of m bytes it has room for 32 names, and for names and
/// values of m - 64 bytes in all: for none below m = 64, for 4,096 at most.
///
/// Any bytes may be lent. Before its first `clear` the store means the entries that its bytes begin with,
/// as far as they are entries: storable pairs with a value, in ascending order of the names, within the
/// limits. Bytes that begin with 0 mean no variables.
#[derive(Drop)]
pub struct PackedRun<'a> {
    pub(crate) bytes: &'a mut [u8],
}

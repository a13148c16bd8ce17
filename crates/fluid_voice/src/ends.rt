// How acts end.
use fluid_codec::Reply;
use fluid_types::{ClientId, Verdict};

/// What an act brought, where the lane or the store didn't fail.
#[derive(Drop)]
pub enum ActEnd {
    /// Nothing had to be done.
    Said,
    /// A join was entered: the client's id, and the number of its message.
    Joined(ClientId, u64),
    /// A connection reads from now on: the last sequence number.
    Told(u64),
    Entered(Verdict),
    /// The document's limit of entries is reached, and nothing was entered.
    FullNow,
    /// The document's limit of clients is reached, and nothing was entered.
    TooMany,
    /// The reply. A nack that is given to a question needs no name: it is sent under that of the connection's document.
    Given(Reply),
}

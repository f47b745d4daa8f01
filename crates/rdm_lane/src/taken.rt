//! What the taking end is answered.

/// What a take answers.
#[derive(Clone, Copy, Debug, PartialEq, Eq)]
pub enum Taken<T> {
    /// An item, with the number of the post that put it and its number among the items of that post, from 0.
    Item {
        /// Which post put it.
        producer: u32,
        /// How many items that post had put before.
        number: u32,
        /// The item itself.
        item: T,
    },
    /// The mark with which a post was closed.
    Mark {
        /// Which post it was.
        producer: u32,
    },
    /// Nothing waits.
    Empty,
    /// The marks of all posts were taken.
    Closed,
}

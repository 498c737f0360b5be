// What processes ask and are answered, one entry after another.
mod entries;
mod entry;
mod illegal;
mod need;
mod op;
mod reply;

pub use entries::Entries;
pub use entry::Entry;
pub use illegal::Illegal;
pub use need::Need;
pub use op::Op;
pub use reply::Reply;

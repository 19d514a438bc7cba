//! An asker that keeps nothing from call to call.

mod each_need;
mod plain;

pub use plain::PlainAsker;

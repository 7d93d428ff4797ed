//! A pool: records in chunks of slots, which never move.
#![tactic(auto)]

mod chunk;
mod key;
mod pair;
mod pool;
mod slots;

pub use key::Key;
pub use pair::lend_pair;
pub use pool::Pool;

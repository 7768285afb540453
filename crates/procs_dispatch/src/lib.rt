//! Calls over files wherever they lie, by what they ask for. Each answer is proved to be a step of the sequential
//! server that `nfs_spec` defines, whatever tree the files are.
#![tactic(auto)]

mod query_dispatch;
mod update_dispatch;

pub use query_dispatch::tell;
pub use update_dispatch::change;

//! What shows that a procedure was committed, once its reply was told.

mod witness;

pub use witness::CommitWitness;

use crate::words::Words;
use std::alloc::Global;

/// A line that is being answered.
#[derive(Drop)]
pub struct Request<'l, 'o> {
    pub heap: Global,
    /// The words that are left.
    pub words: Words<'l>,
    /// Where the answer goes.
    pub out: &'o mut String,
}

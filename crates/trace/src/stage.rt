use crate::head::{Set, Wrapping};
use ranges::ranges::Ranges;

/// The head of a function, so far: the set, and the wrappers if they were named.
#[derive(Clone, Copy)]
pub struct Head {
    pub set: Set,
    pub wrapping: Option<Wrapping>,
}

/// Where a script stands.
#[derive(Drop)]
pub enum Stage {
    /// Nothing of a head was given.
    Start,
    /// In the head of a function.
    Head(Head),
    /// The tables of a function were accepted.
    Function,
    /// A range table used alone.
    Alone(Ranges),
    /// The tables were refused, and nothing follows.
    Over,
}

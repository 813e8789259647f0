/// The number of a block.
#[derive(Clone, Copy, Debug, PartialEq, Eq)]
pub struct BlockIndex(pub u32);

/// The number of a value that a debugger follows.
#[derive(Clone, Copy, Debug, PartialEq, Eq)]
pub struct ValueLabel(pub u32);

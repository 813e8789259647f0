ghost use Rattle.std.specs.Prelude.{◌≡◌, ◌≤◌};
ghost use Rattle.faults.specs.TableIds.{table_number, table_most, capacity_of};

/// Which table it is, and so how many entries it can have.
#[derive(Clone, Copy, Debug, PartialEq, Eq)]
pub enum TableId {
    /// The virtual registers.
    Registers = 0,
    /// The instructions.
    Insts = 1,
    /// The blocks.
    Blocks = 2,
    /// The successors of the blocks.
    Succs = 3,
    /// The arguments of the branches.
    BranchArgs = 4,
    /// The parameters of the blocks.
    BlockParams = 5,
    /// The labels.
    Labels = 6,
    /// The operands of the instructions.
    Operands = 7,
    /// The predecessors of the blocks.
    Preds = 8,
    /// The labels of the built code.
    BuiltLabels = 9,
    /// A list of ranges that is used alone.
    Ranges = 11,
}

impl TableId {
    /// The number of the table.
    pub fn number(self) -> usize
        ensures { result ≡ table_number self }
    {
        self as usize
    }

    /// The most entries that the table can have.
    pub fn most(self) -> usize
        ensures most { result ≡ table_most self }
        ensures few { result ≤ 2097151 }
    {
        match self {
            TableId::Registers => 2_097_151,
            TableId::Insts => 16_384,
            TableId::Blocks => 1_024,
            TableId::Succs => 4_096,
            TableId::BranchArgs => 16_384,
            TableId::BlockParams => 8_192,
            TableId::Labels => 4_096,
            TableId::Operands => 131_072,
            TableId::Preds => 4_096,
            TableId::BuiltLabels => 4_096,
            TableId::Ranges => 16_384,
        }
    }

    /// The capacity of the table where room for `length` entries is asked for.
    pub fn capacity(self, length: usize) -> usize
        ensures capacity { result ≡ capacity_of self length }
        ensures few { result ≤ 2097151 }
    {
        length.min(self.most())
    }
}

/// How many entries each table is to have room for.
#[derive(Clone, Copy)]
pub struct Lengths {
    pub registers: usize,
    pub insts: usize,
    pub blocks: usize,
    pub succs: usize,
    pub branch_args: usize,
    pub block_params: usize,
    pub labels: usize,
    pub operands: usize,
    pub preds: usize,
    pub built_labels: usize,
}

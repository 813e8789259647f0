ghost use Rattle.std.specs.Prelude.{◌≡◌, List, map, OnErr};
ghost use Rattle.vcode.specs.Book.{Call, Limits, after};
ghost use Rattle.vcode.specs.Book.Answer.{done};
ghost use Rattle.vcode.specs.Book.Call.{alias, alloc, close, entry as names_entry, label as marks, param as takes, push, succ};
ghost use Rattle.vcode.specs.Past.{Answers, Reached, Started, done_by, words_by};
ghost use Rattle.vregs.specs.Entries.{word_of};
ghost use Rattle.vregs.specs.Files.{RootRule};

use crate::function_tables::Tables;
use crate::index::{BlockIndex, ValueLabel};
use faults::fault::Fault;
use machinst::inst::MachInst;
use regs::reg::{Reg, Type};
use regs::value_regs::ValueRegs;

/// Builds a function, from its last instruction to its first.
#[derive(Drop)]
pub struct VCodeBuilder<I> {
    tables: Tables<I>,
    entry: BlockIndex,
}

impl<I: MachInst + Drop> VCodeBuilder<I> {
    /// A builder that nothing was given to yet. Whatever the tables held is gone; tables that have no room for the
    /// physical registers are handed back.
    pub fn new(mut tables: Tables<I>) -> Result<VCodeBuilder<I>, (Fault, Tables<I>)>
        ensures { Started I.meaning I.parts tables result }
    {
        if let Err(fault) = tables.vregs.check_capacity() {
            return Err((fault, tables));
        }
        tables.vregs.clear();
        tables.code.clear();
        tables.labels.clear();
        tables.output.clear();
        Ok(VCodeBuilder {
            tables,
            entry: BlockIndex(0),
        })
    }

    /// Allocates the one or two registers that a value of this type needs.
    pub fn alloc(&mut self, ty: Type) -> Result<ValueRegs<Reg>, Fault>
        ensures answer { Answers I.meaning I.parts self.old self.new (alloc ty.0) (words_by result) }
        ensures unchanged { OnErr result (self.new ≡ self.old) }
    {
        self.tables.vregs.alloc::<I>(ty)
    }

    /// Makes `from` an alias of the root of `to`.
    pub fn set_vreg_alias(&mut self, from: Reg, to: Reg) -> Result<(), Fault>
        ensures answer { Answers I.meaning I.parts self.old self.new (alias from.0 to.0) (done_by result) }
        ensures unchanged { OnErr result (self.new ≡ self.old) }
        ensures rule { (L : Limits) (past : List Call) → Reached I.meaning I.parts self.old L past → RootRule (after I.parts L past).file }
    {
        self.tables.vregs.set_vreg_alias(from, to)
    }

    /// Adds an instruction in front of those that were pushed before.
    pub fn push(&mut self, inst: I) -> Result<(), Fault>
        ensures answer { Answers I.meaning I.parts self.old self.new (push (I.meaning inst)) (done_by result) }
        ensures unchanged { OnErr result (self.new ≡ self.old) }
    {
        self.tables.vregs.check_inst(&inst)?;
        self.tables.code.push(inst)
    }

    /// Adds a successor of the block that is being built, with the arguments for its parameters.
    pub fn add_succ(&mut self, block: BlockIndex, args: &[Reg]) -> Result<(), Fault>
        ensures answer { Answers I.meaning I.parts self.old self.new (succ block.0 (map word_of args.now)) (done_by result) }
        ensures unchanged { OnErr result (self.new ≡ self.old) }
    {
        self.tables.vregs.check_all_known(args)?;
        self.tables.code.add_succ(block, args)
    }

    /// Adds a parameter of the block that is being built.
    pub fn add_block_param(&mut self, param: Reg) -> Result<(), Fault>
        ensures answer { Answers I.meaning I.parts self.old self.new (takes param.0) (done_by result) }
        ensures unchanged { OnErr result (self.new ≡ self.old) }
    {
        self.tables.vregs.check_allocated(param, 0)?;
        self.tables.code.add_block_param(param)
    }

    /// Records that `reg` holds the value of a label from the label's last record to here; nothing before the first
    /// instruction.
    pub fn add_value_label(&mut self, reg: Reg, label: ValueLabel) -> Result<(), Fault>
        ensures answer { Answers I.meaning I.parts self.old self.new (marks reg.0 label.0) (done_by result) }
        ensures unchanged { OnErr result (self.new ≡ self.old) }
    {
        self.tables.vregs.check_known(reg, 0)?;
        self.tables
            .labels
            .add(reg, label, self.tables.code.num_insts())
    }

    /// Closes the block that is being built.
    pub fn end_bb(&mut self) -> Result<(), Fault>
        ensures answer { Answers I.meaning I.parts self.old self.new close (done_by result) }
        ensures unchanged { OnErr result (self.new ≡ self.old) }
    {
        self.tables.code.end_bb()
    }

    /// Names the block that the function begins with.
    pub fn set_entry(&mut self, block: BlockIndex)
        ensures { Answers I.meaning I.parts self.old self.new (names_entry block.0) done }
    {
        self.entry = block;
    }
}

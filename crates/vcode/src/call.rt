//! A call on a builder as a value.
ghost use Rattle.std.specs.Prelude.{◌≡◌, OnErr};
ghost use Rattle.vcode.specs.Past.{Answers, heard, meant};

use crate::builder::VCodeBuilder;
use crate::index::{BlockIndex, ValueLabel};
use faults::fault::Fault;
use machinst::inst::MachInst;
use regs::reg::{Reg, Type};
use regs::value_regs::ValueRegs;

/// A call on a builder, as a value that can be compared with the calls of the book.
#[derive(Drop)]
pub enum Call<I> {
    Alloc(Type),
    Alias(Reg, Reg),
    Push(I),
    Succ(BlockIndex, Vec<Reg>),
    Param(Reg),
    Label(Reg, ValueLabel),
    End,
    Entry(BlockIndex),
}

impl<I: MachInst + Drop> VCodeBuilder<I> {
    /// Makes a call, and answers with the registers that it allocated, if it did.
    pub fn make(&mut self, call: Call<I>) -> Result<Option<ValueRegs<Reg>>, Fault>
        ensures answer { Answers I.meaning I.parts self.old self.new (meant I.meaning I.parts call) (heard result) }
        ensures unchanged { OnErr result (self.new ≡ self.old) }
    {
        match call {
            Call::Alloc(ty) => return self.alloc(ty).map(Some),
            Call::Alias(from, to) => self.set_vreg_alias(from, to)?,
            Call::Push(inst) => self.push(inst)?,
            Call::Succ(block, args) => self.add_succ(block, args.as_slice())?,
            Call::Param(param) => self.add_block_param(param)?,
            Call::Label(reg, label) => self.add_value_label(reg, label)?,
            Call::End => self.end_bb()?,
            Call::Entry(block) => self.set_entry(block),
        }
        Ok(None)
    }
}

ghost use Rattle.faults.specs.declared.table_id.TableId.TheVariants.{Insts, BlockParams};
ghost use Rattle.vcode.specs.Kinds.{AreRanges, IsTable};

use crate::block_ranges::BlockRanges;
use crate::index::BlockIndex;
use crate::succs::Succs;
use faults::fault::Fault;
use faults::lengths::Lengths;
use faults::table_id::TableId;
use machinst::inst::MachInst;
use ranges::ranges::Ranges;
use regs::reg::Reg;
use std::alloc::{AllocError, Global};
use tables::table::Table;

/// The instructions, the successors and the parameters, in the order accepted, and what of them belongs to each block.
#[derive(Drop)]
pub struct Code<I> {
    insts: Table<I>,
    params: Table<Reg>,
    succs: Succs,
    ranges: BlockRanges,
    /// Room for the operands of each instruction.
    operand_ranges: Ranges,
    ghost of_insts: { IsTable insts Insts },
    ghost of_params: { IsTable params BlockParams },
    ghost of_operands: { AreRanges operand_ranges Insts insts.limit },
}

impl<I: MachInst + Drop> Code<I> {
    ghost use Rattle.std.specs.Prelude.{◌≡◌, map, length, IfOk, OnErr};
    ghost use Rattle.vcode.specs.Book.{Limits, all_succs, block_room, inst_room, new_listing, param_room, succ_room, with_closed, with_inst, with_param, with_succ};
    ghost use Rattle.vcode.specs.Held.{Changes, CodeHeld};
    ghost use Rattle.vcode.specs.Made.{CodeLimits, capacities};
    ghost use Rattle.vregs.specs.Entries.{word_of};

    pub(crate) fn with_lengths(heap: Global, lengths: &Lengths) -> Result<Code<I>, AllocError>
        ensures { IfOk result (λ c. CodeHeld I.meaning c (capacities lengths.now) new_listing) }
    {
        Ok(Code {
            insts: Table::new(heap, TableId::Insts, lengths.insts)?,
            params: Table::new(heap, TableId::BlockParams, lengths.block_params)?,
            succs: Succs::with_lengths(heap, lengths.succs, lengths.branch_args)?,
            ranges: BlockRanges::with_length(heap, lengths.blocks)?,
            operand_ranges: Ranges::new(heap, TableId::Insts, lengths.insts)?,
        })
    }

    pub(crate) fn clear(&mut self)
        ensures { (L : Limits) → CodeLimits self.old L → CodeHeld I.meaning self.new L new_listing }
    {
        self.insts.clear();
        self.params.clear();
        self.succs.clear();
        self.ranges.clear();
        self.operand_ranges.clear();
    }

    // How many instructions there are.
    pub(crate) fn num_insts(&self) -> u32
        ensures { result ≡ length self.now.insts.entries }
    {
        self.insts.len() as u32
    }

    pub(crate) fn push(&mut self, inst: I) -> Result<(), Fault>
        ensures answer { Changes (CodeHeld I.meaning) self.old self.new inst_room (λ k. with_inst k (I.meaning inst)) result }
        ensures unchanged { OnErr result (self.new ≡ self.old) }
    {
        self.insts.try_push(inst)
    }

    pub(crate) fn add_succ(&mut self, block: BlockIndex, args: &[Reg]) -> Result<(), Fault>
        ensures answer { Changes (CodeHeld I.meaning) self.old self.new (λ L k. succ_room L (all_succs k) (map word_of args.now)) (λ k. with_succ k block.0 (map word_of args.now)) result }
        ensures unchanged { OnErr result (self.new ≡ self.old) }
    {
        self.succs.add(block, args)
    }

    pub(crate) fn add_block_param(&mut self, param: Reg) -> Result<(), Fault>
        ensures answer { Changes (CodeHeld I.meaning) self.old self.new param_room (λ k. with_param k param.0) result }
        ensures unchanged { OnErr result (self.new ≡ self.old) }
    {
        self.params.try_push(param)
    }

    // Closes what was accepted since the last closing as a block.
    pub(crate) fn end_bb(&mut self) -> Result<(), Fault>
        ensures answer { Changes (CodeHeld I.meaning) self.old self.new (λ L k. block_room L k.closed) with_closed result }
        ensures unchanged { OnErr result (self.new ≡ self.old) }
    {
        let insts = self.num_insts();
        let params = self.params.len() as u32;
        self.ranges.push_ends(insts, self.succs.len(), params)
    }
}

ghost use Rattle.faults.specs.declared.table_id.TableId.TheVariants.{Succs as OfSuccs, BranchArgs};
ghost use Rattle.vcode.specs.Kinds.{AreRanges, IsTable};

use crate::index::BlockIndex;
use faults::fault::Fault;
use faults::table_id::TableId;
use ranges::ranges::Ranges;
use regs::reg::Reg;
use std::alloc::{AllocError, Global};
use tables::table::Table;

/// The successors of the blocks, and the arguments of each.
#[derive(Drop)]
pub struct Succs {
    blocks: Table<BlockIndex>,
    args: Table<Reg>,
    arg_ranges: Ranges,
    ghost of_blocks: { IsTable blocks OfSuccs },
    ghost of_args: { IsTable args BranchArgs },
    ghost of_ranges: { AreRanges arg_ranges OfSuccs blocks.limit },
}

impl Succs {
    ghost use Rattle.std.specs.Prelude.{◌≡◌, ◌+◌, [], ◌∷◌, map, length, IfOk, OnErr, nat_le};
    ghost use Rattle.faults.specs.TableIds.{capacity_of};
    ghost use Rattle.vcode.specs.Book.{Limits, full, succ_room};
    ghost use Rattle.vcode.specs.Held.{Changes, SuccsHeld};
    ghost use Rattle.vregs.specs.Entries.{word_of};
    ghost use Rattle.faults.specs.declared.fault.Fault.TheVariants.{Full};
    ghost use Rattle.faults.specs.Outcomes.{Refuses, or_else, unless};

    // No successors, with room for so many and so many arguments, or for the most that there can be where that is fewer.
    pub(crate) fn with_lengths(heap: Global, succs: usize, args: usize) -> Result<Succs, AllocError>
        ensures { IfOk result (λ s. (L : Limits) → L.succs ≡ capacity_of OfSuccs succs → L.args ≡ capacity_of BranchArgs args → SuccsHeld s L []) }
    {
        Ok(Succs {
            blocks: Table::new(heap, TableId::Succs, succs)?,
            args: Table::new(heap, TableId::BranchArgs, args)?,
            arg_ranges: Ranges::new(heap, TableId::Succs, succs)?,
        })
    }

    pub(crate) fn clear(&mut self)
        ensures { (L : Limits) → L.succs ≡ self.old.blocks.limit → L.args ≡ self.old.args.limit → SuccsHeld self.new L [] }
    {
        self.blocks.clear();
        self.args.clear();
        self.arg_ranges.clear();
    }

    // How many successors there are.
    pub(crate) fn len(&self) -> u32
        ensures { result ≡ length self.now.blocks.entries }
    {
        self.blocks.len() as u32
    }

    // Refuses where there is no room for another successor, or for so many arguments.
    fn check_room(&self, args: usize) -> Result<(), Fault>
        ensures { Refuses (or_else (full (length self.now.blocks.entries) self.now.blocks.limit self.now.blocks.id) (unless (nat_le (length self.now.args.entries + args) self.now.args.limit) (Full self.now.args.id))) result }
    {
        self.blocks.check_room()?;
        self.args.check_room_for(args)
    }

    // Adds a successor and its arguments.
    pub(crate) fn add(&mut self, block: BlockIndex, args: &[Reg]) -> Result<(), Fault>
        ensures answer { Changes SuccsHeld self.old self.new (λ L ss. succ_room L ss (map word_of args.now)) (λ ss. record { block = block.0; args = map word_of args.now } ∷ ss) result }
        ensures unchanged { OnErr result (self.new ≡ self.old) }
    {
        self.check_room(args.len())?;
        self.blocks.append(block);
        self.args.append_all(args);
        let _ = self.arg_ranges.push_end(self.args.len() as u32);
        Ok(())
    }
}

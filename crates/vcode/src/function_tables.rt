ghost use Rattle.std.specs.Prelude.{◌≡◌, IfOk};
ghost use Rattle.vcode.specs.Made.{capacities, limits_of};
ghost use Rattle.vcode.specs.Held.{OutputHeld};
ghost use Rattle.vcode.specs.Book.{Limits};
ghost use Rattle.vcode.specs.Made.{OutputLimits};

use crate::code::Code;
use crate::index::BlockIndex;
use crate::labels::{LabelRecord, ValueLabels};
use faults::lengths::Lengths;
use faults::table_id::TableId;
use machinst::inst::MachInst;
use machinst::operand::Operand;
use std::alloc::{AllocError, Global};
use tables::table::Table;
use vregs::vregs::VRegAllocator;

/// The tables that building fills.
#[derive(Drop)]
pub struct OutputTables {
    operands: Table<Operand>,
    preds: Table<BlockIndex>,
    labels: Table<LabelRecord>,
}

impl OutputTables {
    fn with_lengths(heap: Global, lengths: &Lengths) -> Result<OutputTables, AllocError>
        ensures { IfOk result (λ o. OutputHeld o (capacities lengths.now)) }
    {
        Ok(OutputTables {
            operands: Table::new(heap, TableId::Operands, lengths.operands)?,
            preds: Table::new(heap, TableId::Preds, lengths.preds)?,
            labels: Table::new(heap, TableId::BuiltLabels, lengths.built_labels)?,
        })
    }

    pub(crate) fn clear(&mut self)
        ensures { (L : Limits) → OutputLimits self.old L → OutputHeld self.new L }
    {
        self.operands.clear();
        self.preds.clear();
        self.labels.clear();
    }
}

/// All the memory that a function is built in.
#[derive(Drop)]
pub struct Tables<I> {
    pub(crate) vregs: VRegAllocator,
    pub(crate) code: Code<I>,
    pub(crate) labels: ValueLabels,
    pub(crate) output: OutputTables,
}

impl<I: MachInst + Drop> Tables<I> {
    /// Reserves the tables: each has room for as many entries as is asked for, or for the most that it can have where that
    /// is fewer.
    pub fn with_lengths(heap: Global, lengths: &Lengths) -> Result<Tables<I>, AllocError>
        ensures { IfOk result (λ t. limits_of t ≡ capacities lengths.now) }
    {
        Ok(Tables {
            vregs: VRegAllocator::with_capacity(heap, lengths.registers)?,
            code: Code::with_lengths(heap, lengths)?,
            labels: ValueLabels::with_length(heap, lengths.labels)?,
            output: OutputTables::with_lengths(heap, lengths)?,
        })
    }
}

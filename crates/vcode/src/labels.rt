ghost use Rattle.faults.specs.declared.table_id.TableId.TheVariants.{Labels};
ghost use Rattle.vcode.specs.Kinds.{IsTable};

use crate::index::ValueLabel;
use faults::fault::Fault;
use faults::table_id::TableId;
use regs::reg::Reg;
use std::alloc::{AllocError, Global};
use tables::table::Table;

/// A register holds the value of a label from instruction `start` to instruction `end`, as they were pushed.
#[derive(Clone, Copy)]
pub struct LabelRecord {
    pub reg: Reg,
    pub start: u32,
    pub end: u32,
    pub label: ValueLabel,
}

/// The records of all labels, in the order accepted.
#[derive(Drop)]
pub struct ValueLabels {
    records: Table<LabelRecord>,
    ghost of_records: { IsTable records Labels },
}

impl ValueLabels {
    ghost use Rattle.std.specs.Prelude.{◌≡◌, [], map, reverse, IfOk, OnErr};
    ghost use Rattle.faults.specs.TableIds.{capacity_of};
    ghost use Rattle.vcode.specs.Book.{last_end, record_fault, with_label};
    ghost use Rattle.vcode.specs.Held.{Changes, LabelsHeld, label_of};

    pub(crate) fn with_length(heap: Global, length: usize) -> Result<ValueLabels, AllocError>
        ensures { IfOk result (λ v. LabelsHeld v (capacity_of Labels length) []) }
    {
        let records = Table::new(heap, TableId::Labels, length)?;
        Ok(ValueLabels { records })
    }

    pub(crate) fn clear(&mut self)
        ensures { LabelsHeld self.new self.old.records.limit [] }
    {
        self.records.clear();
    }

    // Where the last record of the label ends, or 0.
    fn last_end(&self, label: ValueLabel) -> u32
        ensures { result ≡ last_end (reverse (map label_of self.now.records.entries)) label.0 }
    {
        self.records
            .as_slice()
            .iter()
            .rev()
            .find(|record| record.label == label)
            .map_or(0, |record| record.end)
    }

    // Records that a register holds the label's value up to instruction `end`; nothing where that is 0.
    pub(crate) fn add(&mut self, reg: Reg, label: ValueLabel, end: u32) -> Result<(), Fault>
        ensures answer { Changes LabelsHeld self.old self.new (λ most rs. record_fault most end rs) (λ rs. with_label rs end reg.0 label.0) result }
        ensures unchanged { OnErr result (self.new ≡ self.old) }
    {
        if end == 0 {
            return Ok(());
        }
        // Before the search, which takes as long as the table.
        self.records.check_room()?;
        let start = self.last_end(label);
        self.records.try_push(LabelRecord {
            reg,
            start,
            end,
            label,
        })
    }
}

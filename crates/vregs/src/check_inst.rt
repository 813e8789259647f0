//! Which instructions can be pushed.
ghost use Rattle.machinst.specs.Meaning.{slots_of};
ghost use Rattle.std.specs.Prelude.{◌<◌, length};
ghost use Rattle.vregs.specs.Entries.{count_of};
ghost use Rattle.faults.specs.Outcomes.{Refuses};
ghost use Rattle.vregs.specs.Insts.{first_unknown, inst_fault, move_fault, slot_fault, slot_words};

use crate::vregs::VRegAllocator;
use faults::fault::Fault;
use machinst::inst::MachInst;

/// The most slots that an instruction can have.
const MAX_SLOTS: usize = 8;

impl VRegAllocator {
    /// Refuses an instruction that is a low-level branch, has more than eight slots, names a word that is not known, or is a
    /// move of a physical register.
    pub fn check_inst<I: MachInst>(&self, inst: &I) -> Result<(), Fault>
        ensures { Refuses (inst_fault (count_of self.now) (I.meaning inst.now)) result }
    {
        if inst.is_low_level_branch() {
            return Err(Fault::LowLevelBranch);
        }
        if inst.has_slot(MAX_SLOTS) {
            return Err(Fault::TooManySlots);
        }
        self.check_slots(inst)?;
        check_move(inst)
    }

    // Refuses the first slot whose word is not known, of an instruction with at most eight.
    fn check_slots<I: MachInst>(&self, inst: &I) -> Result<(), Fault>
        ensures { length (slots_of (I.meaning inst.now)) < 9 → Refuses (first_unknown (count_of self.now) 0 (slot_words (I.meaning inst.now))) result }
    {
        // By number, as the interface lends slots: an iterator over them does not prove.
        for k in 0..MAX_SLOTS {
            let Some(slot) = inst.slot(k) else {
                return Ok(());
            };
            self.check_known(slot.reg, k)?;
        }
        Ok(())
    }
}

// Refuses a move whose source, or else whose destination, is a physical register.
fn check_move<I: MachInst>(inst: &I) -> Result<(), Fault>
    ensures { Refuses (move_fault (I.meaning inst.now) (I.meaning inst.now).operation.move) result }
{
    let Some((dst, src)) = inst.is_move() else {
        return Ok(());
    };
    check_virtual(inst, src)?;
    check_virtual(inst, dst)
}

// Refuses slot k of a move where its word is a physical register.
fn check_virtual<I: MachInst>(inst: &I, k: usize) -> Result<(), Fault>
    ensures { Refuses (slot_fault (I.meaning inst.now) k) result }
{
    match inst.slot(k) {
        Some(slot) if slot.reg.is_real() => Err(Fault::PhysicalRegInMove(k)),
        _ => Ok(()),
    }
}

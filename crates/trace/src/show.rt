//! The text of an instruction.
ghost use Rattle.std.specs.Prelude.{◌≡◌, ◌^◌, ◌<◌, ◌++◌, length, codes};
ghost use Rattle.machinst.specs.Meaning.{slot_of, slots_of};
ghost use Rattle.regs.specs.Sets.{member};
ghost use Rattle.trace.specs.Shown.{Appends, clobbers_text, inst_text, members_text, move_text, newline, shown_text, slot_text, slots_text};

use machinst::inst::MachInst;
use machinst::operand::Operand;
use regs::preg_set::PRegSet;
use regs::reg::{PINNED_VREGS, PReg};
use std::alloc::AllocError;

fn write_move(out: &mut String, pair: Option<(usize, usize)>) -> Result<(), AllocError>
    ensures { Appends result out.old out.new (move_text pair) }
{
    match pair {
        Some((dst, src)) => write!(out, "{dst},{src}"),
        None => write!(out, "none"),
    }
}

// Writes the first line of an instruction: all but its clobbers and its slots.
fn write_inst<I: MachInst>(out: &mut String, i: usize, inst: &I) -> Result<(), AllocError>
    ensures { Appends result out.old out.new (inst_text i (I.meaning inst.now) ++ newline) }
{
    let payload = inst.payload();
    let term = inst.is_term();
    let trap = u8::from(inst.is_trap());
    let call = inst.call_type();
    let included = u8::from(inst.is_included_in_clobbers());
    let low = u8::from(inst.is_low_level_branch());
    write!(
        out,
        "inst {i} payload {payload} term {term} trap {trap} call {call} included {included} lowlevel {low} move "
    )?;
    write_move(out, inst.is_move())?;
    writeln!(out)
}

#[tactic(auto, using(crate::proofs::Texts::members_none, crate::proofs::Texts::members_in, crate::proofs::Texts::members_out))]
fn write_members(out: &mut String, set: PRegSet) -> Result<(), AllocError>
    ensures { Appends result out.old out.new (members_text (member set) 192) }
{
    // A `filter` before the loop is no shorter, and needs a proof about the filtered list.
    for n in 0..PINNED_VREGS as u8 {
        if set.contains(PReg(n)) {
            write!(out, " {n}")?;
        }
    }
    Ok(())
}

// Writes the line of the registers that an instruction clobbers.
fn write_clobbers<I: MachInst>(out: &mut String, i: usize, inst: &I) -> Result<(), AllocError>
    ensures { Appends result out.old out.new (clobbers_text i (I.meaning inst.now).operation.clobbers) }
{
    write!(out, "inst {i} clobbers")?;
    write_members(out, inst.clobbers())?;
    writeln!(out)
}

// Writes the line of an instruction's slot k, under the name that is given.
fn write_slot(
    out: &mut String,
    i: usize,
    name: &str,
    k: usize,
    slot: Operand,
) -> Result<(), AllocError>
    ensures { Appends result out.old out.new (slot_text i name.now k (slot_of slot)) }
{
    let Operand {
        reg,
        constraint,
        kind,
        pos,
    } = slot;
    writeln!(
        out,
        "inst {i} {name} {k} {} {constraint} {kind} {pos}",
        reg.0
    )
}

// Writes a line for each slot of an instruction.
fn write_slots<I: MachInst>(out: &mut String, i: usize, inst: &I) -> Result<(), AllocError>
    ensures { length (slots_of (I.meaning inst.now)) < 2 ^ 64 → Appends result out.old out.new (slots_text i (codes "slot") 0 (slots_of (I.meaning inst.now))) }
{
    // By number, as the interface lends slots: an iterator over them does not prove.
    for k in 0..usize::MAX {
        let Some(slot) = inst.slot(k) else {
            return Ok(());
        };
        write_slot(out, i, "slot", k, slot)?;
    }
    Ok(())
}

/// Writes what an instruction means: the lines that answer `show`.
pub(crate) fn write_meaning<I: MachInst>(out: &mut String, inst: &I) -> Result<(), AllocError>
    ensures { length (slots_of (I.meaning inst.now)) < 2 ^ 64 → Appends result out.old out.new (shown_text (I.meaning inst.now)) }
{
    write_inst(out, 0, inst)?;
    write_clobbers(out, 0, inst)?;
    write_slots(out, 0, inst)
}

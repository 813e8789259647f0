ghost use Rattle.std.specs.Prelude.{◌≡◌, ℕ, map, is_some, Option};
ghost use Rattle.machinst.specs.Cases.{call_number, terminator_number};
ghost use Rattle.machinst.specs.Meaning.{Meaning, MoveWithin, slot_at, slot_of, with_word};
ghost use Rattle.machinst.specs.Parts.{Parts, part_lists};
ghost use Rattle.regs.specs.Classes.{class_number};
ghost use Rattle.regs.specs.Sets.{member};
ghost use Rattle.std.specs.Option.{option_map};

use crate::control::{CallType, MachTerminator};
use crate::operand::Operand;
use regs::preg_set::PRegSet;
use regs::reg::{Reg, RegClass, Type};

/// An instruction. Each answer is a part of what the instruction means.
pub trait MachInst {
    // What an instruction means.
    ghost meaning: { Self → Meaning };

    // The registers that hold a value of the type with this number; none where the type is unsupported.
    ghost parts: { ℕ → Option Parts };

    /// The classes of the one or two registers that hold a value of this type, and the type of each part.
    fn rc_for_type(ty: Type) -> Option<(&'static [RegClass], &'static [Type])>
        ensures { option_map (λ p. (map class_number p.0.now, map (λ t. t.0) p.1.now)) result ≡ option_map part_lists (parts ty.0) };

    /// Slot k, where there is one.
    fn slot(&self, k: usize) -> Option<Operand>
        ensures { option_map slot_of result ≡ slot_at (meaning self.now) k };

    /// Whether slot k exists.
    fn has_slot(&self, k: usize) -> bool
        ensures { result ≡ is_some (slot_at (meaning self.now) k) }
    {
        self.slot(k).is_some()
    }

    /// The physical registers that the instruction overwrites besides its operands.
    fn clobbers(&self) -> PRegSet
        ensures { (n : ℕ) → member result n ≡ (meaning self.now).operation.clobbers n };

    fn is_term(&self) -> MachTerminator
        ensures { terminator_number result ≡ (meaning self.now).control.terminator };

    fn is_trap(&self) -> bool
        ensures { result ≡ (meaning self.now).control.trap };

    fn call_type(&self) -> CallType
        ensures { call_number result ≡ (meaning self.now).control.call };

    /// Whether the clobbers count among the registers that the function has to save.
    fn is_included_in_clobbers(&self) -> bool
        ensures { result ≡ (meaning self.now).control.included };

    fn is_low_level_branch(&self) -> bool
        ensures { result ≡ (meaning self.now).control.low_level_branch };

    /// The slots of a move: the destination's, then the source's.
    fn is_move(&self) -> Option<(usize, usize)>
        ensures { result ≡ (meaning self.now).operation.move };

    /// What else the instruction holds, as one number.
    fn payload(&self) -> u64
        ensures { result ≡ (meaning self.now).operation.payload };

    /// Puts `reg` into slot k, and changes nothing else; where there is no slot k, nothing.
    fn set_slot(&mut self, k: usize, reg: Reg)
        ensures { meaning self.new ≡ with_word (meaning self.old) k reg.0 };

    // The two slots of a move exist.
    ghost moves: { (x : Self) → MoveWithin (meaning x) };
}

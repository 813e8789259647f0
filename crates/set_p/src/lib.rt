//! Instruction set P: an enum with a case for each instruction.
#![tactic(auto)]

ghost use Rattle.std.specs.Prelude.{◌≡◌, []};
ghost use Rattle.set_p.specs.MeaningP.{meaning_p, moves_p, parts_p};

use machinst::control::{CallType, MachTerminator};
use machinst::inst::MachInst;
use machinst::layered::Layered;
use machinst::operand::{Operand, OperandConstraint};
use regs::preg_set::PRegSet;
use regs::reg::{PReg, Reg, RegClass, Type, Writable};

/// An instruction of set P.
#[derive(Clone, Copy)]
pub enum P {
    /// Loads a constant.
    Imm { d: Writable<Reg>, value: u32 },
    Add { a: Reg, b: Reg, d: Writable<Reg> },
    Move { s: Reg, d: Writable<Reg> },
    Call { a: Reg, d: Writable<Reg> },
    TailCall { a: Reg },
    Ret { a: Reg },
    /// Goes to one of the block's successors, by what the register holds.
    Branch { a: Reg },
    Jump,
    Trap,
    /// A jump over code that the builder does not see as blocks.
    Skip,
}

/// Where a call takes its argument and leaves its result.
const CALL_REG: OperandConstraint = OperandConstraint::FixedReg(PReg(0));

/// How many registers, from the first on, a call overwrites.
const CALL_CLOBBERS: u8 = 8;

impl MachInst for P {
    ghost meaning = { meaning_p };

    ghost parts = { parts_p };

    ghost moves = { moves_p };

    fn rc_for_type(ty: Type) -> Option<(&'static [RegClass], &'static [Type])> {
        match ty.0 {
            1 => Some((&[RegClass::Int], &[Type(1)])),
            2 => Some((&[RegClass::Float], &[Type(2)])),
            3 => Some((&[RegClass::Int, RegClass::Int], &[Type(1), Type(1)])),
            5 => Some((&[RegClass::Int], &[Type(5)])),
            _ => None,
        }
    }

    #[inline]
    fn slot(&self, k: usize) -> Option<Operand> {
        // By the case first: one match on the case and the number takes twice as long.
        match *self {
            P::Imm { d, .. } => match k {
                0 => Some(Operand::late_def(d, OperandConstraint::Reg)),
                _ => None,
            },
            P::Add { a, b, d } => match k {
                0 => Some(Operand::early_use(a, OperandConstraint::Reg)),
                1 => Some(Operand::early_use(b, OperandConstraint::Reg)),
                2 => Some(Operand::late_def(d, OperandConstraint::Reg)),
                _ => None,
            },
            P::Move { s, d } => match k {
                0 => Some(Operand::early_use(s, OperandConstraint::Reg)),
                1 => Some(Operand::late_def(d, OperandConstraint::Reg)),
                _ => None,
            },
            P::Call { a, d } => match k {
                0 => Some(Operand::early_use(a, CALL_REG)),
                1 => Some(Operand::late_def(d, CALL_REG)),
                _ => None,
            },
            P::TailCall { a } | P::Ret { a } => match k {
                0 => Some(Operand::early_use(a, CALL_REG)),
                _ => None,
            },
            P::Branch { a } => match k {
                0 => Some(Operand::early_use(a, OperandConstraint::Reg)),
                _ => None,
            },
            P::Jump | P::Trap | P::Skip => None,
        }
    }

    fn clobbers(&self) -> PRegSet {
        match self {
            P::Call { .. } => PRegSet::first(CALL_CLOBBERS),
            _ => PRegSet::empty(),
        }
    }

    fn is_term(&self) -> MachTerminator {
        match self {
            P::TailCall { .. } => MachTerminator::RetCall,
            P::Ret { .. } => MachTerminator::Ret,
            P::Branch { .. } | P::Jump => MachTerminator::Branch,
            _ => MachTerminator::None,
        }
    }

    fn is_trap(&self) -> bool {
        matches!(self, P::Trap)
    }

    fn call_type(&self) -> CallType {
        match self {
            P::Call { .. } => CallType::Regular,
            P::TailCall { .. } => CallType::TailCall,
            _ => CallType::None,
        }
    }

    fn is_included_in_clobbers(&self) -> bool {
        true
    }

    fn is_low_level_branch(&self) -> bool {
        matches!(self, P::Skip)
    }

    fn is_move(&self) -> Option<(usize, usize)> {
        match self {
            P::Move { .. } => Some((1, 0)),
            _ => None,
        }
    }

    // The numbers are those of the format.
    fn payload(&self) -> u64 {
        match *self {
            P::Imm { value, .. } => 256 * u64::from(value),
            P::Add { .. } => 1,
            P::Move { .. } => 2,
            P::Call { .. } => 3,
            P::TailCall { .. } => 4,
            P::Ret { .. } => 5,
            P::Branch { .. } => 6,
            P::Jump => 7,
            P::Trap => 8,
            P::Skip => 9,
        }
    }

    // An or-pattern that binds a `&mut` in several cases does not prove, so each slot has an arm.
    fn set_slot(&mut self, k: usize, reg: Reg) {
        match (self, k) {
            (P::Imm { d, .. }, 0) => d.reg = reg,
            (P::Add { a, .. }, 0) => *a = reg,
            (P::Add { b, .. }, 1) => *b = reg,
            (P::Add { d, .. }, 2) => d.reg = reg,
            (P::Move { s, .. }, 0) => *s = reg,
            (P::Move { d, .. }, 1) => d.reg = reg,
            (P::Call { a, .. }, 0) => *a = reg,
            (P::Call { d, .. }, 1) => d.reg = reg,
            (P::TailCall { a }, 0) => *a = reg,
            (P::Ret { a }, 0) => *a = reg,
            (P::Branch { a }, 0) => *a = reg,
            _ => {}
        }
    }
}

impl Layered for P {
    ghost bare = { meaning_p };

    ghost layers = { λ _. [] };

    fn depth(&self) -> usize {
        0
    }
}

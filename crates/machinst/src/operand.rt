ghost use Rattle.std.specs.Prelude.{◌≡◌, Some};
ghost use Rattle.machinst.specs.Cases.{constraint_case, kind_number, pos_number};
ghost use Rattle.machinst.specs.Meaning.{slot_of};
ghost use Rattle.machinst.specs.Names.{constraint_text, kind_name, pos_name};
ghost use Rattle.machinst.specs.Usual.{early_use, late_def};

use regs::reg::{PReg, Reg, Writable};
use std::fmt;

/// Where the allocator may put an operand.
#[derive(Clone, Copy, Debug, PartialEq, Eq)]
pub enum OperandConstraint {
    Any,
    Reg,
    Stack,
    /// This physical register.
    FixedReg(PReg),
    /// The place of this slot, which is an input.
    Reuse(u8),
}

impl fmt::Display for OperandConstraint {
    ghost output = { λ c. Some (constraint_text (constraint_case c)) };

    fn fmt<W: fmt::Write>(&self, f: &mut fmt::Formatter<W>) -> fmt::Result {
        match self {
            OperandConstraint::Any => write!(f, "any"),
            OperandConstraint::Reg => write!(f, "reg"),
            OperandConstraint::Stack => write!(f, "stack"),
            OperandConstraint::FixedReg(PReg(n)) => write!(f, "fixed:{n}"),
            OperandConstraint::Reuse(k) => write!(f, "reuse:{k}"),
        }
    }
}

/// Whether an operand is read or written.
#[derive(Clone, Copy, Debug, PartialEq, Eq)]
pub enum OperandKind {
    Use,
    Def,
}

impl fmt::Display for OperandKind {
    ghost output = { λ k. Some (kind_name (kind_number k)) };

    fn fmt<W: fmt::Write>(&self, f: &mut fmt::Formatter<W>) -> fmt::Result {
        match self {
            OperandKind::Use => write!(f, "use"),
            OperandKind::Def => write!(f, "def"),
        }
    }
}

/// When an operand is read or written, within its instruction.
#[derive(Clone, Copy, Debug, PartialEq, Eq)]
pub enum OperandPos {
    Early,
    Late,
}

impl fmt::Display for OperandPos {
    ghost output = { λ p. Some (pos_name (pos_number p)) };

    fn fmt<W: fmt::Write>(&self, f: &mut fmt::Formatter<W>) -> fmt::Result {
        match self {
            OperandPos::Early => write!(f, "early"),
            OperandPos::Late => write!(f, "late"),
        }
    }
}

/// A slot of an instruction: a register, and what the allocator is told of it.
#[derive(Clone, Copy, Debug, PartialEq, Eq)]
pub struct Operand {
    pub reg: Reg,
    pub constraint: OperandConstraint,
    pub kind: OperandKind,
    pub pos: OperandPos,
}

impl Operand {
    /// A register that is read before the instruction writes any.
    pub fn early_use(reg: Reg, constraint: OperandConstraint) -> Operand
        ensures { slot_of result ≡ early_use (constraint_case constraint) reg.0 }
    {
        Operand {
            reg,
            constraint,
            kind: OperandKind::Use,
            pos: OperandPos::Early,
        }
    }

    /// A register that is written after the instruction has read its own.
    pub fn late_def(to: Writable<Reg>, constraint: OperandConstraint) -> Operand
        ensures { slot_of result ≡ late_def (constraint_case constraint) to.reg.0 }
    {
        Operand {
            reg: to.reg,
            constraint,
            kind: OperandKind::Def,
            pos: OperandPos::Late,
        }
    }
}

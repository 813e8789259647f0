//! Instruction set Q: one record for all instructions, read by a table of rows.
#![tactic(auto)]

ghost use Rattle.std.specs.Prelude.{◌≡◌, []};
ghost use Rattle.machinst.specs.Meaning.{slot_of};
ghost use Rattle.set_q.specs.MeaningQ.{meaning_q, moves_q, parts_q, row_at, row_of, shaped};

use machinst::control::{CallType, MachTerminator};
use machinst::inst::MachInst;
use machinst::layered::Layered;
use machinst::operand::{Operand, OperandConstraint, OperandKind, OperandPos};
use regs::preg_set::PRegSet;
use regs::reg::{PReg, Reg, RegClass, Type};

/// An instruction of set Q. Which of its words are slots, and what else it is, the row of its opcode says.
#[derive(Clone, Copy)]
pub struct Q {
    pub opcode: u8,
    /// The words w0, w1 and w2.
    pub words: [Reg; 3],
    pub number: u32,
}

/// A slot without its register.
#[derive(Clone, Copy)]
pub struct Shape {
    pub constraint: OperandConstraint,
    pub kind: OperandKind,
    pub pos: OperandPos,
}

impl Shape {
    fn operand(self, reg: Reg) -> Operand
        ensures { slot_of result ≡ shaped self reg.0 }
    {
        Operand {
            reg,
            constraint: self.constraint,
            kind: self.kind,
            pos: self.pos,
        }
    }
}

/// What an opcode says of its instructions.
#[derive(Clone, Copy)]
pub struct Row {
    /// The slots: slot k has the word k.
    pub shapes: &'static [Shape],
    pub clobbers: PRegSet,
    pub terminator: MachTerminator,
    pub trap: bool,
    pub call: CallType,
    pub included: bool,
    pub pair: Option<(usize, usize)>,
}

/// In physical register 0.
const FIXED: OperandConstraint = OperandConstraint::FixedReg(PReg(0));

const USE: Shape = Shape {
    constraint: OperandConstraint::Reg,
    kind: OperandKind::Use,
    pos: OperandPos::Early,
};

const USE_FIXED: Shape = Shape {
    constraint: FIXED,
    ..USE
};

const DEF: Shape = Shape {
    constraint: OperandConstraint::Reg,
    kind: OperandKind::Def,
    pos: OperandPos::Late,
};

const DEF_FIXED: Shape = Shape {
    constraint: FIXED,
    ..DEF
};

const DEF_REUSE: Shape = Shape {
    constraint: OperandConstraint::Reuse(0),
    ..DEF
};

/// The row of the opcodes that have none of their own.
const NO_ROW: Row = Row {
    shapes: &[],
    clobbers: PRegSet { bits: [0; 3] },
    terminator: MachTerminator::None,
    trap: false,
    call: CallType::None,
    included: true,
    pair: None,
};

static ROWS: [Row; 8] = [
    Row {
        shapes: &[DEF],
        ..NO_ROW
    },
    Row {
        shapes: &[USE, USE, DEF_REUSE],
        ..NO_ROW
    },
    Row {
        shapes: &[USE, DEF],
        pair: Some((1, 0)),
        ..NO_ROW
    },
    Row {
        shapes: &[USE_FIXED, DEF_FIXED],
        clobbers: PRegSet {
            bits: [0xffff, 0, 0],
        },
        call: CallType::Regular,
        included: false,
        ..NO_ROW
    },
    Row {
        shapes: &[USE_FIXED],
        terminator: MachTerminator::Ret,
        ..NO_ROW
    },
    Row {
        shapes: &[USE],
        terminator: MachTerminator::Branch,
        ..NO_ROW
    },
    Row {
        terminator: MachTerminator::Branch,
        ..NO_ROW
    },
    Row {
        trap: true,
        ..NO_ROW
    },
];

impl Q {
    /// The row of the instruction's opcode.
    fn row(&self) -> &'static Row
        ensures { row_of result.now ≡ row_at self.now.opcode }
    {
        ROWS.get(usize::from(self.opcode)).unwrap_or(&NO_ROW)
    }
}

impl MachInst for Q {
    ghost meaning = { meaning_q };

    ghost parts = { parts_q };

    ghost moves = { moves_q };

    fn rc_for_type(ty: Type) -> Option<(&'static [RegClass], &'static [Type])> {
        match ty.0 {
            1 => Some((&[RegClass::Int, RegClass::Int], &[Type(5), Type(5)])),
            5 => Some((&[RegClass::Int], &[Type(5)])),
            _ => None,
        }
    }

    #[tactic(auto, using(crate::proofs::Slots::slot_shaped))]
    fn slot(&self, k: usize) -> Option<Operand> {
        let shape = self.row().shapes.get(k)?;
        Some(shape.operand(self.words[k]))
    }

    fn clobbers(&self) -> PRegSet {
        self.row().clobbers
    }

    fn is_term(&self) -> MachTerminator {
        self.row().terminator
    }

    fn is_trap(&self) -> bool {
        self.row().trap
    }

    fn call_type(&self) -> CallType {
        self.row().call
    }

    fn is_included_in_clobbers(&self) -> bool {
        self.row().included
    }

    fn is_low_level_branch(&self) -> bool {
        false
    }

    fn is_move(&self) -> Option<(usize, usize)> {
        self.row().pair
    }

    fn payload(&self) -> u64 {
        u64::from(self.opcode) + 256 * u64::from(self.number)
    }

    fn set_slot(&mut self, k: usize, reg: Reg) {
        if k < self.row().shapes.len() {
            self.words[k] = reg;
        }
    }
}

impl Layered for Q {
    ghost bare = { meaning_q };

    ghost layers = { λ _. [] };

    fn depth(&self) -> usize {
        0
    }
}

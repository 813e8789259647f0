ghost use Rattle.machinst.specs.Layers.{charge};

use crate::wrapped::{Wrapped, Wrapper};
use regs::preg_set::PRegSet;
use regs::reg::Reg;

/// Reads the cycle counter.
#[derive(Clone, Copy)]
pub struct Charge {
    pub counter: Reg,
}

/// An instruction that also reads the cycle counter, in a slot after those of the inner instruction.
pub type Charged<I> = Wrapped<Charge, I>;

impl Wrapper for Charge {
    ghost layer = { λ c. charge c.counter.0 };

    fn counter(&self) -> Option<Reg> {
        Some(self.counter)
    }

    fn fence(&self) -> PRegSet {
        PRegSet::empty()
    }

    fn set_counter(&mut self, reg: Reg) {
        self.counter = reg;
    }
}

ghost use Rattle.machinst.specs.Layers.{fence};
ghost use Rattle.regs.specs.Sets.{member};

use crate::wrapped::{Wrapped, Wrapper};
use regs::preg_set::PRegSet;
use regs::reg::Reg;

/// Overwrites the registers of a set.
#[derive(Clone, Copy)]
pub struct Fence {
    pub fence: PRegSet,
}

/// An instruction that also overwrites the registers of a set.
pub type Fenced<I> = Wrapped<Fence, I>;

impl Wrapper for Fence {
    ghost layer = { λ f. fence (member f.fence) };

    fn counter(&self) -> Option<Reg> {
        None
    }

    fn fence(&self) -> PRegSet {
        self.fence
    }

    fn set_counter(&mut self, _reg: Reg) {}
}

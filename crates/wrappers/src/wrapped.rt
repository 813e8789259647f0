ghost use Rattle.std.specs.Prelude.{◌≡◌, ℕ, [], ◌∷◌, ◌++◌, Option};
ghost use Rattle.machinst.specs.Layers.{Layer, fenced_off};
ghost use Rattle.regs.specs.Sets.{member};
ghost use Rattle.std.specs.Option.{option_map};
ghost use Rattle.wrappers.specs.Wrapped.{counter_of, recounted, wrapped, wrapped_moves};

use machinst::control::{CallType, MachTerminator};
use machinst::inst::MachInst;
use machinst::layered::Layered;
use machinst::operand::{Operand, OperandConstraint};
use regs::preg_set::PRegSet;
use regs::reg::{Reg, RegClass, Type};

/// What a wrapper adds to an instruction.
pub trait Wrapper {
    ghost layer: { Self → Layer };

    /// The register that the instruction also reads, in a slot after those of the inner instruction.
    fn counter(&self) -> Option<Reg>
        ensures { option_map (λ r. r.0) result ≡ counter_of (layer self.now) };

    /// The physical registers that the instruction also overwrites.
    fn fence(&self) -> PRegSet
        ensures { (n : ℕ) → member result n ≡ fenced_off (layer self.now ∷ []) n };

    /// Puts `reg` in the place of the counter, where there is one.
    fn set_counter(&mut self, reg: Reg)
        ensures { layer self.new ≡ recounted (layer self.old) reg.0 };
}

/// An instruction under a wrapper.
#[derive(Clone, Copy)]
pub struct Wrapped<W, I> {
    pub wrapper: W,
    pub inner: I,
}

#[tactic(auto, using(crate::proofs::Parts::wrapped_parts))]
impl<W: Wrapper, I: MachInst> MachInst for Wrapped<W, I> {
    ghost meaning = { λ c. wrapped (W.layer c.wrapper ∷ []) (I.meaning c.inner) };

    ghost parts = { I.parts };

    ghost moves = { λ c. wrapped_moves (W.layer c.wrapper) (I.meaning c.inner) (I.moves c.inner) };

    fn rc_for_type(ty: Type) -> Option<(&'static [RegClass], &'static [Type])> {
        I::rc_for_type(ty)
    }

    // The hints keep nested wrappers in one body: calls between them take three times as long.
    #[inline]
    fn slot(&self, k: usize) -> Option<Operand> {
        let below = self.inner.slot(k);
        match self.wrapper.counter() {
            Some(counter) if below.is_none() && self.has_slot(k) => Some(Operand::early_use(
                counter,
                OperandConstraint::Reg,
            )),
            _ => below,
        }
    }

    #[inline]
    fn has_slot(&self, k: usize) -> bool {
        match self.wrapper.counter() {
            Some(_) => k == 0 || self.inner.has_slot(k - 1),
            None => self.inner.has_slot(k),
        }
    }

    fn clobbers(&self) -> PRegSet {
        // A counter overwrites nothing.
        match self.wrapper.counter() {
            Some(_) => self.inner.clobbers(),
            None => self.inner.clobbers().union(self.wrapper.fence()),
        }
    }

    fn is_term(&self) -> MachTerminator {
        self.inner.is_term()
    }

    fn is_trap(&self) -> bool {
        self.inner.is_trap()
    }

    fn call_type(&self) -> CallType {
        self.inner.call_type()
    }

    fn is_included_in_clobbers(&self) -> bool {
        self.inner.is_included_in_clobbers()
    }

    fn is_low_level_branch(&self) -> bool {
        self.inner.is_low_level_branch()
    }

    fn is_move(&self) -> Option<(usize, usize)> {
        self.inner.is_move()
    }

    fn payload(&self) -> u64 {
        self.inner.payload()
    }

    fn set_slot(&mut self, k: usize, reg: Reg) {
        if self.wrapper.counter().is_none() || self.inner.has_slot(k) {
            self.inner.set_slot(k, reg);
        } else if self.has_slot(k) {
            self.wrapper.set_counter(reg);
        }
    }
}

impl<W: Wrapper, I: Layered> Layered for Wrapped<W, I> {
    ghost bare = { λ c. I.bare c.inner };

    ghost layers = { λ c. I.layers c.inner ++ W.layer c.wrapper ∷ [] };

    fn depth(&self) -> usize {
        self.inner.depth().saturating_add(1)
    }
}

ghost use Rattle.std.specs.Prelude.{◌≡◌, ℕ, ◌-◌, ◌^◌, min, List, length};
ghost use Rattle.machinst.specs.Meaning.{Meaning};
ghost use Rattle.machinst.specs.Layers.{Layer, Under};

use crate::inst::MachInst;

/// An instruction seen as a bare one under a list of wrappers.
pub trait Layered: MachInst {
    // What the bare instruction means.
    ghost bare: { Self → Meaning };

    // The wrappers, the innermost first.
    ghost layers: { Self → List Layer };

    /// How many wrappers there are.
    fn depth(&self) -> usize
        ensures depth { result ≡ min (length (layers self.now)) (2 ^ 64 - 1) }
        ensures under { Under (layers self.now) (bare self.now) (Self.MachInst.meaning self.now) };
}

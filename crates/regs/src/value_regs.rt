ghost use Rattle.std.specs.Prelude.{◌≡◌, [], ◌∷◌, length};
ghost use Rattle.regs.specs.Parts.{value_regs};
ghost use Rattle.std.specs.List.{slice_get};

// A model as a list does not prove: a `Copy` type has to give its fields back from every list, the empty one too.
/// The one or two registers that hold a value.
#[derive(Clone, Copy, Debug, PartialEq, Eq)]
pub struct ValueRegs<R> {
    first: R,
    second: Option<R>,
}

impl<R: Copy> ValueRegs<R> {
    /// A value in one register.
    pub fn one(reg: R) -> ValueRegs<R>
        ensures { value_regs result ≡ reg ∷ [] }
    {
        ValueRegs {
            first: reg,
            second: None,
        }
    }

    /// A value in two registers.
    pub fn two(first: R, second: R) -> ValueRegs<R>
        ensures { value_regs result ≡ first ∷ second ∷ [] }
    {
        ValueRegs {
            first,
            second: Some(second),
        }
    }

    /// How many registers hold the value.
    pub fn len(&self) -> usize
        ensures { result ≡ length (value_regs self.now) }
    {
        match self.second {
            None => 1,
            Some(_) => 2,
        }
    }

    /// Register k of the value.
    pub fn get(&self, k: usize) -> Option<R>
        ensures { result ≡ slice_get (value_regs self.now) k }
    {
        match k {
            0 => Some(self.first),
            1 => self.second,
            _ => None,
        }
    }
}

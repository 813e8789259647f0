ghost use Rattle.std.specs.Prelude.{◌≡◌};
ghost use Rattle.regs.specs.Classes.{class_number};
ghost use Rattle.regs.specs.Words.{physical, spill_slot, word_class, word_index};
ghost use Rattle.std.specs.Option.{option_map};

/// The bit that marks a spill slot.
const SPILLSLOT_BIT: u32 = 0x8000_0000;

/// How many of the first indexes are physical registers.
pub const PINNED_VREGS: usize = 192;

/// A register named in an instruction: a spill slot where bit 31 is set, otherwise 4 × index + class.
#[derive(Clone, Copy, Debug, PartialEq, Eq)]
pub struct Reg(pub u32);

/// The class of a register.
#[derive(Clone, Copy, Debug, PartialEq, Eq)]
pub enum RegClass {
    Int = 0,
    Float = 1,
    Vector = 2,
}

/// A physical register, by its number.
#[derive(Clone, Copy, Debug, PartialEq, Eq)]
pub struct PReg(pub u8);

/// A register that is written.
#[derive(Clone, Copy, Debug, PartialEq, Eq)]
pub struct Writable<T> {
    pub reg: T,
}

/// The number of a type of values.
#[derive(Clone, Copy, Debug, PartialEq, Eq)]
pub struct Type(pub u16);

impl RegClass {
    /// The class's number in a register word.
    pub fn number(self) -> u32
        ensures { result ≡ class_number self }
    {
        self as u32
    }
}

impl Reg {
    /// Whether the word is a spill slot.
    pub fn is_spillslot(self) -> bool
        ensures { result ≡ spill_slot self.0 }
    {
        self.0 >= SPILLSLOT_BIT
    }

    /// The register's index, unless the word is a spill slot.
    pub fn index(self) -> Option<u32>
        ensures { result ≡ word_index self.0 }
    {
        if self.is_spillslot() {
            None
        } else {
            Some(self.0 / 4)
        }
    }

    // A `TryFrom` for the class would be called here alone.
    /// The register's class, unless the word is a spill slot or names no class.
    pub fn class(self) -> Option<RegClass>
        ensures { option_map class_number result ≡ word_class self.0 }
    {
        if self.is_spillslot() {
            return None;
        }
        match self.0 % 4 {
            0 => Some(RegClass::Int),
            1 => Some(RegClass::Float),
            2 => Some(RegClass::Vector),
            _ => None,
        }
    }

    /// Whether the word is a physical register, of whatever class.
    pub fn is_real(self) -> bool
        ensures { result ≡ physical self.0 }
    {
        ((self.0 / 4) as usize) < PINNED_VREGS
    }
}

ghost use Rattle.std.specs.Prelude.{◌≡◌, Some};
ghost use Rattle.faults.specs.Faults.{fault_number, fault_place, fault_text};

use crate::table_id::TableId;
use std::error::Error;
use std::fmt;

/// Why a call was refused.
#[derive(Clone, Copy, Debug, PartialEq, Eq)]
pub enum Fault {
    /// A table has no room for what would be added; the place is the number of the table.
    Full(TableId),
    /// There are not enough registers left; the place is how many there were before, the physical ones included.
    RegsExhausted(usize),
    /// No register holds a value of a type; the place is the type.
    UnsupportedType(u16),
    /// A register word is not one that the call accepts; the place is its position among those that were passed.
    UnknownReg(usize),
    /// A register would become an alias of itself; the place is the index of that register.
    AliasCycle(usize),
    /// A register is an alias already; the place is the index of that register.
    AlreadyAliased(usize),
    /// An instruction is a low-level branch; the place is 0.
    LowLevelBranch,
    /// An instruction has more than eight register slots; the place is 8.
    TooManySlots,
    /// A move names a physical register; the place is the slot that does.
    PhysicalRegInMove(usize),
    /// A block was not ended; the place is how many blocks were.
    Unclosed(usize),
    /// There is no instruction; the place is 0.
    NoInsts,
    /// A successor, or the entry, names a block that does not exist; the place is the position of the successor, or the number of successors.
    NoSuchBlock(usize),
    /// An index is too large; the place is the index.
    OutOfRange(usize),
    /// An end or a length does not fit what it is to go with; the place is that end or length.
    Mismatch(usize),
    /// An allocation is not one that can be; the place is its position.
    BadAllocation(usize),
}

impl Fault {
    // By a match, since an enum whose cases hold values has no discriminants.
    /// The number of the fault.
    pub fn number(self) -> usize
        ensures { result ≡ fault_number self }
    {
        match self {
            Fault::Full(_) => 1,
            Fault::RegsExhausted(_) => 2,
            Fault::UnsupportedType(_) => 3,
            Fault::UnknownReg(_) => 4,
            Fault::AliasCycle(_) => 5,
            Fault::AlreadyAliased(_) => 6,
            Fault::LowLevelBranch => 7,
            Fault::TooManySlots => 8,
            Fault::PhysicalRegInMove(_) => 9,
            Fault::Unclosed(_) => 10,
            Fault::NoInsts => 11,
            Fault::NoSuchBlock(_) => 12,
            Fault::OutOfRange(_) => 14,
            Fault::Mismatch(_) => 15,
            Fault::BadAllocation(_) => 17,
        }
    }

    /// The place that the fault names.
    pub fn place(self) -> usize
        ensures { result ≡ fault_place self }
    {
        match self {
            Fault::Full(table) => table.number(),
            Fault::UnsupportedType(kind) => usize::from(kind),
            Fault::LowLevelBranch | Fault::NoInsts => 0,
            Fault::TooManySlots => 8,
            Fault::RegsExhausted(place)
            | Fault::UnknownReg(place)
            | Fault::AliasCycle(place)
            | Fault::AlreadyAliased(place)
            | Fault::PhysicalRegInMove(place)
            | Fault::Unclosed(place)
            | Fault::NoSuchBlock(place)
            | Fault::OutOfRange(place)
            | Fault::Mismatch(place)
            | Fault::BadAllocation(place) => place,
        }
    }
}

impl fmt::Display for Fault {
    ghost output = { λ fault. Some (fault_text fault) };

    fn fmt<W: fmt::Write>(&self, f: &mut fmt::Formatter<W>) -> fmt::Result {
        let number = self.number();
        let place = self.place();
        write!(f, "{number} {place}")
    }
}

impl Error for Fault {}

//! The head of a script: the set, the wrappers and the lengths of the tables.
ghost use Rattle.std.specs.Prelude.{◌≡◌};
ghost use Rattle.faults.specs.Outcomes.{Refuses};
ghost use Rattle.trace.specs.Heads.{Lists, new_fault, reads_lengths, reads_set, set_named, wrapper_named, wrappers_of, wrapping_of};
ghost use Rattle.trace.specs.Readers.{Gives, left};
ghost use Rattle.trace.specs.declared.reason.Reason.TheVariants.{UnsupportedWrappers};
ghost use Rattle.std.specs.Option.{ok_or};

use crate::reason::Reason;
use crate::stop::Stop;
use crate::words::Words;
use faults::fault::Fault;
use faults::lengths::Lengths;
use faults::table_id::TableId;
use regs::reg::PINNED_VREGS;
use std::alloc::Global;

/// An instruction set.
#[derive(Clone, Copy)]
pub enum Set {
    P,
    Q,
}

/// A wrapper around an instruction.
#[derive(Clone, Copy)]
pub enum Wrapper {
    Charged,
    Fenced,
}

/// A list of wrappers that instructions can be run under, the innermost first.
#[derive(Clone, Copy)]
pub enum Wrapping {
    Bare,
    Charged,
    Fenced,
    ChargedTwice,
    ChargedFenced,
    FencedCharged,
    FencedTwice,
    ChargedSix,
    ChargedSeven,
    ChargedEight,
}

impl TryFrom<&[u8]> for Set {
    type Error = Reason;

    ghost try_from_gives = { λ name r. r ≡ set_named name.now };

    fn try_from(name: &[u8]) -> Result<Set, Reason> {
        match name {
            b"P" => Ok(Set::P),
            b"Q" => Ok(Set::Q),
            _ => Err(Reason::UnknownWord),
        }
    }
}

/// Reads the name of a set, and nothing after it.
pub(crate) fn read_set(words: &mut Words) -> Result<Set, Reason>
    ensures { Gives reads_set words.old result words.new }
{
    let set = Set::try_from(words.word()?)?;
    words.end()?;
    Ok(set)
}

impl TryFrom<&[u8]> for Wrapper {
    type Error = Reason;

    ghost try_from_gives = { λ name r. r ≡ wrapper_named name.now };

    fn try_from(name: &[u8]) -> Result<Wrapper, Reason> {
        match name {
            b"charged" => Ok(Wrapper::Charged),
            b"fenced" => Ok(Wrapper::Fenced),
            _ => Err(Reason::UnknownWord),
        }
    }
}

/// Reads the names of wrappers up to the line's end, the innermost first.
pub(crate) fn read_wrappers(heap: Global, words: &mut Words) -> Result<Vec<Wrapper>, Stop>
    ensures { Lists (wrappers_of (left words.old)) result }
{
    let mut wrappers = Vec::new(heap);
    for word in words {
        wrappers.push(Wrapper::try_from(word)?)?;
    }
    Ok(wrappers)
}

/// The wrapping that a list of wrappers is, where instructions under it can be run.
impl TryFrom<&[Wrapper]> for Wrapping {
    type Error = Reason;

    ghost try_from_gives = { λ wrappers r. r ≡ ok_or (wrapping_of wrappers.now) UnsupportedWrappers };

    fn try_from(wrappers: &[Wrapper]) -> Result<Wrapping, Reason> {
        use Wrapper::Charged as C;
        use Wrapper::Fenced as F;
        match wrappers {
            [] => Ok(Wrapping::Bare),
            [C] => Ok(Wrapping::Charged),
            [F] => Ok(Wrapping::Fenced),
            [C, C] => Ok(Wrapping::ChargedTwice),
            [C, F] => Ok(Wrapping::ChargedFenced),
            [F, C] => Ok(Wrapping::FencedCharged),
            [F, F] => Ok(Wrapping::FencedTwice),
            [C, C, C, C, C, C] => Ok(Wrapping::ChargedSix),
            [C, C, C, C, C, C, C] => Ok(Wrapping::ChargedSeven),
            [C, C, C, C, C, C, C, C] => Ok(Wrapping::ChargedEight),
            _ => Err(Reason::UnsupportedWrappers),
        }
    }
}

/// Reads the lengths of the ten tables, and nothing after them.
pub(crate) fn read_lengths(words: &mut Words) -> Result<Lengths, Reason>
    ensures { Gives reads_lengths words.old result words.new }
{
    let lengths = Lengths {
        registers: words.number()?,
        insts: words.number()?,
        blocks: words.number()?,
        succs: words.number()?,
        branch_args: words.number()?,
        block_params: words.number()?,
        labels: words.number()?,
        operands: words.number()?,
        preds: words.number()?,
        built_labels: words.number()?,
    };
    words.end()?;
    Ok(lengths)
}

/// Refuses lengths whose register table would have no room for the physical registers; there is no table yet.
pub(crate) fn check_lengths(lengths: &Lengths) -> Result<(), Fault>
    ensures { Refuses (new_fault lengths.now) result }
{
    if lengths.registers < PINNED_VREGS {
        Err(Fault::Full(TableId::Registers))
    } else {
        Ok(())
    }
}

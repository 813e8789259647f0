//! Instructions as a script writes them.
ghost use Rattle.std.specs.Prelude.{◌≡◌, ℕ, List};
ghost use Rattle.machinst.specs.Layers.{Layer};
ghost use Rattle.trace.specs.Readers.{Gives, GivesBy, Read};
ghost use Rattle.trace.specs.Insts.{Reader, bare_p, bare_q, reads_charge, reads_fence, reads_reg, reads_set, reads_wrapped, reads_written};

use crate::reason::Reason;
use crate::words::Words;
use machinst::inst::MachInst;
use regs::preg_set::PRegSet;
use regs::reg::{Reg, Writable};
use set_p::P;
use set_q::Q;
use wrappers::charged::Charge;
use wrappers::fenced::Fence;
use wrappers::wrapped::{Wrapped, Wrapper};

/// An instruction that can be read from the words of a line.
pub trait ReadInst: MachInst + Sized {
    // What the instruction means that some words write, and the words that are left.
    ghost reads: { Reader };

    fn read(words: &mut Words) -> Result<Self, Reason>
        ensures { GivesBy Self.MachInst.meaning reads words.old result words.new };
}

/// A wrapper that can be read from the words of a line.
pub trait ReadWrapper: Wrapper + Sized {
    // What the wrapper adds that some words write, and the words that are left.
    ghost reads: { List (List ℕ) → Read Layer };

    fn read(words: &mut Words) -> Result<Self, Reason>
        ensures { GivesBy Self.Wrapper.layer reads words.old result words.new };
}

fn read_reg(words: &mut Words) -> Result<Reg, Reason>
    ensures { Gives reads_reg words.old result words.new }
{
    Ok(Reg(words.number()?))
}

fn read_written(words: &mut Words) -> Result<Writable<Reg>, Reason>
    ensures { Gives reads_written words.old result words.new }
{
    Ok(Writable {
        reg: read_reg(words)?,
    })
}

fn read_set(words: &mut Words) -> Result<PRegSet, Reason>
    ensures { Gives reads_set words.old result words.new }
{
    Ok(PRegSet {
        bits: [words.number()?, words.number()?, words.number()?],
    })
}

impl ReadInst for Q {
    ghost reads = { bare_q };

    fn read(words: &mut Words) -> Result<Q, Reason> {
        words.expect(b"Op")?;
        Ok(Q {
            opcode: words.number()?,
            words: [read_reg(words)?, read_reg(words)?, read_reg(words)?],
            number: words.number()?,
        })
    }
}

impl ReadWrapper for Charge {
    ghost reads = { reads_charge };

    fn read(words: &mut Words) -> Result<Charge, Reason> {
        Ok(Charge {
            counter: read_reg(words)?,
        })
    }
}

impl ReadWrapper for Fence {
    ghost reads = { reads_fence };

    fn read(words: &mut Words) -> Result<Fence, Reason> {
        Ok(Fence {
            fence: read_set(words)?,
        })
    }
}

impl<W: ReadWrapper, I: ReadInst + Drop> ReadInst for Wrapped<W, I> {
    ghost reads = { reads_wrapped W.ReadWrapper.reads I.ReadInst.reads };

    fn read(words: &mut Words) -> Result<Wrapped<W, I>, Reason> {
        let inner = I::read(words)?;
        words.expect(b"+")?;
        let wrapper = W::read(words)?;
        Ok(Wrapped { wrapper, inner })
    }
}

impl ReadInst for P {
    ghost reads = { bare_p };

    fn read(words: &mut Words) -> Result<P, Reason> {
        match words.word()? {
            b"Imm" => Ok(P::Imm {
                d: read_written(words)?,
                value: words.number()?,
            }),
            b"Add" => Ok(P::Add {
                a: read_reg(words)?,
                b: read_reg(words)?,
                d: read_written(words)?,
            }),
            b"Move" => Ok(P::Move {
                s: read_reg(words)?,
                d: read_written(words)?,
            }),
            b"Call" => Ok(P::Call {
                a: read_reg(words)?,
                d: read_written(words)?,
            }),
            b"TailCall" => Ok(P::TailCall {
                a: read_reg(words)?,
            }),
            b"Ret" => Ok(P::Ret {
                a: read_reg(words)?,
            }),
            b"Branch" => Ok(P::Branch {
                a: read_reg(words)?,
            }),
            b"Jump" => Ok(P::Jump),
            b"Trap" => Ok(P::Trap),
            b"Skip" => Ok(P::Skip),
            _ => Err(Reason::UnknownWord),
        }
    }
}

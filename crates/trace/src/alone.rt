//! A range table that is used alone: its calls, and their answers.
ghost use Rattle.std.specs.Prelude.{◌≡◌};
ghost use Rattle.trace.specs.Alone.{after_call, call_named, call_text, done_text, range_text, reads_call};
ghost use Rattle.trace.specs.Readers.{Gives};
ghost use Rattle.trace.specs.Shown.{Appends};

use crate::reason::Reason;
use crate::words::Words;
use faults::fault::Fault;
use ranges::ranges::Ranges;
use std::alloc::AllocError;

/// A call on a range table, as a value that its answer is defined for.
#[derive(Clone, Copy)]
pub enum RangesCall {
    PushEnd(u32),
    Get(usize),
    ReverseIndex,
    ReverseTarget(u32),
    Len,
}

fn read_named(name: &[u8], words: &mut Words) -> Result<RangesCall, Reason>
    ensures { Gives (call_named name.now) words.old result words.new }
{
    match name {
        b"push_end" => Ok(RangesCall::PushEnd(words.number()?)),
        b"get" => Ok(RangesCall::Get(words.number()?)),
        b"reverse_target" => Ok(RangesCall::ReverseTarget(words.number()?)),
        b"reverse_index" => Ok(RangesCall::ReverseIndex),
        b"len" => Ok(RangesCall::Len),
        _ => Err(Reason::NotHere),
    }
}

/// Reads a call from all of the words.
pub(crate) fn read_call(words: &mut Words) -> Result<RangesCall, Reason>
    ensures { Gives reads_call words.old result words.new }
{
    let name = words.word()?;
    let call = read_named(name, words)?;
    words.end()?;
    Ok(call)
}

fn write_done(out: &mut String, done: Result<(), Fault>) -> Result<(), AllocError>
    ensures { Appends result out.old out.new (done_text done) }
{
    match done {
        Ok(()) => writeln!(out, "ok"),
        Err(fault) => writeln!(out, "refused {fault}"),
    }
}

fn write_range(out: &mut String, found: Result<(u32, u32), Fault>) -> Result<(), AllocError>
    ensures { Appends result out.old out.new (range_text found) }
{
    match found {
        Ok((start, end)) => writeln!(out, "range {start} {end}"),
        Err(fault) => writeln!(out, "refused {fault}"),
    }
}

/// Makes a call, and writes its answer.
pub(crate) fn answer_call(
    ranges: &mut Ranges,
    call: RangesCall,
    out: &mut String,
) -> Result<(), AllocError>
    ensures after { ranges.new.spans ≡ after_call ranges.old.spans call }
    ensures answer { Appends result out.old out.new (call_text ranges.old.spans call) }
{
    match call {
        RangesCall::PushEnd(end) => write_done(out, ranges.push_end(end)),
        RangesCall::Get(index) => write_range(out, ranges.get(index)),
        RangesCall::ReverseIndex => {
            ranges.reverse_index();
            writeln!(out, "ok")
        }
        RangesCall::ReverseTarget(target_len) => write_done(out, ranges.reverse_target(target_len)),
        RangesCall::Len => writeln!(out, "len {}", ranges.len()),
    }
}

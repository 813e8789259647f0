//! The commands of each stage of a script.
ghost use Rattle.trace.specs.Steps.{OnRequest, Changes, Moves, Takes, alone_step, head, lengths_step, place_of, ranges_step, reads_length, show_step, start, step, wrap_once};
ghost use Rattle.trace.specs.Readers.{Gives, left};

use crate::alone::{answer_call, read_call};
use crate::head::{Wrapping, check_lengths, read_lengths, read_set, read_wrappers};
use crate::reason::Reason;
use crate::request::Request;
use crate::shows::show;
use crate::stage::{Head, Stage};
use crate::stop::Stop;
use crate::words::Words;
use ranges::ranges::Ranges;

fn read_length(words: &mut Words) -> Result<usize, Reason>
    ensures { Gives reads_length words.old result words.new }
{
    let length = words.number()?;
    words.end()?;
    Ok(length)
}

fn start_ranges(request: &mut Request) -> Result<Stage, Stop>
    ensures { OnRequest (Takes (ranges_step (left request.old.words)) result) request.old request.new }
{
    let length = read_length(&mut request.words)?;
    let ranges = Ranges::alone(request.heap, length)?;
    writeln!(request.out, "new")?;
    Ok(Stage::Alone(ranges))
}

// A command at the start of a script.
fn start_command(request: &mut Request) -> Result<Stage, Stop>
    ensures { OnRequest (Takes (step start (left request.old.words)) result) request.old request.new }
{
    match request.words.word()? {
        b"set" => Ok(Stage::Head(Head {
            set: read_set(&mut request.words)?,
            wrapping: None,
        })),
        b"ranges" => start_ranges(request),
        _ => Err(Stop::Line(Reason::NotHere)),
    }
}

fn tables_command(request: &mut Request) -> Result<Stage, Stop>
    ensures { OnRequest (Takes (lengths_step (left request.old.words)) result) request.old request.new }
{
    let lengths = read_lengths(&mut request.words)?;
    match check_lengths(&lengths) {
        Ok(()) => {
            writeln!(request.out, "new")?;
            Ok(Stage::Function)
        }
        Err(fault) => {
            writeln!(request.out, "refused {fault}")?;
            Ok(Stage::Over)
        }
    }
}

impl Head {
    // Names the wrappers, once.
    fn wrap(self, request: &mut Request) -> Result<Stage, Stop>
        ensures { OnRequest (Takes (wrap_once self.set self.wrapping (left request.old.words)) result) request.old request.new }
    {
        if self.wrapping.is_some() {
            return Err(Stop::Line(Reason::NotHere));
        }
        let wrappers = read_wrappers(request.heap, &mut request.words)?;
        let wrapping = Wrapping::try_from(wrappers.as_slice())?;
        Ok(Stage::Head(Head {
            wrapping: Some(wrapping),
            ..self
        }))
    }

    // Shows an instruction, with no wrappers where none were named.
    fn show(self, request: &mut Request) -> Result<Stage, Stop>
        ensures { OnRequest (Takes (show_step self.set self.wrapping (left request.old.words)) result) request.old request.new }
    {
        let wrapping = self.wrapping.unwrap_or(Wrapping::Bare);
        show(self.set, wrapping, request)?;
        Ok(Stage::Head(self))
    }

    // A command in the head of a function.
    fn command(self, request: &mut Request) -> Result<Stage, Stop>
        ensures { OnRequest (Takes (step (head self.set self.wrapping) (left request.old.words)) result) request.old request.new }
    {
        match request.words.word()? {
            b"wrap" => self.wrap(request),
            b"show" => self.show(request),
            b"tables" => tables_command(request),
            _ => Err(Stop::Line(Reason::NotHere)),
        }
    }
}

// A call on a range table used alone.
fn alone_command(ranges: &mut Ranges, request: &mut Request) -> Result<(), Stop>
    ensures { OnRequest (Changes (alone_step ranges.old.spans (left request.old.words)) result ranges.old.spans ranges.new.spans) request.old request.new }
{
    let call = read_call(&mut request.words)?;
    answer_call(ranges, call, request.out)?;
    Ok(())
}

impl Stage {
    // Answers the words of a line that is not passed over, and goes on to the next stage.
    pub(crate) fn answer(&mut self, request: &mut Request) -> Result<(), Stop>
        ensures { OnRequest (Moves (step (place_of self.old) (left request.old.words)) result (place_of self.old) (place_of self.new)) request.old request.new }
    {
        match self {
            Stage::Start => *self = start_command(request)?,
            Stage::Head(head) => *self = head.command(request)?,
            Stage::Function => return Err(Stop::Line(Reason::NotHere)),
            Stage::Alone(ranges) => alone_command(ranges, request)?,
            Stage::Over => {}
        }
        Ok(())
    }
}

//! A whole script, answered line by line.
ghost use Rattle.std.specs.Prelude.{◌≡◌, ◌+◌, ◌-◌, ◌^◌, min, [], OnOk};
ghost use Rattle.trace.specs.Runs.{Run, Settles, line_step, next_number};
ghost use Rattle.trace.specs.Steps.{place_of, start};
ghost use Rattle.trace.specs.Lines.{Split, lines_of};

use crate::request::Request;
use crate::stage::Stage;
use crate::stop::Stop;
use crate::words::{Words, is_passed_over};
use std::alloc::Global;
use std::fmt;

/// The one byte that parts lines.
const NEWLINE: u8 = b'\n';

// A script that is being answered.
#[derive(Drop)]
struct Session {
    heap: Global,
    // How many lines were read, or the most that there is a number for.
    line: u64,
    stage: Stage,
}

impl Session {
    // A script of which nothing was read.
    fn new(heap: Global) -> Session
        ensures { (result.line ≡ 0) × (place_of result.stage ≡ start) }
    {
        Session {
            heap,
            line: 0,
            stage: Stage::Start,
        }
    }

    // Answers one line: what is due goes to the end of `out`, and why the line is no command to that of `reasons`.
    fn answer(&mut self, line: &[u8], out: &mut String, reasons: &mut String) -> fmt::Result
        ensures { OnOk result ((self.new.line ≡ next_number self.old.line) × Settles (line_step (place_of self.old.stage) (next_number self.old.line) line.now) (place_of self.new.stage) out.old out.new) }
    {
        self.line = self.line.saturating_add(1);
        if is_passed_over(line) {
            return Ok(());
        }
        let mut request = Request {
            heap: self.heap,
            words: Words::new(line),
            out,
        };
        match self.stage.answer(&mut request) {
            Ok(()) => Ok(()),
            Err(Stop::Memory) => Err(fmt::Error),
            Err(Stop::Line(reason)) => {
                writeln!(request.out, "error {}", self.line)?;
                writeln!(reasons, "line {}: {reason}", self.line)?;
                Ok(())
            }
        }
    }
}

/// Answers each line of a script.
pub fn run(heap: Global, script: &[u8], out: &mut String, reasons: &mut String) -> fmt::Result
    ensures answers { OnOk result (Run start 0 (lines_of script.now) out.old out.new) }
    ensures pieces { Split 10 script.now }
{
    let mut session = Session::new(heap);
    for line in script.split(|b| *b == NEWLINE) {
        session.answer(line, out, reasons)?;
    }
    Ok(())
}

//! The answer to `show`: what an instruction means.
ghost use Rattle.std.specs.Prelude.{◌≡◌};
ghost use Rattle.trace.specs.Heads.{wrapping_list};
ghost use Rattle.trace.specs.Shows.{ShowsBy, ShowsUnder, bare_reader};
ghost use Rattle.trace.specs.Readers.{left};
ghost use Rattle.trace.specs.Steps.{OnRequest};

use crate::head::{Set, Wrapping};
use crate::read::ReadInst;
use crate::request::Request;
use crate::show::write_meaning;
use crate::stop::Stop;
use machinst::inst::MachInst;
use set_p::P;
use set_q::Q;
use wrappers::charged::Charged;
use wrappers::fenced::Fenced;

// Reads one instruction of this type from all of the words, and writes what it means.
fn show_as<I: ReadInst + Drop>(request: &mut Request) -> Result<(), Stop>
    ensures { OnRequest (ShowsBy I.ReadInst.reads (left request.old.words) result) request.old request.new }
{
    let inst = I::read(&mut request.words)?;
    request.words.end()?;
    write_meaning(request.out, &inst)?;
    Ok(())
}

// An instruction that is charged three times.
type Thrice<I> = Charged<Charged<Charged<I>>>;

// The same of a bare instruction of this type under wrappers. Each wrapping is an instruction type of its own.
#[tactic(auto, using(crate::proofs::Nested::shows_at))]
fn show_under<B: ReadInst + Copy>(wrapping: Wrapping, request: &mut Request) -> Result<(), Stop>
    ensures { OnRequest (ShowsUnder B.ReadInst.reads (wrapping_list wrapping) (left request.old.words) result) request.old request.new }
{
    match wrapping {
        Wrapping::Bare => show_as::<B>(request),
        Wrapping::Charged => show_as::<Charged<B>>(request),
        Wrapping::Fenced => show_as::<Fenced<B>>(request),
        Wrapping::ChargedTwice => show_as::<Charged<Charged<B>>>(request),
        Wrapping::ChargedFenced => show_as::<Fenced<Charged<B>>>(request),
        Wrapping::FencedCharged => show_as::<Charged<Fenced<B>>>(request),
        Wrapping::FencedTwice => show_as::<Fenced<Fenced<B>>>(request),
        Wrapping::ChargedSix => show_as::<Thrice<Thrice<B>>>(request),
        Wrapping::ChargedSeven => show_as::<Thrice<Thrice<Charged<B>>>>(request),
        Wrapping::ChargedEight => show_as::<Thrice<Thrice<Charged<Charged<B>>>>>(request),
    }
}

/// Reads one instruction of the set, under these wrappers, from all of the words, and writes what it means.
pub(crate) fn show(set: Set, wrapping: Wrapping, request: &mut Request) -> Result<(), Stop>
    ensures { OnRequest (ShowsUnder (bare_reader set) (wrapping_list wrapping) (left request.old.words) result) request.old request.new }
{
    match set {
        Set::P => show_under::<P>(wrapping, request),
        Set::Q => show_under::<Q>(wrapping, request),
    }
}

//! Reads a trace script from the file that is named, or from standard input, and prints its transcript.
#![tactic(auto)]

use std::io::Read;
use std::{env, fs};
use trace::session::run;

fn read_script(rt: &HostRuntime) -> anyhow::Result<Vec<u8>> {
    if let Some(path) = env::args(rt)?.nth(1) {
        return Ok(fs::read(rt, path.as_str())?);
    }
    let mut bytes = Vec::new(rt.alloc());
    rt.stdin().read_to_end(&mut bytes)?;
    Ok(bytes)
}

fn main(rt: HostRuntime) -> anyhow::Result<()> {
    let script = read_script(&rt)?;
    let mut out = String::new(rt.alloc());
    let mut reasons = String::new(rt.alloc());
    run(rt.alloc(), script.as_slice(), &mut out, &mut reasons)?;
    print!(rt; "{out}")?;
    eprint!(rt; "{reasons}")?;
    Ok(())
}

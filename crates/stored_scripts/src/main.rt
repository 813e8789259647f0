//! Runs each stored script, and compares what it gives with the stored transcript.
#![tactic(auto)]

use std::fs;
use trace::session::run;

fn is_as_stored(rt: &HostRuntime, name: &str) -> anyhow::Result<bool> {
    let heap = rt.alloc();
    let script = fs::read(rt, format!(in heap; "{name}.script")?.as_str())?;
    let transcript = fs::read(rt, format!(in heap; "{name}.out")?.as_str())?;
    let mut out = String::new(heap);
    let mut reasons = String::new(heap);
    run(heap, script.as_slice(), &mut out, &mut reasons)?;
    Ok(out.as_bytes() == transcript.as_slice())
}

fn main(rt: HostRuntime) -> anyhow::Result<()> {
    let names = fs::read_to_string(&rt, "names")?;
    let mut same = 0u32;
    let mut other = 0u32;
    for name in names.lines() {
        if is_as_stored(&rt, name)? {
            same = same.saturating_add(1);
        } else {
            other = other.saturating_add(1);
            println!(rt; "{name}: another transcript")?;
        }
    }
    println!(rt; "{same} transcripts as stored, {other} other")?;
    Ok(())
}

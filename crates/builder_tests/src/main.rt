//! Tests of the builder as a library, with answers written by hand from the rules.
#![tactic(auto)]

use std::io;

mod building;

// Tells of a test before the next one runs.
fn tell(rt: &HostRuntime, name: &str, passed: bool) -> io::Result<()> {
    let verdict = if passed {
        "as expected"
    } else {
        "NOT AS EXPECTED"
    };
    println!(rt; "{name}: {verdict}")
}

fn main(rt: HostRuntime) -> io::Result<()> {
    tell(
        &rt,
        "low-level branch of nine slots",
        building::low_level_branch_of_nine_slots(&rt),
    )?;
    tell(&rt, "tables handed back", building::tables_handed_back(&rt))?;
    tell(
        &rt,
        "registers at their most",
        building::registers_at_their_most(&rt),
    )
}

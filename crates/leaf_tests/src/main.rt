//! Tests of the leaves, with answers written by hand from the rules.
#![tactic(auto)]

use std::io;

mod interface;
mod leaves;

// Tells of a test before the next one runs.
fn tell(rt: &HostRuntime, name: &str, passed: bool) -> io::Result<()> {
    let verdict = if passed {
        "as expected"
    } else {
        "NOT AS EXPECTED"
    };
    println!(rt; "{name}: {verdict}")
}

fn main(rt: HostRuntime) -> io::Result<()> {
    tell(&rt, "parts of types", interface::parts_of_types())?;
    tell(
        &rt,
        "slot 8 under six and seven charges",
        interface::slot_8_under_six_and_seven(),
    )?;
    tell(&rt, "replacing one word", interface::replacing_one_word())?;
    tell(&rt, "words of every kind", leaves::words_of_every_kind())?;
    tell(&rt, "sets of registers", leaves::sets_of_registers())?;
    tell(&rt, "classes of calls", leaves::classes_of_calls())?;
    tell(
        &rt,
        "ends that are refused",
        leaves::ends_that_are_refused(&rt),
    )
}

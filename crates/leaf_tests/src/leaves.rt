use faults::fault::Fault;
use faults::table_id::TableId;
use machinst::control::{CallType, FunctionCalls};
use ranges::ranges::Ranges;
use regs::preg_set::PRegSet;
use regs::reg::{PReg, Reg};

// The number and the place of a refusal.
fn refusal(answer: Result<(), Fault>) -> Option<(usize, usize)> {
    answer.err().map(|fault| (fault.number(), fault.place()))
}

// The classes after each of the three calls.
fn classes_after(calls: FunctionCalls) -> [FunctionCalls; 3] {
    [CallType::None, CallType::Regular, CallType::TailCall].map(|call| {
        let mut after = calls;
        after.update(call);
        after
    })
}

pub(crate) fn words_of_every_kind() -> bool {
    Reg(767).is_real()
        && !Reg(768).is_real()
        && Reg(3).is_real()
        && Reg(3).class().is_none()
        && Reg(0x8000_0000).is_spillslot()
        && Reg(0x8000_0000).index().is_none()
        && Reg(0x7fff_ffff).index() == Some(0x1fff_ffff)
}

pub(crate) fn sets_of_registers() -> bool {
    let mut set = PRegSet::first(2);
    set.add(PReg(64));
    set.add(PReg(191));
    set.add(PReg(192));
    set.contains(PReg(1)) && !set.contains(PReg(2)) && set.bits[1] == 1 && set.contains(PReg(191))
}

pub(crate) fn classes_of_calls() -> bool {
    use FunctionCalls::{None, Regular, TailOnly};
    classes_after(None) == [None, Regular, TailOnly]
        && classes_after(TailOnly) == [TailOnly, Regular, TailOnly]
        && classes_after(Regular) == [Regular, Regular, Regular]
}

fn full_and_falling(ranges: &mut Ranges) -> bool {
    refusal(ranges.push_end(4)).is_none()
        && refusal(ranges.push_end(6)).is_none()
        && refusal(ranges.push_end(5)) == Some((15, 5))
        && refusal(ranges.push_end(6)) == Some((1, 11))
}

fn reversed_and_full(ranges: &mut Ranges) -> bool {
    refusal(ranges.reverse_target(5)) == Some((15, 5))
        && refusal(ranges.reverse_target(6)).is_none()
        && refusal(ranges.push_end(7)) == Some((15, 7))
}

pub(crate) fn ends_that_are_refused(rt: &HostRuntime) -> bool {
    let Ok(mut ranges) = Ranges::alone(rt.alloc(), 2) else {
        return false;
    };
    let Ok(blocks) = Ranges::new(rt.alloc(), TableId::Blocks, 0) else {
        return false;
    };
    full_and_falling(&mut ranges)
        && reversed_and_full(&mut ranges)
        && refusal(blocks.check_end(0)) == Some((1, 2))
}

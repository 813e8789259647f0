use faults::fault::Fault;
use faults::lengths::Lengths;
use machinst::inst::MachInst;
use regs::reg::{Reg, Type};
use set_p::P;
use vcode::builder::VCodeBuilder;
use vcode::function_tables::Tables;
use wrappers::charged::{Charge, Charged};

type Thrice<I> = Charged<Charged<Charged<I>>>;

// The number and the place of a refusal.
fn refusal<X: Drop>(answer: Result<X, Fault>) -> Option<(usize, usize)> {
    answer.err().map(|fault| (fault.number(), fault.place()))
}

fn tables<I: MachInst + Drop>(
    rt: &HostRuntime,
    registers: usize,
    others: usize,
) -> Option<Tables<I>> {
    let lengths = Lengths {
        registers,
        insts: others,
        blocks: others,
        succs: others,
        branch_args: others,
        block_params: others,
        labels: others,
        operands: others,
        preds: others,
        built_labels: others,
    };
    Tables::with_lengths(rt.alloc(), &lengths).ok()
}

fn builder<I: MachInst + Drop>(
    rt: &HostRuntime,
    registers: usize,
    others: usize,
) -> Option<VCodeBuilder<I>> {
    VCodeBuilder::new(tables(rt, registers, others)?).ok()
}

fn charged_thrice<I>(counter: Reg, inner: I) -> Thrice<I> {
    let wrapper = Charge { counter };
    let inner = Charged { wrapper, inner };
    let inner = Charged { wrapper, inner };
    Charged { wrapper, inner }
}

// A low-level branch with nine slots, no known word among them, where table 1 has no room.
pub(crate) fn low_level_branch_of_nine_slots(rt: &HostRuntime) -> bool {
    let Some(mut builder) = builder::<Thrice<Thrice<Thrice<P>>>>(rt, 192, 0) else {
        return false;
    };
    let counter = Reg(3);
    let branch = charged_thrice(
        counter,
        charged_thrice(counter, charged_thrice(counter, P::Skip)),
    );
    let jump = charged_thrice(
        counter,
        charged_thrice(counter, charged_thrice(counter, P::Jump)),
    );
    refusal(builder.push(branch)) == Some((7, 0)) && refusal(builder.push(jump)) == Some((8, 8))
}

// Tables that are refused come back, and are refused again.
pub(crate) fn tables_handed_back(rt: &HostRuntime) -> bool {
    let Some(tables) = tables::<P>(rt, 191, 4) else {
        return false;
    };
    let Err((fault, tables)) = VCodeBuilder::new(tables) else {
        return false;
    };
    let Err((again, _)) = VCodeBuilder::new(tables) else {
        return false;
    };
    (fault.number(), fault.place()) == (1, 0) && (again.number(), again.place()) == (1, 0)
}

// Tables of the widest lengths have their most entries: there are 2,097,151 registers and no more.
pub(crate) fn registers_at_their_most(rt: &HostRuntime) -> bool {
    let Some(mut builder) = builder::<P>(rt, usize::MAX, usize::MAX) else {
        return false;
    };
    (192..2_097_150).all(|_| builder.alloc(Type(1)).is_ok())
        && refusal(builder.alloc(Type(3))) == Some((2, 2_097_150))
        && refusal(builder.alloc(Type(5))).is_none()
        && refusal(builder.alloc(Type(1))) == Some((2, 2_097_151))
        && refusal(builder.set_vreg_alias(Reg(768), Reg(8_388_600))).is_none()
        && refusal(builder.set_vreg_alias(Reg(768), Reg(8_388_604))) == Some((4, 1))
}

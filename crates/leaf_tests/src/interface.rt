use machinst::inst::MachInst;
use regs::reg::{Reg, RegClass, Type, Writable};
use set_p::P;
use set_q::Q;
use wrappers::charged::{Charge, Charged};
use wrappers::fenced::Fenced;

// The number of parts of a type, and the class and the type of the last.
fn parts<I: MachInst>(ty: u16) -> Option<(usize, RegClass, Type)> {
    match I::rc_for_type(Type(ty))? {
        ([rc], [t]) => Some((1, *rc, *t)),
        ([_, rc], [_, t]) => Some((2, *rc, *t)),
        _ => None,
    }
}

fn word<I: MachInst>(inst: &I, k: usize) -> Option<u32> {
    inst.slot(k).map(|slot| slot.reg.0)
}

fn charged<I>(inner: I) -> Charged<I> {
    let wrapper = Charge { counter: Reg(780) };
    Charged { wrapper, inner }
}

pub(crate) fn parts_of_types() -> bool {
    use RegClass::{Float, Int};
    parts::<P>(1) == Some((1, Int, Type(1)))
        && parts::<P>(2) == Some((1, Float, Type(2)))
        && parts::<P>(3) == Some((2, Int, Type(1)))
        && parts::<P>(4).is_none()
        && parts::<P>(5) == Some((1, Int, Type(5)))
        && parts::<Charged<Fenced<P>>>(3) == Some((2, Int, Type(1)))
        && parts::<Q>(1) == Some((2, Int, Type(5)))
        && parts::<Q>(2).is_none()
        && parts::<Q>(5) == Some((1, Int, Type(5)))
}

pub(crate) fn slot_8_under_six_and_seven() -> bool {
    let bare = P::Move {
        s: Reg(768),
        d: Writable { reg: Reg(772) },
    };
    let six = charged(charged(charged(charged(charged(charged(bare))))));
    let seven = charged(six);
    !six.has_slot(8)
        && seven.has_slot(8)
        && word(&seven, 1) == Some(772)
        && word(&seven, 8) == Some(780)
}

pub(crate) fn replacing_one_word() -> bool {
    let mut q = charged(Q {
        opcode: 2,
        words: [Reg(768), Reg(772), Reg(776)],
        number: 0,
    });
    q.set_slot(1, Reg(800));
    q.set_slot(2, Reg(804));
    q.set_slot(3, Reg(808));
    word(&q, 0) == Some(768)
        && word(&q, 1) == Some(800)
        && q.wrapper.counter.0 == 804
        && q.inner.words[2].0 == 776
}

ghost use Rattle.std.specs.Prelude.{◌≡◌, ◌+◌, ◌-◌, ◌*◌, ◌<◌, ◌≤◌, [], ◌∷◌, ◌++◌, map, IfOk, if◌then◌else◌, Some, None, OnErr, nat_le};
ghost use Rattle.faults.specs.TableIds.{capacity_of};
ghost use Rattle.faults.specs.declared.fault.Fault.TheVariants.{Full, RegsExhausted, UnknownReg};
ghost use Rattle.faults.specs.declared.table_id.TableId.TheVariants.{Registers};
ghost use Rattle.regs.specs.Classes.{class_number};
ghost use Rattle.regs.specs.Parts.{value_regs};
ghost use Rattle.regs.specs.Words.{index_of};
ghost use Rattle.std.specs.Option.{option_map};
ghost use Rattle.vregs.specs.Entries.{Filed, Rooted, alias_in, count_of, limit_of, parts_in, vregs_of, with_vregs, word_of};
ghost use Rattle.faults.specs.Outcomes.{Outcome, Refuses, unless};
ghost use Rattle.vregs.specs.Files.{File, RootRule, alias_fault, alloc_fault, allocated, count, known, new_words, parts_of, unallocated_fault, unknown_fault, with_alias, with_regs};
ghost use Rattle.vregs.specs.Insts.{first_unknown};

use faults::fault::Fault;
use faults::table_id::TableId;
use machinst::inst::MachInst;
use regs::reg::{PINNED_VREGS, Reg, RegClass, Type};
use regs::value_regs::ValueRegs;
use std::alloc::{AllocError, Global};
use tables::table::Table;

/// A virtual register: what it is an alias of, the type of what it holds, and its class.
#[derive(Clone, Copy)]
pub struct VReg {
    alias: Option<Reg>,
    ty: Type,
    class: RegClass,
}

/// The register file. The table has no entries for the physical registers.
#[derive(Drop)]
pub struct VRegAllocator {
    vregs: Table<VReg>,
}

impl VRegAllocator {
    /// An empty file in a table of `length` entries, or of the most that there can be where that is fewer. The physical
    /// registers count as entries.
    pub fn with_capacity(heap: Global, length: usize) -> Result<VRegAllocator, AllocError>
        ensures { IfOk result (λ a. (vregs_of a ≡ []) × (limit_of a ≡ capacity_of Registers length)) }
    {
        let vregs = Table::new(heap, TableId::Registers, length)?;
        Ok(VRegAllocator { vregs })
    }

    /// Refuses a table that has no room for the physical registers.
    pub fn check_capacity(&self) -> Result<(), Fault>
        ensures { Refuses (unless (nat_le 192 (limit_of self.now)) (Full Registers)) result }
    {
        if self.vregs.limit() < PINNED_VREGS {
            Err(Fault::Full(TableId::Registers))
        } else {
            Ok(())
        }
    }

    /// Lets all virtual registers go.
    pub fn clear(&mut self)
        ensures { self.new ≡ record { vregs = record self.old.vregs { entries = []; block = self.new.vregs.block } } }
    {
        self.vregs.clear();
    }

    // How many registers there are, the physical ones counted.
    fn count(&self) -> usize
        ensures count { result ≡ count_of self.now }
        ensures few { result ≤ 2097343 }
    {
        PINNED_VREGS + self.vregs.len()
    }

    /// Whether the word names a register, physical or virtual.
    pub fn is_known(&self, reg: Reg) -> bool
        ensures { result ≡ known (count_of self.now) reg.0 }
    {
        reg.class().is_some()
            && reg
                .index()
                .is_some_and(|index| (index as usize) < self.count())
    }

    /// Refuses a word that is not known; it is the one at `place` among those that were passed.
    pub fn check_known(&self, reg: Reg, place: usize) -> Result<(), Fault>
        ensures { Refuses (unknown_fault (count_of self.now) reg.0 place) result }
    {
        if self.is_known(reg) {
            Ok(())
        } else {
            Err(Fault::UnknownReg(place))
        }
    }

    /// Refuses the first word that is not known.
    pub fn check_all_known(&self, regs: &[Reg]) -> Result<(), Fault>
        ensures { Refuses (first_unknown (count_of self.now) 0 (map word_of regs.now)) result }
    {
        for (i, reg) in regs.iter().enumerate() {
            self.check_known(*reg, i)?;
        }
        Ok(())
    }

    // The position in the table of an allocated register.
    fn position(&self, reg: Reg) -> Option<usize>
        ensures { result ≡ (if allocated (parts_in self.now) reg.0 then Some (index_of reg.0 - 192) else None) }
    {
        let index = reg.index()? as usize;
        let class = reg.class()?;
        let i = index.checked_sub(PINNED_VREGS)?;
        let vreg = self.vregs.as_slice().get(i)?;
        (vreg.class.number() == class.number()).then_some(i)
    }

    // The position of a register that has to be allocated; it is the one at `place` among those that were passed.
    fn allocated_at(&self, reg: Reg, place: usize) -> Result<usize, Fault>
        ensures { Outcome (unallocated_fault (parts_in self.now) reg.0 place) result (λ i. i ≡ index_of reg.0 - 192) }
    {
        self.position(reg).ok_or(Fault::UnknownReg(place))
    }

    /// Refuses a word that is not allocated; it is the one at `place` among those that were passed.
    pub fn check_allocated(&self, reg: Reg, place: usize) -> Result<(), Fault>
        ensures { Refuses (unallocated_fault (parts_in self.now) reg.0 place) result }
    {
        self.allocated_at(reg, place)?;
        Ok(())
    }

    // What the word is an alias of.
    fn alias(&self, reg: Reg) -> Option<Reg>
        ensures { option_map word_of result ≡ alias_in (vregs_of self.now) reg.0 }
    {
        let i = self.position(reg)?;
        self.vregs.as_slice()[i].alias
    }

    /// The root of a word: itself where it has no alias, and otherwise the root of its alias.
    pub fn resolve_vreg_alias(&self, reg: Reg) -> Reg
        ensures root { Rooted self.now reg.0 result.0 }
        ensures rule { (f : File) → Filed self.now f → RootRule f }
    {
        let mut at = reg;
        // That no alias leads back is not in the type, so the walk is bounded by how many registers there are.
        for _ in 0..self.vregs.len() {
            match self.alias(at) {
                None => return at,
                Some(next) => at = next,
            }
        }
        at
    }

    // Adds a virtual register, for which there has to be room.
    fn add(&mut self, class: RegClass, ty: Type) -> Reg
        requires { count_of self.old + 1 ≤ limit_of self.old }
        ensures vregs { self.new ≡ with_vregs self.old (vregs_of self.old ++ record { alias = None; ty = ty; class = class } ∷ []) }
        ensures word { result.0 ≡ 4 * count_of self.old + class_number class }
    {
        let index = self.count() as u32;
        let word = 4 * index + class.number();
        self.vregs.append(VReg {
            alias: None,
            ty,
            class,
        });
        Reg(word)
    }

    // Refuses where there is no room for so many more registers. Unlike a table's own check it counts the physical registers,
    // and gives their count as the place.
    fn check_room_for(&self, more: usize) -> Result<(), Fault>
        ensures { Refuses (unless (nat_le (count_of self.now + more) (limit_of self.now)) (RegsExhausted (count_of self.now))) result }
    {
        let count = self.count();
        if count.saturating_add(more) > self.vregs.limit() {
            Err(Fault::RegsExhausted(count))
        } else {
            Ok(())
        }
    }

    /// Allocates the one or two registers that a value of this type needs.
    pub fn alloc<I: MachInst>(&mut self, ty: Type) -> Result<ValueRegs<Reg>, Fault>
        ensures answer { (f : File) → Filed self.old f → Outcome (alloc_fault I.parts (limit_of self.old) f ty.0) result (λ v. (map word_of (value_regs v) ≡ new_words (count f.regs) (parts_of (I.parts ty.0))) × Filed self.new (with_regs f (parts_of (I.parts ty.0)))) }
        ensures unchanged { OnErr result (self.new ≡ self.old) }
        ensures limit { limit_of self.new ≡ limit_of self.old }
    {
        let Some((classes, types)) = I::rc_for_type(ty) else {
            return Err(Fault::UnsupportedType(ty.0));
        };
        self.check_room_for(classes.len())?;
        match classes {
            [rc0] => Ok(ValueRegs::one(self.add(*rc0, types[0]))),
            [rc0, rc1] => {
                let first = self.add(*rc0, types[0]);
                let second = self.add(*rc1, types[1]);
                Ok(ValueRegs::two(first, second))
            }
            _ => unreachable!(),
        }
    }

    /// Makes `from` an alias of the root of `to`.
    pub fn set_vreg_alias(&mut self, from: Reg, to: Reg) -> Result<(), Fault>
        ensures answer { (f : File) → Filed self.old f → Outcome (alias_fault f from.0 to.0) result (λ _. Filed self.new (with_alias f from.0 to.0)) }
        ensures unchanged { OnErr result (self.new ≡ self.old) }
        ensures limit { limit_of self.new ≡ limit_of self.old }
    {
        let i = self.allocated_at(from, 0)?;
        self.check_allocated(to, 1)?;
        let root = self.resolve_vreg_alias(to);
        if root == from {
            return Err(Fault::AliasCycle(PINNED_VREGS + i));
        }
        if self.vregs.as_slice()[i].alias.is_some() {
            return Err(Fault::AlreadyAliased(PINNED_VREGS + i));
        }
        self.vregs.as_mut_slice()[i].alias = Some(root);
        Ok(())
    }
}

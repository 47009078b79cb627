//! A machine as C has it: one pointer. specs/Held says what it owns.

ghost use Rattle.std.specs.Prelude.{◌≡◌, [], ◌∷◌, List, MatchOption};
ghost use Rattle.mv_oracle.specs.declared.oracle.Oracle.{Oracle as Held};

use crate::oracle::Oracle;
use std::alloc::Global;
use std::marker::Model;
use std::mem;
use std::ptr::null_mut;

/// One machine, or none. C sees a struct of one pointer, which is null if there is none, and gives it to one call at a time.
#[repr(C)]
pub struct MachineHandle {
    at: *mut u8,
    pub ghost held: { List Held },
}

impl Model for MachineHandle {
    ghost use Rattle.mv_oracle.specs.Held.{held_at};

    ghost also_owns = { λ h. held_at h.at h.held };
}

impl MachineHandle {
    // The handle of no machine.
    fn empty() -> MachineHandle
        ensures { result.held ≡ [] }
    {
        MachineHandle { at: null_mut() }
    }

    // The handle of a machine that is on the heap.
    fn of(machine: Box<Oracle>) -> MachineHandle
        ensures { result.held ≡ machine.value ∷ [] }
    {
        let at = Box::into_raw(machine);
        MachineHandle { at: at as *mut u8 }
    }

    // The machine of the handle, if it holds one.
    fn into_box(self, alloc: Global) -> Option<Box<Oracle>>
        ensures { MatchOption result (self.held ≡ []) (λ b. self.held ≡ b.value ∷ []) }
    {
        let MachineHandle { at } = self;
        if at.is_null() {
            return None;
        }
        let machine = unsafe { Box::from_raw(alloc, at as *mut Oracle) };
        Some(machine)
    }

    // Puts another handle in place of this one, and returns this one.
    fn swap(&mut self, other: MachineHandle) -> MachineHandle
        ensures now { self.new ≡ other }
        ensures before { result ≡ self.old }
    {
        mem::replace(self, other)
    }

    /// Takes the machine out, if there is one.
    pub(crate) fn take(&mut self, alloc: Global) -> Option<Box<Oracle>>
        ensures taken { MatchOption result (self.old.held ≡ []) (λ b. self.old.held ≡ b.value ∷ []) }
        ensures empty { self.new.held ≡ [] }
    {
        self.swap(MachineHandle::empty()).into_box(alloc)
    }

    /// Puts a machine in, and frees the one that was there.
    pub(crate) fn put(&mut self, alloc: Global, machine: Box<Oracle>)
        ensures { self.new.held ≡ machine.value ∷ [] }
    {
        let other = self.swap(MachineHandle::of(machine));
        drop(other.into_box(alloc));
    }
}

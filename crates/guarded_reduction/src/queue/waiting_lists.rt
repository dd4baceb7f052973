// Which corners wait on which places.
ghost use Rattle.std.specs.Prelude.{◌≡◌, ◌-◌, ◌<◌, ◌≤◌, [], IfOk, OnOk, length, slice_index};
ghost use Rattle.guarded_reduction.specs.Waiting.{KeepsWaits, WaitsOn, wait_at};

use owned_values::Memory;
use std::alloc::Global;
use std::marker::Model;

/// A corner that waits on a place, and the number of the next wait on it, counted from one: zero where there is none.
#[derive(Clone, Copy, Debug, PartialEq, Eq)]
pub struct Wait {
    pub corner: usize,
    pub next: usize,
}

/// The corners that wait on each place: the number of the last wait on it, which leads to the ones before.
#[derive(Drop)]
pub struct WaitingLists {
    firsts: Vec<usize>,
    waits: Vec<Wait>,
}

impl Model for WaitingLists {
    ghost use Rattle.guarded_reduction.specs.Waiting.{IsFalling, Waiting};

    ghost Value = { Waiting };

    ghost view = { λ w. record { firsts = w.firsts.items; waits = w.waits.items } };

    ghost invariant = { λ w. IsFalling (record { firsts = w.firsts.items; waits = w.waits.items }) };
}

impl WaitingLists {
    /// For so many places, on which nothing waits.
    pub fn none(alloc: Global, n: usize) -> Result<WaitingLists, Memory>
        ensures { IfOk result (λ w. length w.firsts ≡ n) }
    {
        let firsts = vec![in alloc; 0usize; n]?;
        Ok(WaitingLists {
            firsts,
            waits: Vec::new(alloc),
        })
    }

    /// How many waits there are, with those on places that are gone.
    pub fn len(&self) -> usize
        ensures { result ≡ length self.now.waits }
    {
        self.waits.len()
    }

    /// Nothing waits on these places any more. The memory is kept.
    #[tactic(auto, using(crate::proofs::Waits::none_falls))]
    pub fn clear(&mut self)
        ensures same { length self.new.firsts ≡ length self.old.firsts }
        ensures none { self.new.waits ≡ [] }
    {
        self.firsts.fill(0);
        self.waits.clear();
    }

    /// A corner waits on a place.
    #[tactic(auto, using(crate::proofs::Waits::added_falls, crate::proofs::Waits::added_keeps, crate::proofs::Waits::added_waits, crate::proofs::Waits::waiting_of))]
    pub fn add(&mut self, holder: usize, corner: usize) -> Result<(), Memory>
        requires { holder < length self.old.firsts }
        ensures kept { OnOk result (KeepsWaits self.old self.new) }
        ensures waits { OnOk result (WaitsOn self.new holder corner) }
    {
        let next = self.firsts[holder];
        self.waits.push(Wait { corner, next })?;
        self.firsts[holder] = self.waits.len();
        Ok(())
    }

    /// The number of the first wait on a place, or zero.
    pub fn first(&self, holder: usize) -> usize
        requires { holder < length self.now.firsts }
        ensures value { result ≡ slice_index self.now.firsts holder }
        ensures within { result ≤ length self.now.waits }
    {
        self.firsts[holder]
    }

    /// The wait of a number.
    #[tactic(auto, using(crate::proofs::Waits::wait_is))]
    pub fn wait(&self, number: usize) -> Wait
        requires some { 0 < number }
        requires within { number ≤ length self.now.waits }
        ensures value { result ≡ wait_at self.now.waits (number - 1) }
        ensures falls { result.next < number }
    {
        self.waits[number - 1]
    }
}

//! The places that wait for none, and the counts of what was done to find them.
ghost use Rattle.std.specs.Prelude.{◌≡◌, ◌≢◌, ℕ, ◌+◌, ◌-◌, ◌<◌, ◌≤◌, ◌^◌, length, OnOk, IfSome, IfNone, cond, nat_eq, nat_lt, slice_index, slice_set, sum};
ghost use Rattle.wit_order.specs.Heap.{times, zeros};

use std::alloc::{AllocError, Global};
use std::collections::BTreeSet;

/// What it took to order a table.
#[derive(Clone, Copy, Debug, PartialEq, Eq)]
pub struct Steps {
    entered: usize,
    closed: usize,
}

impl Steps {
    /// How many names were put among those that wait for none.
    pub fn entered(&self) -> usize
        ensures { result ≡ self.now.entered }
    {
        self.entered
    }

    /// How many needed names were counted down, repeats too.
    pub fn closed(&self) -> usize
        ensures { result ≡ self.now.closed }
    {
        self.closed
    }
}

/// How many of the counts are 0.
fn free_count(counts: &[usize]) -> usize
    ensures { result ≡ zeros counts.now }
{
    let mut free: usize = 0;
    for count in counts {
        if *count == 0 {
            free += 1;
        }
    }
    free
}

/// The first place from this one on whose count is 0.
fn first_free(counts: &[usize], from: usize) -> Option<usize>
    ensures some { IfSome result (λ p. (from ≤ p) × (p < length counts.now) × (slice_index counts.now p ≡ 0)) }
    ensures earlier { IfSome result (λ p. (q : ℕ) → from ≤ q → q < p → slice_index counts.now q ≢ 0) }
    ensures none { IfNone result ((q : ℕ) → from ≤ q → q < length counts.now → slice_index counts.now q ≢ 0) }
{
    for place in from..counts.len() {
        if counts[place] == 0 {
            return Some(place);
        }
    }
    None
}

/// The places that wait for none, and how many edges each other place still waits for.
///
/// Places are taken in their order, so that only those that are after the last of these, and
/// came to wait for none afterwards, have to be kept in a set.
#[derive(Drop)]
pub struct Ready {
    /// Of the places before `next`, those that wait for none and were not taken.
    passed: BTreeSet<usize>,
    /// None from here on was taken.
    next: usize,
    counts: Vec<usize>,
    steps: Steps,
    ghost below: { (q : ℕ) → 0 < times q passed.keys → q < next },
}

impl Ready {
    ghost use Rattle.wit_order.specs.Released.{times_in};

    /// Those of the places that have no edges, by how many each has.
    pub fn new(alloc: Global, counts: Vec<usize>) -> Ready
        ensures counts { result.counts ≡ counts }
        ensures free { (q : ℕ) → times_in q result ≡ cond (nat_lt q (length result.counts.items)) (cond (nat_eq (slice_index result.counts.items q) 0) 1 0) 0 }
        ensures entered { result.steps.entered ≡ zeros result.counts.items }
        ensures closed { result.steps.closed ≡ 0 }
    {
        let entered = free_count(&counts);
        Ready {
            passed: BTreeSet::new(alloc),
            next: 0,
            counts,
            steps: Steps { entered, closed: 0 },
        }
    }

    /// Takes the first place out that was not passed.
    fn take_next(&mut self) -> Option<usize>
        requires { (q : ℕ) → times q self.old.passed.keys ≡ 0 }
        ensures counts { self.new.counts ≡ self.old.counts }
        ensures steps { self.new.steps ≡ self.old.steps }
        ensures some { IfSome result (λ p. (q : ℕ) → times_in q self.old ≡ cond (nat_eq p q) 1 0 + times_in q self.new) }
        ensures least { IfSome result (λ p. (q : ℕ) → 0 < times_in q self.old → p ≤ q) }
        ensures none { IfNone result ((q : ℕ) → times_in q self.old ≡ 0) }
    {
        match first_free(&self.counts, self.next) {
            Some(place) => {
                self.next = place + 1;
                Some(place)
            }
            None => None,
        }
    }

    /// Takes the least of them out.
    pub fn take(&mut self) -> Option<usize>
        ensures counts { self.new.counts ≡ self.old.counts }
        ensures steps { self.new.steps ≡ self.old.steps }
        ensures some { IfSome result (λ p. (q : ℕ) → times_in q self.old ≡ cond (nat_eq p q) 1 0 + times_in q self.new) }
        ensures least { IfSome result (λ p. (q : ℕ) → 0 < times_in q self.old → p ≤ q) }
        ensures none { IfNone result ((q : ℕ) → times_in q self.old ≡ 0) }
    {
        match self.passed.pop_first() {
            Some(place) => Some(place),
            None => self.take_next(),
        }
    }

    /// Counts down an edge of a place, which comes in where that was its last.
    pub fn close(&mut self, user: usize) -> Result<(), AllocError>
        requires within { user < length self.old.counts.items }
        requires some { 1 ≤ slice_index self.old.counts.items user }
        requires fresh { times_in user self.old ≡ 0 }
        requires entered { self.old.steps.entered ≡ zeros self.old.counts.items }
        requires room { self.old.steps.closed + sum self.old.counts.items < 2 ^ 64 }
        ensures counts { OnOk result (self.new.counts.items ≡ slice_set self.old.counts.items user (slice_index self.old.counts.items user - 1)) }
        ensures places { OnOk result ((q : ℕ) → times_in q self.new ≡ times_in q self.old + cond (nat_eq (slice_index self.old.counts.items user) 1) (cond (nat_eq user q) 1 0) 0) }
        ensures entered { OnOk result (self.new.steps.entered ≡ zeros self.new.counts.items) }
        ensures closed { OnOk result (self.new.steps.closed + sum self.new.counts.items ≡ self.old.steps.closed + sum self.old.counts.items) }
    {
        self.counts[user] -= 1;
        self.steps.closed += 1;
        if self.counts[user] == 0 {
            self.steps.entered += 1;
            if user < self.next {
                self.passed.insert(user)?;
            }
        }
        Ok(())
    }

    /// The counts so far.
    pub fn steps(&self) -> Steps
        ensures { result ≡ self.now.steps }
    {
        self.steps
    }
}

//! The sweep: what no hold and no object that stays leads to goes.
ghost use Rattle.std.specs.Prelude.{◌≡◌, ◌<◌, ◌≤◌, ◌+◌, ◌++◌, ℕ, Bool, List, []};
ghost use Rattle.std.specs.Prelude.{length, map, nat_eq, IsSomeAnd, IsTrue, OnOk};
ghost use Rattle.std.specs.Prelude.{OnErr, false, vec_len, vec_capacity};
ghost use Rattle.std.specs.Map.{remove_entry};
ghost use Rattle.ash_host.specs.Objects.{object_at, IsInOrder};
ghost use Rattle.ash_slots.specs.Bodies.{words_of};
ghost use Rattle.ash_slots.specs.Store.{IsIn, IsIdle, AreStored, NoneWaits};
ghost use Rattle.ash_objects.specs.Counting.{fields_in, living_in, release_all, AreCounted};
ghost use Rattle.ash_slots.specs.SlotCounting.{counted};
ghost use Rattle.ash_objects.specs.Collecting.{HaveGone, AreInOrder, entry_mark};
ghost use Rattle.ash_objects.specs.Collecting.{marked_since, marked_drops};
ghost use Rattle.ash_objects.specs.Sweeping.{Collects, RanksFall, LeavesReachable};
ghost use Rattle.ash_objects.specs.Sweeping.{gone_from, drops};
ghost use Rattle.ash_objects.specs.Marking.{without_gone};

use crate::counting::release_words;
use crate::objects::Objects;
use ash_host::{Event, HostObject, NoMemory};
use ash_slots::{Entry, Store};
use std::mem;

// Takes an object that is counted nowhere out of its slot, and the handles among its words out of the counts.
fn take_idle<B>(store: &mut Store<B>, slot: usize) -> Entry<B>
    requires idle { IsIdle slot store.old.objects }
    requires stored { AreStored store.old.objects }
    requires covered { (number : ℕ) → fields_in number store.old.objects
        ≤ counted number store.old.objects }
    ensures number { IsIn result.number slot store.old.objects }
    ensures item { IsSomeAnd (object_at result.number store.old.objects)
        (λ object. object.item ≡ result.item) }
    ensures objects { store.new.objects ≡ release_all (words_of (result.item).body)
        (remove_entry (nat_eq result.number) store.old.objects) }
    ensures stays_in_order { IsInOrder (remove_entry (nat_eq result.number) store.old.objects) }
    ensures room { store.new.room ≡ store.old.room }
{
    let entry = store.remove(slot);
    release_words(store, entry.item.body.words());
    entry
}

// Takes what is counted off the list of those that wait, up to the first that nothing counts. Whether there is one.
fn find_idle<B>(store: &mut Store<B>) -> bool
    requires in_order { IsInOrder store.old.objects }
    requires counted { AreCounted store.old.objects }
    ensures same { living_in store.new.objects ≡ living_in store.old.objects }
    ensures stay { HaveGone store.old.objects store.new.objects [] }
    ensures none { result ≡ false → NoneWaits store.new.objects }
{
    while let Some(slot) = store.next_waiting() {
        if store.is_idle(slot) {
            store.queue_for_sweep(slot);
            return true;
        }
    }
    false
}

// Takes out what nothing counts, until all that is left is counted.
fn collect<B>(store: &mut Store<B>, taken: &mut Vec<Entry<B>>)
    requires in_order { IsInOrder store.old.objects }
    requires counted { AreCounted store.old.objects }
    requires empty { taken.old.items ≡ [] }
    requires room { length store.old.objects ≤ vec_capacity taken.old }
    ensures gone { HaveGone store.old.objects store.new.objects taken.new.items }
    ensures done { NoneWaits store.new.objects }
{
    while let Some(slot) = store.next_waiting() {
        if store.is_idle(slot) {
            taken.push_reserved(take_idle(store, slot));
        }
    }
}

// Sorts what was taken out by ascending number.
fn sort_taken<B>(taken: &mut Vec<Entry<B>>)
    ensures len { vec_len taken.new ≡ vec_len taken.old }
    ensures order { (went : List (ℕ × Bool)) → AreInOrder taken.old.items went
        → map entry_mark taken.new.items ≡ went }
{
    taken.sort_unstable_by_key(|entry| entry.number);
}

// Appends the numbers of those that had been given when the marks were cleared, and an event for each host object.
fn push_dropped<B>(taken: &[Entry<B>], settled: u64, gone: &mut Vec<u64>, events: &mut Vec<Event>)
    requires numbers_fit { vec_len gone.old + length taken.now ≤ vec_capacity gone.old }
    requires events_fit { vec_len events.old + length taken.now ≤ vec_capacity events.old }
    ensures gone { gone.new.items ≡ gone.old.items ++ marked_since settled
        (map entry_mark taken.now) }
    ensures events { events.new.items ≡ events.old.items
        ++ marked_drops (map entry_mark taken.now) }
{
    for entry in taken {
        if entry.number <= settled {
            gone.push_reserved(entry.number);
        }
        if entry.item.body.is_host() {
            events.push_reserved(Event::Dropped(entry.number));
        }
    }
}

impl<B: HostObject> Objects<B> {
    /// Takes away what no hold and no object that stays leads to: gives its boxes up, and appends `Dropped` for each,
    /// by ascending number. It looks at what was made and at what lost its last count since the last sweep, and at what
    /// goes; at nothing else of the table. Where there is none of these it costs one test. Where nothing goes it takes no
    /// memory.
    ///
    /// Before it takes anything away it has room made for as many events, numbers that went and entries as objects
    /// live. The room for entries it gives up at its end; the other two lists keep theirs. Where memory is refused
    /// nothing is taken away.
    #[inline(always)]
    pub fn sweep(&mut self, events: &mut Vec<Event>) -> Result<(), NoMemory>
        ensures collected { OnOk result (Collects self.old self.new) }
        ensures dropped { OnOk result (events.new.items ≡ events.old.items
            ++ drops (gone_from self.old.objects self.new.objects)) }
        ensures reachable { OnOk result ((rank : ℕ → ℕ) (top : ℕ) → RanksFall rank top self.old
            → LeavesReachable self.old self.new) }
        ensures unchanged { OnErr result (self.new ≡ self.old) }
        ensures no_event { OnErr result (events.new.items ≡ events.old.items) }
    {
        if self.store.none_waits() {
            return Ok(());
        }
        self.sweep_waiting(events)
    }

    /// Whether a sweep has nothing to do: no object was made or lost its last count since the last one. It costs one
    /// test.
    #[inline(always)]
    pub fn is_swept(&self) -> bool
        ensures collected { IsTrue result → Collects self.now self.now }
        ensures dropped { IsTrue result → drops (gone_from self.now.objects self.now.objects) ≡ [] }
        ensures reachable { IsTrue result → (rank : ℕ → ℕ) (top : ℕ) → RanksFall rank top self.now
            → LeavesReachable self.now self.now }
    {
        self.store.none_waits()
    }

    /// The numbers of the objects that went since the last such call, or since the marks were cleared, except those
    /// that were made and taken away since. The marks stay. It takes no memory.
    pub fn take_gone(&mut self) -> Vec<u64>
        ensures gone { result.items ≡ self.old.gone }
        ensures taken { self.new ≡ without_gone self.old }
    {
        let alloc = *self.gone.allocator();
        self.settled = self.last;
        mem::replace(&mut self.gone, Vec::new(alloc))
    }

    // The sweep, where objects may wait for it. What was made since the last one and is counted costs a look.
    #[inline(never)]
    fn sweep_waiting(&mut self, events: &mut Vec<Event>) -> Result<(), NoMemory>
        ensures collected { OnOk result (Collects self.old self.new) }
        ensures dropped { OnOk result (events.new.items ≡ events.old.items
            ++ drops (gone_from self.old.objects self.new.objects)) }
        ensures reachable { OnOk result ((rank : ℕ → ℕ) (top : ℕ) → RanksFall rank top self.old
            → LeavesReachable self.old self.new) }
        ensures unchanged { OnErr result (self.new ≡ self.old) }
        ensures no_event { OnErr result (events.new.items ≡ events.old.items) }
    {
        if self.has_idle() {
            return self.sweep_idle(events);
        }
        Ok(())
    }

    // Whether an object waits for the sweep that nothing counts. Those that are counted wait no longer.
    fn has_idle(&mut self) -> bool
        ensures same { self.new ≡ self.old }
        ensures collected { result ≡ false → Collects self.new self.new }
        ensures dropped { result ≡ false → drops (gone_from self.new.objects self.new.objects) ≡ [] }
        ensures reachable { result ≡ false → (rank : ℕ → ℕ) (top : ℕ) → RanksFall rank top self.new
            → LeavesReachable self.new self.new }
    {
        find_idle(&mut self.store)
    }

    // The sweep, where something may go.
    fn sweep_idle(&mut self, events: &mut Vec<Event>) -> Result<(), NoMemory>
        ensures collected { OnOk result (Collects self.old self.new) }
        ensures dropped { OnOk result (events.new.items ≡ events.old.items
            ++ drops (gone_from self.old.objects self.new.objects)) }
        ensures reachable { OnOk result ((rank : ℕ → ℕ) (top : ℕ) → RanksFall rank top self.old
            → LeavesReachable self.old self.new) }
        ensures unchanged { OnErr result (self.new ≡ self.old) }
        ensures no_event { OnErr result (events.new.items ≡ events.old.items) }
    {
        let living = self.store.len();
        let mut taken = Vec::new(*self.gone.allocator());
        if taken.reserve(living).is_err()
            || self.gone.reserve(living).is_err()
            || events.reserve(living).is_err()
        {
            return Err(NoMemory);
        }
        collect(&mut self.store, &mut taken);
        sort_taken(&mut taken);
        push_dropped(&taken, self.settled, &mut self.gone, events);
        Ok(())
    }
}

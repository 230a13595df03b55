//! Which objects can be reached from the globals.
//!
//! Each object is marked once, and then it waits until its handles are followed. So each handle is looked up once, by a
//! binary search among the numbers, whatever the objects refer to.

ghost use Rattle.std.specs.Prelude.{◌≡◌, ◌↔◌, ◌∷◌, [], ◌<◌, ℕ, Bool, false, length, replicate};
ghost use Rattle.std.specs.Prelude.{IfOk, OnOk, IsTrue};
ghost use Rattle.std.specs.List.{list_all};
ghost use Rattle.ash_host.specs.Objects.{numbers, handle, handles};
ghost use Rattle.ash_image.specs.Image.{do_rise};
ghost use Rattle.ash_image.specs.Rules.{held_by, AreReached};
ghost use Rattle.ash_image.specs.Search.{Visited, Searches, progress_of, with_marked};
ghost use Rattle.ash_image.specs.SnapshotViews.{objects_of, modules_of, snapshot_of};

use crate::stored::{StoredModule, StoredState, words_of};
use ash_host::Word;
use std::alloc::{AllocError, Global};

/// Which objects are marked, by their index, and the indices of those that wait.
#[derive(Drop)]
struct Search {
    marked: Vec<bool>,
    pending: Vec<usize>,
}

/// Marks the object at an index, if it is not marked.
fn mark(index: usize, search: &mut Search) -> Result<(), AllocError>
    requires within { index < length search.old.marked.items }
    ensures value { OnOk result (progress_of search.new
        ≡ with_marked index (progress_of search.old)) }
{
    if search.marked[index] {
        return Ok(());
    }
    search.marked[index] = true;
    search.pending.push(index)?;
    Ok(())
}

/// Marks the object of a number, if it lives and is not marked.
fn look_for(number: u64, alive: &[u64], search: &mut Search) -> Result<(), AllocError>
    requires rise { IsTrue (do_rise alive.now) }
    requires size { length search.old.marked.items ≡ length alive.now }
    ensures visited { OnOk result (Visited alive.now (number ∷ [])
        (progress_of search.old) (progress_of search.new)) }
{
    match alive.binary_search(&number) {
        Ok(index) => mark(index, search),
        Err(_) => Ok(()),
    }
}

/// The number of the object that a word is a handle to.
fn handle_of(word: Word) -> Option<u64>
    ensures value { result ≡ handle word }
{
    match word {
        Word::Object(number) => Some(number),
        _ => None,
    }
}

fn visit_word(word: Word, alive: &[u64], search: &mut Search) -> Result<(), AllocError>
    requires rise { IsTrue (do_rise alive.now) }
    requires size { length search.old.marked.items ≡ length alive.now }
    ensures visited { OnOk result (Visited alive.now (handles (word ∷ []))
        (progress_of search.old) (progress_of search.new)) }
{
    match handle_of(word) {
        Some(number) => look_for(number, alive, search),
        None => Ok(()),
    }
}

/// Marks what words are handles to.
fn visit(words: &[Word], alive: &[u64], search: &mut Search) -> Result<(), AllocError>
    requires rise { IsTrue (do_rise alive.now) }
    requires size { length search.old.marked.items ≡ length alive.now }
    ensures visited { OnOk result (Visited alive.now (handles words.now)
        (progress_of search.old) (progress_of search.new)) }
{
    for word in words {
        visit_word(*word, alive, search)?;
    }
    Ok(())
}

/// Marks what globals are handles to.
fn visit_globals(
    modules: &[StoredModule],
    alive: &[u64],
    search: &mut Search,
) -> Result<(), AllocError>
    requires rise { IsTrue (do_rise alive.now) }
    requires size { length search.old.marked.items ≡ length alive.now }
    ensures visited { OnOk result (Visited alive.now (held_by (modules_of modules.now))
        (progress_of search.old) (progress_of search.new)) }
{
    for module in modules {
        visit(&module.globals, alive, search)?;
    }
    Ok(())
}

/// Follows the handles of what waits, until nothing does.
fn follow(state: &StoredState, alive: &[u64], search: &mut Search) -> Result<(), AllocError>
    requires rise { IsTrue (do_rise alive.now) }
    requires alive { alive.now ≡ numbers (objects_of state.now.objects.items) }
    requires searches { Searches (held_by (modules_of state.now.modules.items))
        (objects_of state.now.objects.items) (progress_of search.old) }
    ensures searches { OnOk result (Searches (held_by (modules_of state.now.modules.items))
        (objects_of state.now.objects.items) (progress_of search.new)) }
    ensures done { OnOk result (search.new.pending.items ≡ []) }
{
    while let Some(index) = search.pending.pop() {
        visit(words_of(&state.objects[index].body), alive, search)?;
    }
    Ok(())
}

/// So many that are not marked.
fn unmarked(alloc: Global, count: usize) -> Result<Vec<bool>, AllocError>
    ensures value { IfOk result (λ marked. marked.items ≡ replicate count false) }
{
    let mut marked = Vec::with_capacity(alloc, count)?;
    for _ in 0..count {
        marked.push(false)?;
    }
    Ok(marked)
}

fn all_marked(marked: &[bool]) -> bool
    ensures value { result ≡ list_all (λ b. b) marked.now }
{
    for is_marked in marked {
        if !*is_marked {
            return false;
        }
    }
    true
}

/// Whether every object can be reached from the globals, given the numbers of the objects.
pub fn are_reached(alloc: Global, state: &StoredState, alive: &[u64]) -> Result<bool, AllocError>
    requires rise { IsTrue (do_rise alive.now) }
    requires alive { alive.now ≡ numbers (objects_of state.now.objects.items) }
    ensures exact { IfOk result (λ reached. IsTrue reached ↔ AreReached (snapshot_of state.now)) }
{
    let marked = unmarked(alloc, state.objects.len())?;
    let mut search = Search {
        marked,
        pending: Vec::new(alloc),
    };
    visit_globals(&state.modules, alive, &mut search)?;
    follow(state, alive, &mut search)?;
    Ok(all_marked(&search.marked))
}

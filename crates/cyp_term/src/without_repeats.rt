//! Lists without repeats.

ghost use Rattle.std.specs.Prelude.{[], ◌≡◌, ◌≤◌, ◌++◌, ◌∷◌, ◌↔◌, IfOk, OnOk, length, true};
ghost use Rattle.std.specs.List.{items_where_true, list_any};
ghost use Rattle.cyp_term.specs.Once.{IsOnce, are_new};

use crate::copied::Exact;
use crate::fail::NoMemory;
use crate::list::List;
use std::alloc::Global;
use std::collections::HashSet;
use std::hash::Hash;

/// So many items are compared with each other, more are hashed.
const FEW: usize = 8;

fn is_among<T: Exact>(item: &T, items: &[T]) -> bool
    ensures { result ≡ list_any (T.eq item.now) items.now }
{
    items.iter().any(|other| *item == *other)
}

/// Whether the items are few, eight at most, and no two are the same.
pub fn few_differ<T: Exact>(items: &[T]) -> bool
    ensures { result ≡ true ↔ (length items.now ≤ 8) × IsOnce items.now items.now }
{
    if items.len() > FEW {
        return false;
    }
    for k in 0..items.len() {
        if is_among(&items[k], &items[..k]) {
            return false;
        }
    }
    true
}

/// For each item whether none before it is the same.
fn are_new<T: Exact + Hash>(alloc: Global, items: &[T]) -> Result<Vec<bool>, NoMemory>
    ensures { IfOk result (λ news. news.items ≡ are_new T.eq [] items.now) }
{
    let mut seen = HashSet::with_capacity(alloc, items.len())?;
    let mut news = Vec::with_capacity(alloc, items.len())?;
    for item in items {
        news.push(seen.insert(item)?)?;
    }
    Ok(news)
}

/// Adds the item at the end where the answer is true.
fn add_where<T: Drop>(chosen: &mut Vec<T>, item: T, answer: bool) -> Result<(), NoMemory>
    ensures { OnOk result (chosen.new.items ≡ chosen.old.items ++ items_where_true (answer ∷ []) (item ∷ [])) }
{
    if answer {
        chosen.push(item)?;
    }
    Ok(())
}

/// The items at which the answer is true.
fn chosen<T: Drop>(alloc: Global, items: Vec<T>, answers: &[bool]) -> Result<List<T>, NoMemory>
    requires { length items.items ≤ length answers.now }
    ensures { IfOk result (λ xs. xs ≡ items_where_true answers.now items.items) }
{
    let mut chosen = Vec::with_capacity(alloc, items.len())?;
    let mut place = 0;
    for item in items {
        add_where(&mut chosen, item, answers[place])?;
        place += 1;
    }
    Ok(List::from_vec(chosen))
}

/// Each item once, where it stands first. The steps are linear in the items.
pub fn each_once<T: Exact + Hash + Drop>(alloc: Global, items: List<T>) -> Result<List<T>, NoMemory>
    ensures { IfOk result (λ xs. IsOnce items xs) }
{
    if few_differ(items.as_slice()) {
        return Ok(items);
    }
    let news = are_new(alloc, items.as_slice())?;
    chosen(alloc, items.into_vec(), news.as_slice())
}

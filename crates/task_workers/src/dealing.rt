//! Tasks in lists, one for each worker.
ghost use Rattle.std.specs.Prelude.{◌≡◌, ℕ, ◌+◌, ◌<◌, ◌≤◌, [], All, IfOk, IfSome, None, Some, replicate, reverse, vec_capacity, vec_len};
ghost use Rattle.task_workers.specs.Dealing.{HasRoom, dealt, dealt_one, gathered, gathered_one, lists_of};

use std::alloc::{AllocError, Global};

/// Empty lists for so many workers, each with room for so many tasks. It takes memory for them.
pub fn empty_lists<T: Drop>(
    alloc: Global,
    workers: usize,
    tasks: usize,
) -> Result<Vec<Vec<T>>, AllocError>
    ensures empty { IfOk result (λ loads. lists_of loads.items ≡ replicate workers []) }
    ensures count { IfOk result (λ loads. vec_len loads ≡ workers) }
    ensures room { IfOk result (λ loads. All (HasRoom 0 tasks) loads.items) }
{
    let mut loads = Vec::with_capacity(alloc, workers)?;
    for _ in 0..workers {
        loads.push_reserved(Vec::with_capacity(alloc, tasks)?);
    }
    Ok(loads)
}

// The first list takes a task, and then stands last.
fn deal_one<T>(loads: &mut Vec<Vec<T>>, task: T)
    requires some { 0 < vec_len loads.old }
    requires room { (count all : ℕ) × (count < all) × All (HasRoom count all) loads.old.items }
    ensures lists { lists_of loads.new.items ≡ dealt_one task (lists_of loads.old.items) }
    ensures room { (count all : ℕ) → All (HasRoom count all) loads.old.items → All (HasRoom (count + 1) all) loads.new.items }
    ensures count { vec_len loads.new ≡ vec_len loads.old }
{
    let mut load = loads.remove(0);
    load.push_reserved(task);
    loads.push_reserved(load);
}

/// Deals tasks, one after another: each time the first list takes one, and then stands last.
pub fn deal<T: Drop>(tasks: Vec<T>, loads: Vec<Vec<T>>) -> Vec<Vec<T>>
    requires some { 0 < vec_len loads }
    requires room { All (HasRoom 0 (vec_len tasks)) loads.items }
    ensures { lists_of result.items ≡ dealt tasks.items (lists_of loads.items) }
{
    let mut loads = loads;
    for task in tasks {
        deal_one(&mut loads, task);
    }
    loads
}

// The last list gives its last task back, and then stands first.
fn gather_one<T: Drop>(loads: &mut Vec<Vec<T>>) -> Option<T>
    ensures some { IfSome result (λ task. gathered_one (lists_of loads.old.items) ≡ Some (lists_of loads.new.items, task)) }
    ensures none { result ≡ None → gathered_one (lists_of loads.old.items) ≡ None }
{
    let mut load = loads.pop()?;
    let task = load.pop()?;
    loads.push_reserved(load);
    loads.rotate_right(1);
    Some(task)
}

// So many tasks out of the lists, the last one first, behind those that are there.
fn gather_backwards<T: Drop>(loads: Vec<Vec<T>>, tasks: Vec<T>, count: usize) -> Vec<T>
    requires room { vec_len tasks + count ≤ vec_capacity tasks }
    ensures { reverse result.items ≡ gathered count (lists_of loads.items) (reverse tasks.items) }
{
    let mut loads = loads;
    let mut tasks = tasks;
    if count == 0 {
        return tasks;
    }
    match gather_one(&mut loads) {
        None => tasks,
        Some(task) => {
            tasks.push_reserved(task);
            gather_backwards(loads, tasks, count - 1)
        }
    }
}

/// So many tasks out of the lists, in a list that has room for them. They come back in the order in which they were dealt.
pub fn gather<T: Drop>(loads: Vec<Vec<T>>, room: Vec<T>, count: usize) -> Vec<T>
    requires empty { room.items ≡ [] }
    requires room { count ≤ vec_capacity room }
    ensures { result.items ≡ gathered count (lists_of loads.items) [] }
{
    let mut tasks = gather_backwards(loads, room, count);
    tasks.reverse();
    tasks
}

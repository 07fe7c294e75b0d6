//! All workers: some on threads of their own, and that of the caller.
ghost use Rattle.std.specs.Prelude.{◌≡◌, ◌<◌, ◌≤◌, [], All, IfErr, IfOk, map, length, replicate, vec_capacity, vec_len};
ghost use Rattle.task_workers.specs.Dealing.{HasRoom, dealt, lists_of};
ghost use Rattle.task_workers.specs.Posts.{IsPostIn, names_at};

use crate::dealing::{deal, empty_lists, gather};
use crate::post::{NOBODY, Post, start};
use crate::rounds::work;
use crate::{Bell, Task};
use std::alloc::{AllocError, Global};
use std::sync::Wait;
use std::sync::atomic::AtomicU64;
use std::thread;
use std::thread::{Scope, Threads};

// Room for what all workers need.
#[derive(Drop)]
struct Room<T> {
    loads: Vec<Vec<T>>,
    returned: Vec<Vec<T>>,
    tasks: Vec<T>,
}

// Takes memory for so many workers and tasks.
fn room_for<T: Drop>(alloc: Global, workers: usize, tasks: usize) -> Result<Room<T>, AllocError>
    ensures count { IfOk result (λ room. vec_len room.loads ≡ workers) }
    ensures loads { IfOk result (λ room. (lists_of room.loads.items ≡ replicate workers []) × All (HasRoom 0 tasks) room.loads.items) }
    ensures returned { IfOk result (λ room. (room.returned.items ≡ []) × (workers ≤ vec_capacity room.returned)) }
    ensures tasks { IfOk result (λ room. (room.tasks.items ≡ []) × (tasks ≤ vec_capacity room.tasks)) }
{
    Ok(Room {
        loads: empty_lists(alloc, workers, tasks)?,
        returned: Vec::with_capacity(alloc, workers)?,
        tasks: Vec::with_capacity(alloc, tasks)?,
    })
}

// The post of a worker: the first is the caller's own, and each other one is started.
fn post_for<'s, E, R: Threads + Wait + Sync, H: Sync, T: Task<H> + Send + Drop + 's>(
    rt: &'s R,
    scope: &Scope<'s, E>,
    hall: &'s H,
    bell: &'s Bell,
    turned_back: &'s AtomicU64,
    number: usize,
    load: Vec<T>,
) -> Post<H, T>
    requires { All (T.stands hall.now) load.items }
    ensures post { IsPostIn T.stands hall.now result }
    ensures names { names_at T.name result ≡ map T.name load.items }
{
    if number == 0 {
        Post::Here(load)
    } else {
        start(rt, scope, hall, bell, turned_back, number as u64, load)
    }
}

// Posts for all workers, in a list that has room for them.
fn post_all<'s, E, R: Threads + Wait + Sync, H: Sync, T: Task<H> + Send + Drop + 's>(
    rt: &'s R,
    scope: &Scope<'s, E>,
    hall: &'s H,
    bell: &'s Bell,
    turned_back: &'s AtomicU64,
    loads: Vec<Vec<T>>,
    posts: Vec<Post<H, T>>,
) -> Vec<Post<H, T>>
    requires stand { All (λ load. All (T.stands hall.now) load.items) loads.items }
    requires room { (posts.items ≡ []) × (vec_len loads ≤ vec_capacity posts) }
    ensures count { vec_len result ≡ vec_len loads }
    ensures posts { All (IsPostIn T.stands hall.now) result.items }
    ensures names { map (names_at T.name) result.items ≡ map (λ load. map T.name load.items) loads.items }
{
    let mut posts = posts;
    for load in loads {
        let number = posts.len();
        posts.push_reserved(post_for(rt, scope, hall, bell, turned_back, number, load));
    }
    posts
}

// The tasks of all posts, once they are back, in a list that has room for them.
fn return_all<R: Threads, H, T: Task<H> + Drop>(
    rt: &R,
    hall: &H,
    posts: Vec<Post<H, T>>,
    returned: Vec<Vec<T>>,
) -> Vec<Vec<T>>
    requires posts { All (IsPostIn T.stands hall.now) posts.items }
    requires room { (returned.items ≡ []) × (vec_len posts ≤ vec_capacity returned) }
    ensures stand { All (λ load. All (T.stands hall.now) load.items) result.items }
    ensures names { map (λ load. map T.name load.items) result.items ≡ map (names_at T.name) posts.items }
{
    let mut returned = returned;
    for post in posts {
        returned.push_reserved(post.come_back(rt, hall));
    }
    returned
}

// The work of all workers on these lists of tasks, in this scope. It takes memory for a list of posts; where there is none, nobody
// has begun.
fn work_within<'s, E, R: Threads + Wait + Sync, H: Sync, T: Task<H> + Send + Drop + 's>(
    rt: &'s R,
    alloc: Global,
    scope: &Scope<'s, E>,
    hall: &'s H,
    bell: &'s Bell,
    turned_back: &'s AtomicU64,
    loads: Vec<Vec<T>>,
    returned: Vec<Vec<T>>,
) -> Result<Vec<Vec<T>>, Vec<Vec<T>>>
    requires stand { All (λ load. All (T.stands hall.now) load.items) loads.items }
    requires returned { (returned.items ≡ []) × (vec_len loads ≤ vec_capacity returned) }
    ensures stand { IfOk result (λ back. All (λ load. All (T.stands hall.now) load.items) back.items) }
    ensures names { IfOk result (λ back. map (λ load. map T.name load.items) back.items ≡ map (λ load. map T.name load.items) loads.items) }
    ensures err { IfErr result (λ back. back ≡ loads) }
{
    let Ok(posts) = Vec::with_capacity(alloc, loads.len()) else {
        return Err(loads);
    };
    let mut posts = post_all(rt, scope, hall, bell, turned_back, loads, posts);
    work(rt, hall, bell, &mut posts);
    Ok(return_all(rt, hall, posts, returned))
}

// The same, in a scope of its own.
fn work_together<R: Threads + Wait + Sync, H: Sync, T: Task<H> + Send + Drop>(
    rt: &R,
    alloc: Global,
    hall: &H,
    bell: &Bell,
    loads: Vec<Vec<T>>,
    returned: Vec<Vec<T>>,
) -> Result<Vec<Vec<T>>, Vec<Vec<T>>>
    requires stand { All (λ load. All (T.stands hall.now) load.items) loads.items }
    requires returned { (returned.items ≡ []) × (vec_len loads ≤ vec_capacity returned) }
    ensures stand { IfOk result (λ back. All (λ load. All (T.stands hall.now) load.items) back.items) }
    ensures names { IfOk result (λ back. map (λ load. map T.name load.items) back.items ≡ map (λ load. map T.name load.items) loads.items) }
    ensures err { IfErr result (λ back. back ≡ loads) }
{
    let turned_back = AtomicU64::new(NOBODY);
    let turned_back = &turned_back;
    thread::scope(
        thread::scope_env(),
        rt,
        move |scope| -> Result<Vec<Vec<T>>, Vec<Vec<T>>>
            requires stand { All (λ load. All (T.stands hall.now) load.items) loads.items }
            requires returned { (returned.items ≡ []) × (vec_len loads ≤ vec_capacity returned) }
            ensures stand { IfOk result (λ back. All (λ load. All (T.stands hall.entry.now) load.items) back.items) }
            ensures names { IfOk result (λ back. map (λ load. map T.name load.items) back.items ≡ map (λ load. map T.name load.items) loads.items) }
            ensures err { IfErr result (λ back. back ≡ loads) }
        { work_within(rt, alloc, scope, hall, bell, turned_back, loads, returned) },
    )
}

// The work of all workers, in this room. Where there is no memory for it, no task has had a turn.
fn work_in<R: Threads + Wait + Sync, H: Sync, T: Task<H> + Send + Drop>(
    rt: &R,
    alloc: Global,
    hall: &H,
    bell: &Bell,
    tasks: Vec<T>,
    room: Room<T>,
) -> Result<Vec<T>, Vec<T>>
    requires stand { All (T.stands hall.now) tasks.items }
    requires loads { (0 < vec_len room.loads) × (lists_of room.loads.items ≡ replicate (vec_len room.loads) []) × All (HasRoom 0 (vec_len tasks)) room.loads.items }
    requires returned { (room.returned.items ≡ []) × (vec_len room.loads ≤ vec_capacity room.returned) }
    requires tasks { (room.tasks.items ≡ []) × (vec_len tasks ≤ vec_capacity room.tasks) }
    ensures stand { IfOk result (λ back. All (T.stands hall.now) back.items) }
    ensures names { IfOk result (λ back. map T.name back.items ≡ map T.name tasks.items) }
    ensures err { IfErr result (λ back. back.items ≡ tasks.items) }
{
    let Room {
        loads,
        returned,
        tasks: back,
    } = room;
    let count = tasks.len();
    let loads = deal(tasks, loads);
    match work_together(rt, alloc, hall, bell, loads, returned) {
        Ok(loads) => Ok(gather(loads, back, count)),
        Err(loads) => Err(gather(loads, back, count)),
    }
}

/// Gives these tasks turns until each is done, by so many workers at most: one is the caller's thread, and each other one gets
/// a thread of its own, or leaves its tasks to the caller's where none can be made. Task k, counted from 0, stands with worker k
/// modulo their number. The tasks come back in their order. It takes memory for lists; where there is none, no task has
/// had a turn. It may wait for ever.
pub fn work_all<R: Threads + Wait + Sync, H: Sync, T: Task<H> + Send + Drop>(
    rt: &R,
    alloc: Global,
    hall: &H,
    bell: &Bell,
    tasks: Vec<T>,
    workers: usize,
) -> Result<Vec<T>, Vec<T>>
    requires stand { All (T.stands hall.now) tasks.items }
    requires workers { 0 < workers }
    ensures stand { IfOk result (λ back. All (T.stands hall.now) back.items) }
    ensures names { IfOk result (λ back. map T.name back.items ≡ map T.name tasks.items) }
    ensures err { IfErr result (λ back. back.items ≡ tasks.items) }
{
    if tasks.is_empty() {
        return Ok(tasks);
    }
    let count = tasks.len();
    let Ok(room) = room_for(alloc, workers.min(count), count) else {
        return Err(tasks);
    };
    work_in(rt, alloc, hall, bell, tasks, room)
}

//! Where the tasks of a worker are, and how a worker is started.
ghost use Rattle.std.specs.Prelude.{◌≡◌, All, map};
ghost use Rattle.task_workers.specs.Posts.{CameBack, IsPostIn, KeepsTasks, names_at};

use crate::rounds::{take_round, work};
use crate::{Bell, Progress, Task};
use std::collections::LinkedList;
use std::snapshot::Snapshot;
use std::sync::Wait;
use std::sync::atomic::{AtomicU64, Ordering};
use std::thread::{Promise, PromisedHandle, Scope, Threads};

/// No worker was turned back: 0 is the caller's own, which is never started.
pub const NOBODY: u64 = 0;

/// The promise of a worker: the tasks that it was given come back.
#[derive(Drop)]
pub struct Keeps<H, T> {
    hall: Snapshot<H>,
    tasks: Snapshot<Vec<T>>,
}

impl<H, T: Task<H>> Promise<Vec<T>> for Keeps<H, T> {
    ghost kept_by = { KeepsTasks T.name T.stands };
}

/// Where the tasks of a worker are: here, or with a thread of their own.
#[derive(Drop)]
pub enum Post<H, T: Task<H>> {
    Here(Vec<T>),
    Away(PromisedHandle<Vec<T>, Keeps<H, T>>),
}

impl<H, T: Task<H>> Post<H, T> {
    /// The tasks of a post in this hall, once they are back. It may wait for ever.
    pub fn come_back<R: Threads>(self, rt: &R, hall: &H) -> Vec<T>
        requires { IsPostIn T.stands hall.now self }
        ensures names { map T.name result.items ≡ names_at T.name self }
        ensures stand { All (T.stands hall.now) result.items }
    {
        match self {
            Post::Here(load) => load,
            Post::Away(handle) => handle.join(rt),
        }
    }
}

// A post is a task: its turn is one for each task that is here.
impl<H, T: Task<H>> Task<H> for Post<H, T> {
    type Name = LinkedList<T::Name>;

    ghost name = { names_at T.name };

    ghost stands = { IsPostIn T.stands };

    fn take_turn<R: Wait>(&mut self, rt: &R, hall: &H, bell: &Bell) -> Progress {
        match self {
            Post::Here(load) => take_round(rt, hall, bell, load),
            Post::Away(_) => Progress::Done,
        }
    }
}

// The work of a thread of its own, unless it was turned back.
fn work_apart<R: Wait, H, T: Task<H>>(
    rt: &R,
    hall: &H,
    bell: &Bell,
    turned_back: &AtomicU64,
    number: u64,
    load: Vec<T>,
) -> Vec<T>
    requires { All (T.stands hall.now) load.items }
    ensures { CameBack T.name T.stands hall.now load.items result.items }
{
    let mut load = load;
    if turned_back.load(Ordering::SeqCst) != number {
        work(rt, hall, bell, &mut load);
    }
    load
}

/// Starts a worker with its tasks. Where no thread can be made, they stay here: the work is turned back before it begins.
pub fn start<'s, E, R: Threads + Wait + Sync, H: Sync, T: Task<H> + Send + Drop + 's>(
    rt: &'s R,
    scope: &Scope<'s, E>,
    hall: &'s H,
    bell: &'s Bell,
    turned_back: &'s AtomicU64,
    number: u64,
    load: Vec<T>,
) -> Post<H, T>
    requires { All (T.stands hall.now) load.items }
    ensures post { IsPostIn T.stands hall.now result }
    ensures names { names_at T.name result ≡ map T.name load.items }
{
    let promise = Keeps {
        hall: Snapshot::of(hall),
        tasks: Snapshot::of(&load),
    };
    match scope.spawn_with(promise, move || {
        work_apart(rt, hall, bell, turned_back, number, load)
    }) {
        Ok(handle) => Post::Away(handle),
        Err(refused) => {
            turned_back.store(number, Ordering::SeqCst);
            Post::Here((refused.value)())
        }
    }
}

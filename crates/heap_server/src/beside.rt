//! The threads beside the sessions over a heap: for the clients of dumps, and for those of the page.
use heap_lock::{Heap, Shared};
use heap_page::{PagePort, tend_page};
use secret_word::Secret;
use shared_dump::{DumpListener, tend_dumps};
use std::alloc::{AllocError, Global};
use std::sync::Wait;
use std::sync::atomic::{AtomicBool, Ordering};
use std::thread::{JoinHandle, Scope, Threads};
use std::time::Clock;

// The first of the threads that send dumps and the thread that answers the clients of the page, each if there is a port for it.
#[derive(Drop)]
pub(crate) struct Beside {
    dumping: Option<JoinHandle<()>>,
    showing: Option<JoinHandle<()>>,
}

// Begins the first of the threads that send dumps, if there is a port for them; it begins the others. Fails if it can't be started.
fn begin_dumps<'s, E, L: Heap + Send + Sync, R: Clock + Eprint + Threads + Wait + Sync>(
    scope: &Scope<'s, E>,
    rt: &'s R,
    alloc: Global,
    shared: &'s Shared<L>,
    dumps: Option<DumpListener>,
    secret: &'s Option<Secret>,
    time: u64,
    stop: &'s AtomicBool,
) -> Result<Option<JoinHandle<()>>, AllocError> {
    let Some(dumps) = dumps else {
        return Ok(None);
    };
    let thread = scope.spawn(move || tend_dumps(rt, alloc, shared, dumps, *secret, time, stop))?;
    Ok(Some(thread))
}

// Begins the thread that answers the clients of the page, if there is a port for it. Fails if it can't be started.
fn begin_page<'s, E, L: Heap + Send + Sync, R: Clock + Threads + Wait + Sync>(
    scope: &Scope<'s, E>,
    rt: &'s R,
    alloc: Global,
    shared: &'s Shared<L>,
    page: Option<PagePort>,
    stop: &'s AtomicBool,
) -> Result<Option<JoinHandle<()>>, AllocError> {
    let Some(page) = page else {
        return Ok(None);
    };
    let thread = scope.spawn(move || tend_page(rt, alloc, shared, page, stop))?;
    Ok(Some(thread))
}

impl Beside {
    // Begins the threads for which there are ports; the clients of dumps have to say the secret word, if there is one. Fails if one
    // can't be started; the other is then told to stop, and joined.
    pub(crate) fn begin<'s, E, L: Heap + Send + Sync, R: Clock + Eprint + Threads + Wait + Sync>(
        scope: &Scope<'s, E>,
        rt: &'s R,
        alloc: Global,
        shared: &'s Shared<L>,
        dumps: Option<DumpListener>,
        secret: &'s Option<Secret>,
        page: Option<PagePort>,
        time: u64,
        stop: &'s AtomicBool,
    ) -> Result<Beside, AllocError> {
        let dumping = begin_dumps(scope, rt, alloc, shared, dumps, secret, time, stop)?;
        let Ok(showing) = begin_page(scope, rt, alloc, shared, page, stop) else {
            let alone = Beside {
                dumping,
                showing: None,
            };
            alone.end(rt, stop);
            return Err(AllocError);
        };
        Ok(Beside { dumping, showing })
    }

    // Tells the threads to stop, and joins them.
    pub(crate) fn end<R: Threads>(self, rt: &R, stop: &AtomicBool) {
        stop.store(true, Ordering::SeqCst);
        let Beside { dumping, showing } = self;
        if let Some(thread) = dumping {
            thread.join(rt);
        }
        if let Some(thread) = showing {
            thread.join(rt);
        }
    }
}

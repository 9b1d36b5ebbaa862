//! The thread that answers the clients of the page.
use crate::client::{Client, Turn};
use crate::service::PageService;
use crate::terms::PageTerms;
use heap_lock::{Heap, Shared};
use shared_dump::DumpListener;
use std::alloc::Global;
use std::hash::RandomState;
use std::sync::Wait;
use std::sync::atomic::{AtomicBool, Ordering};
use std::thread;
use std::time::{Clock, Duration, Instant};

// The most clients at a time. A further one takes the place of the one that has been quiet for longest.
const CLIENT_LIMIT: usize = 16;

/// The port of the page: its listener, the keys of the maps of header fields, and its terms.
#[derive(Drop)]
pub struct PagePort {
    pub listener: DumpListener,
    pub keys: RandomState,
    pub terms: PageTerms,
}

/// Answers the clients of a page until the stop word is set. Takes the lock for each question and each dump, while it is made, and
/// holds none while bytes move. A client that sends and takes nothing for 20 seconds is let go, and so is the one that has been
/// quiet for longest when a seventeenth comes. Answers nobody if there is no clock. May wait.
pub fn tend_page<L: Heap, R: Clock + Wait>(
    rt: &R,
    alloc: Global,
    shared: &Shared<L>,
    port: PagePort,
    stop: &AtomicBool,
) {
    let Ok(mut now) = Instant::now(rt) else {
        return;
    };
    let mut clients = Vec::new(alloc);
    let mut service = PageService::new(shared, rt, alloc, &port.terms, shared.witness(rt));
    for _ in rt.forever() {
        if stop.load(Ordering::SeqCst) {
            return;
        }
        now = Instant::now(rt).unwrap_or(now);
        let came = accept(alloc, &port, &mut clients, now);
        let moved = serve_clients(&mut service, &mut clients, now);
        if !came && !moved {
            thread::sleep(rt, Duration::from_millis(1));
        }
    }
    unreachable!()
}

// Accepts a client, if one has come. Returns whether one has.
fn accept(alloc: Global, port: &PagePort, clients: &mut Vec<Client>, now: Instant) -> bool {
    let Ok(stream) = port.listener.accept() else {
        return false;
    };
    make_room(clients, now);
    if let Ok(client) = Client::new(alloc, port.keys, stream, now) {
        let _ = clients.push(client);
    }
    true
}

// Lets the client go that has been quiet for longest, if there are as many as may be.
fn make_room(clients: &mut Vec<Client>, now: Instant) {
    if clients.len() < CLIENT_LIMIT {
        return;
    }
    let mut quietest = 0;
    for i in 0..clients.len() {
        if clients[i].quiet(now) > clients[quietest].quiet(now) {
            quietest = i;
        }
    }
    let _ = clients.swap_remove(quietest);
}

// Gives each client a turn. Returns whether bytes moved.
fn serve_clients<L: Heap, R: Wait>(
    service: &mut PageService<'_, L, R>,
    clients: &mut Vec<Client>,
    now: Instant,
) -> bool {
    let mut moved = false;
    let mut i = 0;
    while i < clients.len() {
        match clients[i].turn(service, now) {
            Turn::Over => {
                let _ = clients.swap_remove(i);
            }
            Turn::Moved => {
                moved = true;
                i += 1;
            }
            Turn::Quiet => i += 1,
        }
    }
    moved
}

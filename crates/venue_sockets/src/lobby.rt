//! Where connections wait without a worker, shared by the doors and the links.

use crate::door::Door;
use crate::limits::{Awaited, Behind, behind_of, enough};
use crate::pool::Pool;
use std::alloc::{AllocError, Global};
use std::net::{Net, TcpStream};
use std::sync::atomic::{AtomicBool, AtomicUsize, Ordering};
use std::sync::{Mutex, Wait};
use std::time::Clock;
use venue_ports::Failed;

// What is told once where the system lacks room for a connection.
const SHORTAGE: &str =
    "venue: the system has no file or no memory for another connection, so those that have waited longest are closed";

/// Connections that the system has accepted and that wait without a worker, at most 16,384: until a whole message or a refusal is there,
/// or 16,384 bytes, or their input has ended behind some bytes. One that sends no more than part of a message is closed 30 seconds after it
/// came, and so is the one that has waited longest where there is no room for another.
#[derive(Drop)]
pub struct Lobby {
    pool: Mutex<Pool>,
    ready: AtomicUsize,
    coming: AtomicUsize,
    is_open: AtomicBool,
}

impl Lobby {
    /// An empty lobby. Takes all memory that it ever takes.
    pub fn new(alloc: Global) -> Result<Lobby, AllocError> {
        Ok(Lobby {
            pool: Mutex::new(Pool::new(alloc)?),
            ready: AtomicUsize::new(0),
            coming: AtomicUsize::new(0),
            is_open: AtomicBool::new(false),
        })
    }

    /// Listens at an address.
    pub(crate) fn open<R: Net + Wait>(&self, rt: &R, address: &str) -> Result<(), Failed> {
        let door = Door::bind(rt, address)?;
        let mut pool = self.pool.lock(rt);
        pool.open(door);
        self.note(&pool);
        Ok(())
    }

    /// The connection that has been ready longest, once there is one. That the system lacked room for one is told on standard error, once.
    pub(crate) fn next<R: Clock + Eprint + Wait>(&self, rt: &R) -> Result<TcpStream, Failed> {
        let mut pool = self.pool.lock(rt);
        self.one_came();
        for _ in rt.forever() {
            if pool.take_news() {
                // A write may wait for whoever reads it, and the looks of links go on meanwhile.
                self.note(&pool);
                drop(pool);
                let _ = rt.eprintln(SHORTAGE);
                pool = self.pool.lock(rt);
            }
            let next = pool.next_ready();
            self.note(&pool);
            match next {
                Some(stream) => return Ok(TcpStream::from(stream)),
                None => pool.wait(rt)?,
            }
        }
        unreachable!()
    }

    // Tells those who don't hold the lock how many are ready, and whether others may be in front of the door.
    fn note(&self, pool: &Pool) {
        self.ready.store(pool.ready_count(), Ordering::SeqCst);
        self.is_open.store(pool.is_open(), Ordering::SeqCst);
    }

    // A worker is here, which may be one that was on its way.
    fn one_came(&self) {
        if self.coming.load(Ordering::SeqCst) > 0 {
            self.coming.fetch_sub(1, Ordering::SeqCst);
        }
    }

    /// A worker leaves its connection for one that waits.
    pub(crate) fn one_comes(&self) {
        self.coming.fetch_add(1, Ordering::SeqCst);
    }

    /// Who was seen to wait for a worker.
    pub(crate) fn seen_behind(&self) -> Behind {
        behind_of(
            self.ready.load(Ordering::SeqCst),
            self.coming.load(Ordering::SeqCst),
        )
    }

    // Looks at the doors until so many are ready, where no worker is there, and tells whether it did.
    fn look(&self, clock: &impl Clock, enough: usize) -> bool {
        let Some(mut pool) = self.pool.try_lock() else {
            return false;
        };
        let _ = pool.look(clock, enough);
        self.note(&pool);
        true
    }

    /// Who is known to wait for a worker. Where the last one at the doors left some who came, they are looked at.
    pub(crate) fn known_behind(&self, clock: &impl Clock) -> Behind {
        if self.is_open.load(Ordering::SeqCst) {
            self.look(
                clock,
                enough(Awaited::Bytes, self.coming.load(Ordering::SeqCst)),
            );
        }
        self.seen_behind()
    }

    /// Who waits for a worker that waits for this itself, by a look where what was seen doesn't tell enough. Where a worker is at the doors,
    /// nobody does.
    pub(crate) fn behind(&self, clock: &impl Clock, awaited: Awaited) -> Behind {
        let enough = enough(awaited, self.coming.load(Ordering::SeqCst));
        if self.ready.load(Ordering::SeqCst) < enough && !self.look(clock, enough) {
            return Behind::Nobody;
        }
        self.seen_behind()
    }
}

//! A TCP connection. Its contracts say nothing of what comes or goes.

ghost use Rattle.std.specs.Prelude.{◌≡◌, ℕ, ◌<◌, ◌≤◌, IfOk, OnErr, OnOk, None, length, true, false};
ghost use Rattle.std.specs.Duration.{as_nanos};
ghost use Rattle.venue_ports.specs.Causes.{one_more, HasExactCause};
ghost use Rattle.venue_ports.specs.Waits.{LimitsRead, LimitsWrite, no_waits};

use crate::limits::Limits;
use crate::sockets::{linger, now, read_again, since, write_again};
use crate::stream::{Failed, Stream};
use crate::waits::Waiting;
use std::net::TcpStream;
use std::time::{Clock, Duration};

/// A TCP connection that waits at most 10 seconds in a read or a write, 30 seconds in all reads since the accept or the last
/// write, and 60 seconds in all writes since the last read that gave bytes. The call that goes past one of the latter two still
/// counts, and the next one fails. At its end, where no call has failed and no read has found the end, it takes what still
/// comes for at most 2 seconds, so that what was written is not lost.
///
/// So a connection that is idle for 10 seconds ends by a failed read. For its client that is a close, and it connects anew. A
/// client that sends a whole request and is answered within every 30 seconds is never left.
pub struct TcpLink<'a, R: Clock> {
    rt: &'a R,
    stream: TcpStream,
    waiting: Waiting,
    linger: Duration,
    ended: bool,
    faults: u64,
}

impl<'a, R: Clock> TcpLink<'a, R> {
    /// A link over a connection that was just taken.
    pub(crate) fn new(rt: &'a R, stream: TcpStream, limits: Limits) -> TcpLink<'a, R>
        ensures waits { result.waiting ≡ no_waits (as_nanos limits.patience) (as_nanos limits.delivery) }
        ensures faults { result.faults ≡ 0 }
        ensures linger { result.linger ≡ limits.linger }
        ensures end { result.ended ≡ false }
    {
        TcpLink {
            rt,
            stream,
            waiting: Waiting::new(limits.patience, limits.delivery),
            linger: limits.linger,
            ended: false,
            faults: 0,
        }
    }

    // Counts a failure.
    fn failed(&mut self) -> Failed
        ensures counted { self.new ≡ record self.old { faults = one_more self.old.faults } }
        ensures later { self.old.faults ≤ self.new.faults }
    {
        self.faults = self.faults.saturating_add(1);
        Failed
    }

    // Reads where the reads are within their limit.
    fn read_in_time(&mut self, buf: &mut [u8]) -> Result<usize, Failed>
        ensures bound { IfOk result (λ n. n ≤ length buf.old) }
        ensures limits { LimitsRead self.old.waiting self.new.waiting result }
        ensures waits { OnErr result (self.new.waiting ≡ record self.old.waiting { reading = self.new.waiting.reading }) }
        ensures waits_later { OnErr result (self.old.waiting.reading ≤ self.new.waiting.reading) }
        ensures end { IfOk result (λ n. n ≡ 0 → self.new.ended ≡ true) }
        ensures no_end { IfOk result (λ n. 0 < n → self.new.ended ≡ self.old.ended) }
        ensures end_kept { OnErr result (self.new.ended ≡ self.old.ended) }
        ensures linger { self.new.linger ≡ self.old.linger }
        ensures faults { self.new.faults ≡ self.old.faults }
    {
        if !self.waiting.may_read() {
            return Err(Failed);
        }
        let from = now(self.rt)?;
        let moved = read_again(&mut self.stream, buf);
        self.waiting
            .was_read(since(self.rt, from)?, matches!(moved, Ok(1..)));
        self.ended |= moved == Ok(0);
        moved
    }

    // Writes where the writes are within their limit.
    fn write_in_time(&mut self, piece: &[u8]) -> Result<usize, Failed>
        ensures bound { IfOk result (λ n. (0 < n) × (n ≤ length piece.now)) }
        ensures limits { LimitsWrite self.old.waiting self.new.waiting result }
        ensures waits { OnErr result (self.new.waiting ≡ record self.old.waiting { writing = self.new.waiting.writing }) }
        ensures waits_later { OnErr result (self.old.waiting.writing ≤ self.new.waiting.writing) }
        ensures end_kept { self.new.ended ≡ self.old.ended }
        ensures linger { self.new.linger ≡ self.old.linger }
        ensures faults { self.new.faults ≡ self.old.faults }
    {
        if !self.waiting.may_write() {
            return Err(Failed);
        }
        let from = now(self.rt)?;
        let moved = write_again(&mut self.stream, piece);
        self.waiting
            .was_written(since(self.rt, from)?, moved.is_ok());
        moved
    }
}

impl<'a, R: Clock> Stream for TcpLink<'a, R> {
    ghost left = { λ _. None };

    ghost written = { λ _. None };

    ghost starts = { λ _. None };

    ghost faults = { λ l. l.faults };

    fn fault_count(&self) -> u64 {
        self.faults
    }

    fn read(&mut self, buf: &mut [u8]) -> Result<usize, Failed>
        requires { 0 < length buf.old }
        ensures bound { IfOk result (λ n. n ≤ length buf.old) }
        ensures cause { HasExactCause self.old.faults self.new.faults result }

        ensures counted { OnErr result (self.new.faults ≡ one_more self.old.faults) }
        ensures limits { LimitsRead self.old.waiting self.new.waiting result }
        ensures waits { OnErr result (self.new.waiting ≡ record self.old.waiting { reading = self.new.waiting.reading }) }
        ensures waits_later { OnErr result (self.old.waiting.reading ≤ self.new.waiting.reading) }
        ensures end { IfOk result (λ n. n ≡ 0 → self.new.ended ≡ true) }
        ensures no_end { IfOk result (λ n. 0 < n → self.new.ended ≡ self.old.ended) }
        ensures end_kept { OnErr result (self.new.ended ≡ self.old.ended) }
        ensures linger { self.new.linger ≡ self.old.linger }
    {
        match self.read_in_time(buf) {
            Ok(count) => Ok(count),
            Err(_) => Err(self.failed()),
        }
    }

    fn write(&mut self, piece: &[u8]) -> Result<usize, Failed>
        requires { 0 < length piece.now }
        ensures bound { IfOk result (λ n. (0 < n) × (n ≤ length piece.now)) }
        ensures cause { HasExactCause self.old.faults self.new.faults result }

        ensures counted { OnErr result (self.new.faults ≡ one_more self.old.faults) }
        ensures limits { LimitsWrite self.old.waiting self.new.waiting result }
        ensures waits { OnErr result (self.new.waiting ≡ record self.old.waiting { writing = self.new.waiting.writing }) }
        ensures waits_later { OnErr result (self.old.waiting.writing ≤ self.new.waiting.writing) }
        ensures end_kept { self.new.ended ≡ self.old.ended }
        ensures linger { self.new.linger ≡ self.old.linger }
    {
        match self.write_in_time(piece) {
            Ok(count) => Ok(count),
            Err(_) => Err(self.failed()),
        }
    }
}

impl<'a, R: Clock> Drop for TcpLink<'a, R> {
    fn drop(self) {
        if self.faults == 0 && !self.ended {
            let _ = linger(self.rt, &self.stream, self.linger);
        }
        let TcpLink {
            rt: _,
            stream: _,
            waiting: _,
            linger: _,
            ended: _,
            faults: _,
        } = self;
    }
}

//! A connection that a worker has. Its contracts say nothing of what comes or goes.

ghost use Rattle.std.specs.Prelude.{◌≡◌, ℕ, ◌<◌, ◌≤◌, IfOk, IfSome, OnErr, OnOk, None, length, true, false};
ghost use Rattle.venue_ports.specs.Causes.{one_more, HasExactCause};
ghost use Rattle.venue_ports.specs.Waits.{LimitsRead, LimitsWrite, no_waits};
ghost use Rattle.venue_sockets.specs.declared.limits.Awaited.TheVariants.{Bytes, Room};
ghost use Rattle.venue_sockets.specs.declared.limits.Behind.TheVariants.{Nobody};
ghost use Rattle.venue_sockets.specs.Limits.{most_nanos};

use crate::calls::{
    end_output, let_read_wait, let_wait, now, read_at_once, read_slice, since, write_slice,
};
use crate::limits::{Awaited, Behind, ONE_CALL_SECS, SLICE_MILLIS, most};
use crate::lobby::Lobby;
use crate::waits::Waiting;
use std::net::TcpStream;
use std::time::{Clock, Duration};
use venue_ports::{Failed, Stream};

// How many slices a call has at most.
const MOST_SLICES: usize = 1_000;

// How many pieces of what the client still sends are taken at the end, and how long one is.
const LAST_READS: usize = 64;

const LAST_READ: usize = 4_096;

/// A TCP connection of the lobby. While nobody waits for a worker it waits at most 10 seconds in a read or a write, 30 seconds in all reads
/// since the accept or the last write, 60 seconds in all writes since the last read that gave bytes, and at its end, where no call has failed
/// and no read has found the end, 2 seconds for what still comes, so that what was written is not lost. While others wait these are 50
/// milliseconds, 2 seconds and nothing, and while eight or more wait nothing, 200 milliseconds and nothing.
///
/// So a connection that pauses ends by a failed read, at once while somebody else has a whole request and no worker is free. For its
/// client that is a close, and it connects anew.
///
/// What the system is told of waiting is told when a call first has to wait. A client that asks once and is answered at once costs none of it.
pub struct LobbyLink<'a, R: Clock> {
    rt: &'a R,
    lobby: &'a Lobby,
    stream: TcpStream,
    waiting: Waiting,
    may_wait: bool,
    has_written: bool,
    ended: bool,
    faults: u64,
}

impl<'a, R: Clock> LobbyLink<'a, R> {
    /// A link over a connection that the lobby handed out.
    pub(crate) fn new(rt: &'a R, lobby: &'a Lobby, stream: TcpStream) -> LobbyLink<'a, R>
        ensures waits { result.waiting ≡ no_waits (most_nanos Bytes Nobody) (most_nanos Room Nobody) }
        ensures faults { result.faults ≡ 0 }
        ensures end { result.ended ≡ false }
    {
        LobbyLink {
            rt,
            lobby,
            stream,
            waiting: Waiting::new(),
            may_wait: false,
            has_written: false,
            ended: false,
            faults: 0,
        }
    }

    // Counts a failure.
    fn failed(&mut self) -> Failed
        ensures counted { self.new ≡ record self.old { faults = one_more self.old.faults } }
        ensures later { self.old.faults ≤ self.new.faults }
    {
        self.faults = self.faults.saturating_add(1);
        Failed
    }

    // Lets the calls at the socket wait, where they don't yet.
    fn let_wait(&mut self) -> Result<(), Failed>
        ensures { self.new ≡ record self.old { may_wait = self.new.may_wait } }
    {
        if !self.may_wait {
            let_wait(&self.stream)?;
            self.may_wait = true;
        }
        Ok(())
    }

    // Lets the reads that are left wait, where they don't yet.
    fn let_read_wait(&self) -> Result<(), Failed> {
        if self.may_wait {
            return Ok(());
        }
        let_read_wait(&self.stream)
    }

    // Who waits behind. It takes a look from the time on at which others, who are fewer than a crowd, are not kept waiting any more.
    fn behind(&self, awaited: Awaited, waited: Duration) -> Behind {
        if waited < most(awaited, Behind::Others) {
            self.lobby.known_behind(self.rt)
        } else {
            self.lobby.behind(self.rt, awaited)
        }
    }

    // Fails where so much was waited in all that whoever is behind comes first.
    fn give_way(&self, awaited: Awaited, waited: Duration) -> Result<(), Failed> {
        let behind = self.behind(awaited, waited);
        if waited < most(awaited, behind) {
            return Ok(());
        }
        if behind != Behind::Nobody {
            self.lobby.one_comes();
        }
        Err(Failed)
    }

    // Fails where a call that began then, behind so long a wait, has waited for long enough.
    fn go_on(&self, awaited: Awaited, before: Duration, from: Duration) -> Result<(), Failed> {
        let in_call = since(self.rt, from)?;
        if in_call >= Duration::from_secs(ONE_CALL_SECS) {
            return Err(Failed);
        }
        self.give_way(awaited, before.saturating_add(in_call))
    }

    // Fails where what was waited before is long enough. Less than a slice is no wait.
    fn begin(&self, awaited: Awaited, before: Duration) -> Result<(), Failed> {
        if before < Duration::from_millis(SLICE_MILLIS) {
            return Ok(());
        }
        self.give_way(awaited, before)
    }

    // Reads within a slice, and without waiting while a crowd is behind.
    fn read_slice(&self, buf: &mut [u8]) -> Result<Option<usize>, Failed>
        ensures { IfOk result (λ read. IfSome read (λ n. n ≤ length buf.old)) }
    {
        if self.lobby.known_behind(self.rt) == Behind::Crowd {
            return read_at_once(&self.stream, buf);
        }
        let mut stream = &self.stream;
        read_slice(&mut stream, buf)
    }

    // Reads slice by slice.
    fn read_slices(&self, buf: &mut [u8], from: Duration) -> Result<usize, Failed>
        ensures { IfOk result (λ n. n ≤ length buf.old) }
    {
        let before = self.waiting.reading();
        for _ in 0..MOST_SLICES {
            if let Some(count) = self.read_slice(buf)? {
                return Ok(count);
            }
            self.go_on(Awaited::Bytes, before, from)?;
        }
        Err(Failed)
    }

    // Reads what is there already, where no call waits yet, and else slice by slice.
    fn read_bytes(&mut self, buf: &mut [u8], from: Duration) -> Result<usize, Failed>
        ensures bound { IfOk result (λ n. n ≤ length buf.old) }
        ensures kept { self.new ≡ record self.old { may_wait = self.new.may_wait } }
    {
        self.begin(Awaited::Bytes, self.waiting.reading())?;
        if !self.may_wait {
            let mut stream = &self.stream;
            if let Some(count) = read_slice(&mut stream, buf)? {
                return Ok(count);
            }
            self.let_wait()?;
        }
        self.read_slices(buf, from)
    }

    // Writes slice by slice.
    fn write_slices(&self, piece: &[u8], from: Duration) -> Result<usize, Failed>
        ensures { IfOk result (λ n. (0 < n) × (n ≤ length piece.now)) }
    {
        let before = self.waiting.writing();
        let mut stream = &self.stream;
        for _ in 0..MOST_SLICES {
            if let Some(count) = write_slice(&mut stream, piece)? {
                return Ok(count);
            }
            self.go_on(Awaited::Room, before, from)?;
        }
        Err(Failed)
    }

    // Writes what is taken at once, where no call waits yet and nothing was written, and else slice by slice.
    fn write_bytes(&mut self, piece: &[u8], from: Duration) -> Result<usize, Failed>
        ensures bound { IfOk result (λ n. (0 < n) × (n ≤ length piece.now)) }
        ensures kept { self.new ≡ record self.old { may_wait = self.new.may_wait; has_written = self.new.has_written } }
    {
        self.begin(Awaited::Room, self.waiting.writing())?;
        if !self.may_wait && !self.has_written {
            self.has_written = true;
            let mut stream = &self.stream;
            if let Some(count) = write_slice(&mut stream, piece)? {
                return Ok(count);
            }
        }
        self.let_wait()?;
        self.write_slices(piece, from)
    }

    // Reads where the reads are within their limit.
    fn read_in_time(&mut self, buf: &mut [u8]) -> Result<usize, Failed>
        ensures bound { IfOk result (λ n. n ≤ length buf.old) }
        ensures limits { LimitsRead self.old.waiting self.new.waiting result }
        ensures waits { OnErr result (self.new.waiting ≡ record self.old.waiting { reading = self.new.waiting.reading }) }
        ensures waits_later { OnErr result (self.old.waiting.reading ≤ self.new.waiting.reading) }
        ensures end { IfOk result (λ n. n ≡ 0 → self.new.ended ≡ true) }
        ensures no_end { IfOk result (λ n. 0 < n → self.new.ended ≡ self.old.ended) }
        ensures end_kept { OnErr result (self.new.ended ≡ self.old.ended) }
        ensures faults { self.new.faults ≡ self.old.faults }
    {
        if !self.waiting.may_read() {
            return Err(Failed);
        }
        let from = now(self.rt)?;
        let moved = self.read_bytes(buf, from);
        self.waiting
            .was_read(since(self.rt, from)?, matches!(moved, Ok(1..)));
        self.ended |= moved == Ok(0);
        moved
    }

    // Writes where the writes are within their limit.
    fn write_in_time(&mut self, piece: &[u8]) -> Result<usize, Failed>
        ensures bound { IfOk result (λ n. (0 < n) × (n ≤ length piece.now)) }
        ensures limits { LimitsWrite self.old.waiting self.new.waiting result }
        ensures waits { OnErr result (self.new.waiting ≡ record self.old.waiting { writing = self.new.waiting.writing }) }
        ensures waits_later { OnErr result (self.old.waiting.writing ≤ self.new.waiting.writing) }
        ensures end_kept { self.new.ended ≡ self.old.ended }
        ensures faults { self.new.faults ≡ self.old.faults }
    {
        if !self.waiting.may_write() {
            return Err(Failed);
        }
        let from = now(self.rt)?;
        let moved = self.write_bytes(piece, from);
        self.waiting
            .was_written(since(self.rt, from)?, moved.is_ok());
        moved
    }

    // What the client still sends at its end, slice by slice.
    fn rest_slices(&self, buf: &mut [u8], from: Duration) -> Result<usize, Failed> {
        let mut stream = &self.stream;
        for _ in 0..MOST_SLICES {
            if let Some(count) = read_slice(&mut stream, buf)? {
                return Ok(count);
            }
            self.go_on(Awaited::End, Duration::ZERO, from)?;
        }
        Err(Failed)
    }

    // Takes what the client still sends, for as long as may be. If the socket were closed with bytes in it, then the client would lose what
    // it has not read.
    fn take_rest(&mut self) -> Result<(), Failed> {
        let from = now(self.rt)?;
        end_output(&self.stream)?;
        self.go_on(Awaited::End, Duration::ZERO, from)?;
        self.let_read_wait()?;
        let mut buf = [0; LAST_READ];
        for _ in 0..LAST_READS {
            if self.rest_slices(&mut buf, from)? == 0 {
                return Ok(());
            }
            self.go_on(Awaited::End, Duration::ZERO, from)?;
        }
        Ok(())
    }
}

impl<'a, R: Clock> Stream for LobbyLink<'a, R> {
    ghost left = { λ _. None };

    ghost written = { λ _. None };

    ghost starts = { λ _. None };

    ghost faults = { λ l. l.faults };

    fn fault_count(&self) -> u64 {
        self.faults
    }

    fn read(&mut self, buf: &mut [u8]) -> Result<usize, Failed>
        requires { 0 < length buf.old }
        ensures bound { IfOk result (λ n. n ≤ length buf.old) }
        ensures cause { HasExactCause self.old.faults self.new.faults result }

        ensures counted { OnErr result (self.new.faults ≡ one_more self.old.faults) }
        ensures limits { LimitsRead self.old.waiting self.new.waiting result }
        ensures waits { OnErr result (self.new.waiting ≡ record self.old.waiting { reading = self.new.waiting.reading }) }
        ensures waits_later { OnErr result (self.old.waiting.reading ≤ self.new.waiting.reading) }
        ensures end { IfOk result (λ n. n ≡ 0 → self.new.ended ≡ true) }
        ensures no_end { IfOk result (λ n. 0 < n → self.new.ended ≡ self.old.ended) }
        ensures end_kept { OnErr result (self.new.ended ≡ self.old.ended) }
    {
        match self.read_in_time(buf) {
            Ok(count) => Ok(count),
            Err(_) => Err(self.failed()),
        }
    }

    fn write(&mut self, piece: &[u8]) -> Result<usize, Failed>
        requires { 0 < length piece.now }
        ensures bound { IfOk result (λ n. (0 < n) × (n ≤ length piece.now)) }
        ensures cause { HasExactCause self.old.faults self.new.faults result }

        ensures counted { OnErr result (self.new.faults ≡ one_more self.old.faults) }
        ensures limits { LimitsWrite self.old.waiting self.new.waiting result }
        ensures waits { OnErr result (self.new.waiting ≡ record self.old.waiting { writing = self.new.waiting.writing }) }
        ensures waits_later { OnErr result (self.old.waiting.writing ≤ self.new.waiting.writing) }
        ensures end_kept { self.new.ended ≡ self.old.ended }
    {
        match self.write_in_time(piece) {
            Ok(count) => Ok(count),
            Err(_) => Err(self.failed()),
        }
    }
}

impl<'a, R: Clock> Drop for LobbyLink<'a, R> {
    fn drop(mut self) {
        if self.faults == 0 && !self.ended {
            let _ = self.take_rest();
        }
        let LobbyLink {
            rt: _,
            lobby: _,
            stream: _,
            waiting: _,
            may_wait: _,
            has_written: _,
            ended: _,
            faults: _,
        } = self;
    }
}

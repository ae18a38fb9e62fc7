//! The real listener and its connections, on this machine's own address. Every wait in here ends by itself.

ghost use Rattle.std.specs.Prelude.{◌≡◌, ℕ, ◌≤◌, ◌<◌, ◌↔◌, Contains, IfOk, IsTrue, length, string_bytes};
ghost use Rattle.venue_ports.specs.Sockets.{IsGone, gone_codes, gone_kinds};

use std::alloc::Global;
use std::io::{ErrorKind, Read, Write};
use std::net::{Net, Shutdown, SocketAddr, TcpListener, TcpStream};
use std::process::Abort;
use std::sync::atomic::{AtomicU64, Ordering};
use std::test::Fail;
use std::time::{Clock, Duration, Instant};
use std::{io, thread};
use venue_ports::{Doors, Failed, Stream, TcpDoors, TcpLink};

// A clock that goes nine seconds further whenever it is read.
#[derive(Drop)]
struct NineSeconds(AtomicU64);

impl Clock for NineSeconds {
    fn monotonic(&self) -> io::Result<Duration> {
        let readings = self.0.fetch_add(1, Ordering::SeqCst);
        Ok(Duration::from_secs(readings.saturating_mul(9)))
    }

    fn since_1970(&self) -> io::Result<Duration> {
        self.monotonic()
    }
}

// A clock that can't be read.
#[derive(Drop)]
struct NoClock;

impl Clock for NoClock {
    fn monotonic(&self) -> io::Result<Duration> {
        Err(io::Error::from(ErrorKind::Other))
    }

    fn since_1970(&self) -> io::Result<Duration> {
        self.monotonic()
    }
}

// The network as it is, a clock beside it, and whether a listener refuses to wait for a connection.
#[derive(Drop)]
struct Beside<'a, R, C> {
    rt: &'a R,
    clock: C,
    refuses: bool,
}

impl<'a, R: Net<Listener = TcpListener, Stream = TcpStream>, C> Net for Beside<'a, R, C> {
    type Stream = TcpStream;

    type Listener = TcpListener;

    fn bind(&self, address: SocketAddr) -> io::Result<TcpListener> {
        let listener = self.rt.bind(address)?;
        listener.set_nonblocking(self.refuses)?;
        Ok(listener)
    }

    fn connect(&self, address: SocketAddr) -> io::Result<TcpStream> {
        self.rt.connect(address)
    }
}

impl<'a, R, C: Clock> Clock for Beside<'a, R, C> {
    fn monotonic(&self) -> io::Result<Duration> {
        self.clock.monotonic()
    }

    fn since_1970(&self) -> io::Result<Duration> {
        self.clock.since_1970()
    }
}

// A listener on a free port, and its address.
fn listen<R: Net<Listener = TcpListener, Stream = TcpStream>>(
    rt: &R,
    alloc: Global,
) -> io::Result<(TcpListener, String)>
    ensures { IfOk result (λ l. length (string_bytes l.1) ≤ 256) }
{
    let listener = TcpListener::bind(rt, "127.0.0.1:0")?;
    let address = format!(in alloc; "{}", listener.local_addr()?)?;
    if address.len() > 256 {
        return Err(io::Error::from(ErrorKind::Other));
    }
    Ok((listener, address))
}

// An address where nobody listens.
fn free_address<R: Net<Listener = TcpListener, Stream = TcpStream>>(
    rt: &R,
    alloc: Global,
) -> io::Result<String>
    ensures { IfOk result (λ a. length (string_bytes a) ≤ 256) }
{
    let (_, address) = listen(rt, alloc)?;
    Ok(address)
}

// What may be handed to another thread.
fn for_any_thread<T: Send>(value: T) -> T
    ensures { result ≡ value }
{
    value
}

// A client at an address.
fn client_of<R: Net<Stream = TcpStream>>(rt: &R, address: &str) -> io::Result<TcpStream> {
    let client = TcpStream::connect(rt, address)?;
    client.set_read_timeout(Some(Duration::from_secs(5)))?;
    Ok(client)
}

// Both ends of a connection: of the one who accepted it, and of the one who asked for it.
fn connection<'a, R: Net<Listener = TcpListener, Stream = TcpStream> + Clock + Sync>(
    rt: &'a R,
    alloc: Global,
) -> io::Result<(TcpLink<'a, R>, TcpStream)> {
    let address = free_address(rt, alloc)?;
    let mut doors = TcpDoors::new(rt);
    if doors.bind(address.as_str()).is_err() {
        return Err(io::Error::from(ErrorKind::AddrInUse));
    }
    let client = client_of(rt, address.as_str())?;
    match doors.accept() {
        Ok(link) => Ok((link, client)),
        Err(_) => Err(io::Error::from(ErrorKind::Other)),
    }
}

// A client sends a text, which is read in one piece and written back.
fn give_back<L: Stream>(
    rt: &impl Abort,
    link: &mut L,
    client: &mut TcpStream,
    text: &[u8],
) -> Result<(), Fail>
    requires { 0 < length text.now }
{
    let mut buf = [0; 64];
    client.write_all(text)?;
    assert!(rt; link.read(&mut buf) == Ok(text.len()));
    assert!(rt; buf.get(..text.len()) == Some(text));
    assert!(rt; link.write(text) == Ok(text.len()));
    Ok(())
}

// A client sends a byte, and gets two that are written one after the other.
fn answer_twice<L: Stream>(
    rt: &impl Abort,
    link: &mut L,
    client: &mut TcpStream,
) -> Result<(), Fail> {
    let mut buf = [0; 64];
    client.write_all(b"?")?;
    assert!(rt; link.read(&mut buf) == Ok(1));
    assert!(rt; link.write(b"a") == Ok(1));
    assert!(rt; link.write(b"b") == Ok(1));
    client.read_exact(&mut buf[..2])?;
    Ok(())
}

// A second write that waited for the answer to the first would wait 40 milliseconds in most of these rounds.
fn answer_at_once<L: Stream, R: Abort + Clock>(
    rt: &R,
    link: &mut L,
    client: &mut TcpStream,
) -> Result<(), Fail> {
    let start = Instant::now(rt)?;
    for _ in 0..25 {
        answer_twice(rt, link, client)?;
    }
    assert!(rt; start.elapsed(rt)? < Duration::from_millis(500));
    Ok(())
}

// All that is asked of a connection.
fn talk<L: Stream, R: Abort + Clock>(
    rt: &R,
    link: &mut L,
    client: &mut TcpStream,
) -> Result<(), Fail> {
    give_back(rt, link, client, b"twenty bytes of text")?;
    give_back(rt, link, client, b", seventeen more.")?;
    let mut back = [0; 37];
    client.read_exact(&mut back)?;
    assert!(rt; back.as_slice() == b"twenty bytes of text, seventeen more.".as_slice());
    answer_at_once(rt, link, client)
}

// The same, and its end.
fn exchange<L: Stream, R: Abort + Clock>(
    rt: &R,
    link: &mut L,
    mut client: TcpStream,
) -> Result<(), Fail> {
    talk(rt, link, &mut client)?;
    drop(client);
    assert!(rt; link.read(&mut [0; 64]) == Ok(0));
    assert!(rt; link.fault_count() == 0);
    Ok(())
}

#[test]
fn a_listener_takes_a_connection_and_its_bytes(rt: HostRuntime) -> Result<(), Fail> {
    let address = free_address(&rt, rt.alloc())?;
    let mut doors = for_any_thread(TcpDoors::new(&rt));
    doors.bind(address.as_str()).expect(&rt, "a bind");
    let client = client_of(&rt, address.as_str())?;
    let mut link = for_any_thread(doors.accept().expect(&rt, "a connection"));
    exchange(&rt, &mut link, client)?;
    assert!(rt; doors.fault_count() == 0);
    Ok(())
}

// Doors where another listens, until that one is let go.
fn refuse_while_taken<R: Abort + Net<Listener = TcpListener, Stream = TcpStream> + Clock + Sync>(
    rt: &R,
    listener: TcpListener,
    address: &str,
)
    requires { length address.now ≤ 256 }
{
    let mut doors = TcpDoors::new(rt);
    assert!(rt; doors.bind(address).is_err());
    assert!(rt; doors.fault_count() == 1);
    drop(listener);
    assert!(rt; doors.bind(address).is_ok());
    assert!(rt; doors.fault_count() == 1);
}

// Doors whose listener refuses to wait.
fn refuse_to_wait<R: Abort + Net<Listener = TcpListener, Stream = TcpStream> + Sync>(
    rt: &R,
    address: &str,
)
    requires { length address.now ≤ 256 }
{
    let refusing = Beside {
        rt,
        clock: NoClock,
        refuses: true,
    };
    let mut doors = TcpDoors::new(&refusing);
    doors.bind(address).expect(rt, "a bind");
    assert!(rt; doors.accept().is_err());
    assert!(rt; doors.fault_count() == 1);
}

#[test]
fn what_the_system_refuses_is_a_fault(rt: HostRuntime) -> Result<(), Fail> {
    let free = free_address(&rt, rt.alloc())?;
    refuse_to_wait(&rt, free.as_str());
    let (listener, address) = listen(&rt, rt.alloc())?;
    refuse_while_taken(&rt, listener, address.as_str());
    Ok(())
}

// Whether an error of this kind and number is the connection's own, by the definition that an accept is proved to follow.
fn is_gone(kind: ErrorKind, code: Option<i32>) -> bool
    ensures { IsTrue result ↔ IsGone kind code }
{
    let by_kind = has_gone_kind(kind);
    match code {
        Some(code) => by_kind || has_gone_code(code),
        None => by_kind,
    }
}

fn has_gone_kind(kind: ErrorKind) -> bool
    ensures { IsTrue result ↔ Contains gone_kinds kind }
{
    [
        ErrorKind::ConnectionAborted,
        ErrorKind::ConnectionReset,
        ErrorKind::Interrupted,
        ErrorKind::NetworkDown,
        ErrorKind::NetworkUnreachable,
        ErrorKind::HostUnreachable,
    ]
    .contains(&kind)
}

fn has_gone_code(code: i32) -> bool
    ensures { IsTrue result ↔ Contains gone_codes code }
{
    [64, 71, 92, 95, 112].contains(&code)
}

#[test]
fn the_errors_of_a_dead_connection_are_no_fault(rt: HostRuntime) {
    for (code, gone) in [
        (4, true),
        (11, false),
        (12, false),
        (22, false),
        (23, false),
        (24, false),
        (64, true),
        (71, true),
        (92, true),
        (95, true),
        (100, true),
        (101, true),
        (103, true),
        (105, false),
        (112, true),
        (113, true),
    ] {
        let error = io::Error::from_raw_os_error(code);
        assert!(rt; is_gone(error.kind(), error.raw_os_error()) == gone);
    }
}

// What an end told of a wait that had no answer: how long it was, the faults that were counted, and how long the end took.
type Waited = (Duration, u64, Duration);

// A read of a client that sends nothing.
fn read_of_silence<'a, R: Clock>(rt: &R, mut link: TcpLink<'a, R>) -> io::Result<Waited> {
    let start = Instant::now(rt)?;
    let read = link.read(&mut [0; 8]);
    waited(rt, link, start, read)
}

// Writes to a client that reads nothing, until one fails, which alone is timed.
fn writes_to_nobody<'a, R: Clock>(rt: &R, mut link: TcpLink<'a, R>) -> io::Result<Waited> {
    let piece = [0; 4096];
    for _ in 0..10_000 {
        let start = Instant::now(rt)?;
        let write = link.write(&piece);
        if write.is_err() {
            return waited(rt, link, start, write);
        }
    }
    Err(io::Error::from(ErrorKind::Other))
}

// What is told where the call failed.
fn waited<'a, R: Clock>(
    rt: &R,
    link: TcpLink<'a, R>,
    start: Instant,
    call: Result<usize, Failed>,
) -> io::Result<Waited> {
    let wait = start.elapsed(rt)?;
    let faults = link.fault_count();
    if call.is_ok() {
        return Err(io::Error::from(ErrorKind::Other));
    }
    let end = Instant::now(rt)?;
    drop(link);
    Ok((wait, faults, end.elapsed(rt)?))
}

#[test]
fn a_client_that_is_silent_or_reads_nothing_is_a_fault(rt: HostRuntime) -> Result<(), Fail> {
    let (silent, _client) = connection(&rt, rt.alloc())?;
    let (full, _other) = connection(&rt, rt.alloc())?;
    let (read, write) = thread::join(
        &rt,
        || read_of_silence(&rt, silent),
        || writes_to_nobody(&rt, full),
    );
    for (wait, faults, end) in [read?, write?] {
        assert!(rt; wait >= Duration::from_secs(10));
        assert!(rt; wait < Duration::from_secs(20));
        assert!(rt; faults == 1);
        // After a fault nothing is waited for.
        assert!(rt; end < Duration::from_secs(1));
    }
    Ok(())
}

// Five reads, of which the last is past the limit, and a write after three of them, where there is one.
fn read_together<L: Stream>(rt: &impl Abort, link: &mut L, writes: bool) {
    for read in 0..5 {
        if writes && read == 3 {
            assert!(rt; link.write(b"!") == Ok(1));
        }
        let past = read == 4 && !writes;
        let answer = if past { Err(Failed) } else { Ok(1) };
        assert!(rt; link.read(&mut [0; 1]) == answer);
    }
    assert!(rt; link.fault_count() == u64::from(!writes));
}

#[test]
fn reads_together_have_a_limit_that_a_write_starts_anew(rt: HostRuntime) -> Result<(), Fail> {
    for writes in [false, true] {
        let beside = Beside {
            rt: &rt,
            clock: NineSeconds(AtomicU64::new(0)),
            refuses: false,
        };
        let (mut link, mut client) = connection(&beside, rt.alloc())?;
        client.write_all(b"bytes")?;
        read_together(&rt, &mut link, writes);
    }
    Ok(())
}

// Eight writes, of which the last is past the limit, and a read after six of them, which gives a byte or the end.
fn write_together<L: Stream>(rt: &impl Abort, link: &mut L, gives: bool) {
    for write in 0..8 {
        if write == 6 {
            assert!(rt; link.read(&mut [0; 1]) == Ok(usize::from(gives)));
        }
        let past = write == 7 && !gives;
        let answer = if past { Err(Failed) } else { Ok(1) };
        assert!(rt; link.write(b"!") == answer);
    }
    assert!(rt; link.fault_count() == u64::from(!gives));
}

// A client sends a few bytes, or that no more will come.
fn send_or_end(client: &mut TcpStream, gives: bool) -> io::Result<()> {
    if gives {
        client.write_all(b"bytes")
    } else {
        client.shutdown(Shutdown::Write)
    }
}

#[test]
fn writes_together_have_a_limit_that_a_read_starts_anew(rt: HostRuntime) -> Result<(), Fail> {
    for gives in [false, true] {
        let beside = Beside {
            rt: &rt,
            clock: NineSeconds(AtomicU64::new(0)),
            refuses: false,
        };
        let (mut link, mut client) = connection(&beside, rt.alloc())?;
        send_or_end(&mut client, gives)?;
        write_together(&rt, &mut link, gives);
    }
    Ok(())
}

#[test]
fn a_clock_that_cannot_be_read_is_a_fault(rt: HostRuntime) -> Result<(), Fail> {
    let beside = Beside {
        rt: &rt,
        clock: NoClock,
        refuses: false,
    };
    let (mut link, mut client) = connection(&beside, rt.alloc())?;
    client.write_all(b"bytes")?;
    assert!(rt; link.read(&mut [0; 8]) == Err(Failed));
    assert!(rt; link.write(b"!") == Err(Failed));
    assert!(rt; link.fault_count() == 2);
    Ok(())
}

// Sends 100 KiB, and then reads to the end.
fn send_and_read(mut client: TcpStream, alloc: Global) -> io::Result<Vec<u8>> {
    for _ in 0..100 {
        client.write_all(&[b'x'; 1024])?;
    }
    let mut got = Vec::new(alloc);
    client.read_to_end(&mut got)?;
    Ok(got)
}

#[test]
fn a_client_that_still_sends_reads_all_that_was_written(rt: HostRuntime) -> Result<(), Fail> {
    let (mut link, client) = connection(&rt, rt.alloc())?;
    let alloc = rt.alloc();
    let sender = thread::spawn(&rt, move || send_and_read(client, alloc))?;
    assert!(rt; link.write(b"HTTP/1.1 413 Too Large\r\n\r\nno\n") == Ok(29));
    drop(link);
    let got = sender.join(&rt)?;
    assert!(rt; got.as_slice() == b"HTTP/1.1 413 Too Large\r\n\r\nno\n".as_slice());
    Ok(())
}

#[test]
fn a_client_that_stays_is_left_after_a_while(rt: HostRuntime) -> Result<(), Fail> {
    let (link, mut client) = connection(&rt, rt.alloc())?;
    let start = Instant::now(&rt)?;
    drop(link);
    let waited = start.elapsed(&rt)?;
    assert!(rt; waited >= Duration::from_secs(2));
    assert!(rt; waited < Duration::from_secs(4));
    assert!(rt; client.read(&mut [0; 8])? == 0);
    Ok(())
}

//! What the tests share: clocks of their own, and clients.

ghost use Rattle.std.specs.Prelude.{ℕ, ◌≤◌, IfOk, length, string_bytes};

use std::alloc::Global;
use std::fmt::Display;
use std::io;
use std::io::{ErrorKind, Write};
use std::net::{Net, SocketAddr, TcpListener, TcpStream};
use std::sync::Wait;
use std::sync::atomic::{AtomicU64, Ordering};
use std::time::{Clock, Duration};
use venue_ports::Doors;
use venue_sockets::{Lobby, LobbyDoors, LobbyLink};

/// A whole request.
pub(crate) const WHOLE: &[u8] = b"GET /v1/version HTTP/1.1\r\nhost: a\r\n\r\n";

/// A clock that goes so many seconds further whenever it is read.
#[derive(Drop)]
pub(crate) struct Steps {
    readings: AtomicU64,
    seconds: u64,
}

impl Steps {
    pub(crate) fn of(seconds: u64) -> Steps {
        Steps {
            readings: AtomicU64::new(0),
            seconds,
        }
    }
}

impl Clock for Steps {
    fn monotonic(&self) -> io::Result<Duration> {
        let readings = self.readings.fetch_add(1, Ordering::SeqCst);
        Ok(Duration::from_secs(readings.saturating_mul(self.seconds)))
    }

    fn since_1970(&self) -> io::Result<Duration> {
        self.monotonic()
    }
}

/// A clock that is set by hand, in seconds. At `NO_TIME` it can't be read.
#[derive(Drop)]
pub(crate) struct ByHand(AtomicU64);

pub(crate) const NO_TIME: u64 = u64::MAX;

impl ByHand {
    pub(crate) fn at(seconds: u64) -> ByHand {
        ByHand(AtomicU64::new(seconds))
    }

    pub(crate) fn set(&self, seconds: u64) {
        self.0.store(seconds, Ordering::SeqCst);
    }
}

impl Clock for ByHand {
    fn monotonic(&self) -> io::Result<Duration> {
        match self.0.load(Ordering::SeqCst) {
            NO_TIME => Err(io::Error::from(ErrorKind::Other)),
            seconds => Ok(Duration::from_secs(seconds)),
        }
    }

    fn since_1970(&self) -> io::Result<Duration> {
        self.monotonic()
    }
}

/// The system as it is, with a clock beside it.
#[derive(Drop)]
pub(crate) struct Beside<'a, R, C> {
    pub(crate) rt: &'a R,
    pub(crate) clock: C,
}

impl<'a, R: Net<Listener = TcpListener, Stream = TcpStream>, C> Net for Beside<'a, R, C> {
    type Stream = TcpStream;

    type Listener = TcpListener;

    fn bind(&self, address: SocketAddr) -> io::Result<TcpListener> {
        self.rt.bind(address)
    }

    fn connect(&self, address: SocketAddr) -> io::Result<TcpStream> {
        self.rt.connect(address)
    }
}

impl<'a, R, C: Clock> Clock for Beside<'a, R, C> {
    fn monotonic(&self) -> io::Result<Duration> {
        self.clock.monotonic()
    }

    fn since_1970(&self) -> io::Result<Duration> {
        self.clock.since_1970()
    }
}

impl<'a, R: Eprint, C> Eprint for Beside<'a, R, C> {
    fn eprint<D: Display + Drop>(&self, value: D) -> io::Result<()> {
        self.rt.eprint(value)
    }

    fn eprintln<D: Display + Drop>(&self, value: D) -> io::Result<()> {
        self.rt.eprintln(value)
    }
}

impl<'a, R: Wait, C> Wait for Beside<'a, R, C> {}

/// An address where nobody listens.
pub(crate) fn free_address<R: Net<Listener = TcpListener, Stream = TcpStream>>(
    rt: &R,
    alloc: Global,
) -> io::Result<String>
    ensures { IfOk result (λ a. length (string_bytes a) ≤ 256) }
{
    let listener = TcpListener::bind(rt, "127.0.0.1:0")?;
    let address = format!(in alloc; "{}", listener.local_addr()?)?;
    if address.len() > 256 {
        return Err(io::Error::from(ErrorKind::Other));
    }
    Ok(address)
}

/// A client that has sent this, and waits for at most five seconds for what comes.
pub(crate) fn client<R: Net<Listener = TcpListener, Stream = TcpStream>>(
    rt: &R,
    address: &str,
    sent: &[u8],
) -> io::Result<TcpStream> {
    let mut client = TcpStream::connect(rt, address)?;
    client.set_read_timeout(Some(Duration::from_secs(5)))?;
    client.write_all(sent)?;
    Ok(client)
}

/// A connection that a worker has, with its client, who has sent a whole request.
pub(crate) struct Pair<'a, R: Clock> {
    pub(crate) link: LobbyLink<'a, R>,
    pub(crate) client: TcpStream,
}

/// A pair, while so many others wait in the lobby with a whole request each.
pub(crate) fn accepted_pair<
    'a,
    R: Net<Listener = TcpListener, Stream = TcpStream> + Clock + Eprint + Wait + Sync,
>(
    rt: &'a R,
    lobby: &'a Lobby,
    alloc: Global,
    others: &mut Vec<TcpStream>,
    count: usize,
) -> io::Result<Pair<'a, R>> {
    let address = free_address(rt, alloc)?;
    let mut doors = LobbyDoors::new(rt, lobby);
    if doors.bind(address.as_str()).is_err() {
        return Err(io::Error::from(ErrorKind::AddrInUse));
    }
    let first = client(rt, address.as_str(), WHOLE)?;
    for _ in 0..count {
        others.push(client(rt, address.as_str(), WHOLE)?)?;
    }
    match doors.accept() {
        Ok(link) => Ok(Pair {
            link,
            client: first,
        }),
        Err(_) => Err(io::Error::from(ErrorKind::Other)),
    }
}

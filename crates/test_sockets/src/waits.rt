//! How long a connection keeps a worker, by who waits behind.

use crate::outside::{Beside, ByHand, NO_TIME, Pair, Steps, WHOLE, accepted_pair};
use std::io::{ErrorKind, Read, Write};
use std::net::{Shutdown, TcpStream};
use std::test::Fail;
use std::time::{Clock, Duration, Instant};
use std::{io, thread};
use venue_ports::{Failed, Stream};
use venue_sockets::{Lobby, LobbyLink};

#[test]
fn reads_together_have_a_limit_that_a_write_starts_anew(rt: HostRuntime) -> Result<(), Fail> {
    // Each call takes a step from its beginning to its end, and each but the first of its kind one more, since it looks who waits behind.
    // So the reads take 9, 18, 18 seconds, and with the third the 30 are past.
    for writes in [false, true] {
        let beside = Beside {
            rt: &rt,
            clock: Steps::of(9),
        };
        let lobby = Lobby::new(rt.alloc())?;
        let Pair {
            mut link,
            client: _client,
        } = accepted_pair(&beside, &lobby, rt.alloc(), &mut Vec::new(rt.alloc()), 0)?;
        for read in 0..4 {
            if writes && read == 3 {
                assert!(rt; link.write(b"!") == Ok(1));
            }
            let past = read == 3 && !writes;
            let answer = if past { Err(Failed) } else { Ok(1) };
            assert!(rt; link.read(&mut [0; 1]) == answer);
        }
        assert!(rt; link.fault_count() == u64::from(!writes));
    }
    Ok(())
}

#[test]
fn writes_together_have_a_limit_that_a_read_starts_anew(rt: HostRuntime) -> Result<(), Fail> {
    // The writes take 9, 18, 18, 18 seconds, and with the fourth the 60 are past.
    for gives in [false, true] {
        let beside = Beside {
            rt: &rt,
            clock: Steps::of(9),
        };
        let lobby = Lobby::new(rt.alloc())?;
        let Pair { mut link, client } = accepted_pair(
            &beside,
            &lobby,
            rt.alloc(),
            &mut Vec::new(rt.alloc()),
            0,
        )?;
        if !gives {
            client.shutdown(Shutdown::Write)?;
            assert!(rt; link.read(&mut [0; 64]) == Ok(WHOLE.len()));
        }
        for write in 0..5 {
            if write == 4 {
                assert!(rt; link.read(&mut [0; 1]) == Ok(usize::from(gives)));
            }
            let past = write == 4 && !gives;
            let answer = if past { Err(Failed) } else { Ok(1) };
            assert!(rt; link.write(b"!") == answer);
        }
        assert!(rt; link.fault_count() == u64::from(!gives));
    }
    Ok(())
}

#[test]
fn one_read_of_silence_ends_after_ten_seconds(rt: HostRuntime) -> Result<(), Fail> {
    let beside = Beside {
        rt: &rt,
        clock: Steps::of(4),
    };
    let lobby = Lobby::new(rt.alloc())?;
    let Pair {
        mut link,
        client: _client,
    } = accepted_pair(&beside, &lobby, rt.alloc(), &mut Vec::new(rt.alloc()), 0)?;
    assert!(rt; link.read(&mut [0; 64]) == Ok(WHOLE.len()));
    assert!(rt; link.write(b"!") == Ok(1));
    assert!(rt; link.read(&mut [0; 64]) == Err(Failed));
    assert!(rt; link.fault_count() == 1);
    Ok(())
}

#[test]
fn a_clock_that_cannot_be_read_is_a_fault(rt: HostRuntime) -> Result<(), Fail> {
    let beside = Beside {
        rt: &rt,
        clock: ByHand::at(0),
    };
    let lobby = Lobby::new(rt.alloc())?;
    let Pair {
        mut link,
        client: _client,
    } = accepted_pair(&beside, &lobby, rt.alloc(), &mut Vec::new(rt.alloc()), 0)?;
    beside.clock.set(NO_TIME);
    assert!(rt; link.read(&mut [0; 8]) == Err(Failed));
    assert!(rt; link.write(b"!") == Err(Failed));
    assert!(rt; link.fault_count() == 2);
    Ok(())
}

// Reads the request, and then silence, for which it tells how long it waited.
fn read_of_silence<'a, R: Clock>(rt: &R, link: &mut LobbyLink<'a, R>) -> io::Result<Duration> {
    if link.read(&mut [0; 64]) != Ok(WHOLE.len()) {
        return Err(io::Error::from(ErrorKind::Other));
    }
    let start = Instant::now(rt)?;
    match link.read(&mut [0; 64]) {
        Ok(_) => Err(io::Error::from(ErrorKind::Other)),
        Err(_) => start.elapsed(rt),
    }
}

// Writes to a client that reads nothing until a write fails, and tells how long that took in all.
fn writes_to_nobody<'a, R: Clock>(rt: &R, link: &mut LobbyLink<'a, R>) -> io::Result<Duration> {
    let piece = [0; 4096];
    let start = Instant::now(rt)?;
    for _ in 0..10_000 {
        if link.write(&piece).is_err() {
            return start.elapsed(rt);
        }
    }
    Err(io::Error::from(ErrorKind::Other))
}

#[test]
fn who_pauses_gives_way_to_others(rt: HostRuntime) -> Result<(), Fail> {
    // How many wait, and the least and the most milliseconds of the wait.
    for (count, least, most) in [(1, 50, 5_000), (7, 50, 5_000), (8, 0, 5_000)] {
        let mut others = Vec::new(rt.alloc());
        let lobby = Lobby::new(rt.alloc())?;
        let Pair {
            mut link,
            client: _client,
        } = accepted_pair(&rt, &lobby, rt.alloc(), &mut others, count)?;
        let waited = read_of_silence(&rt, &mut link)?;
        assert!(rt; waited >= Duration::from_millis(least));
        assert!(rt; waited < Duration::from_millis(most));
        assert!(rt; link.fault_count() == 1);
    }
    Ok(())
}

#[test]
fn a_crowd_in_front_of_the_doors_is_seen_at_once(rt: HostRuntime) -> Result<(), Fail> {
    // By this clock no time passes, so nothing but a crowd ends the wait.
    let beside = Beside {
        rt: &rt,
        clock: ByHand::at(0),
    };
    let mut others = Vec::new(rt.alloc());
    let lobby = Lobby::new(rt.alloc())?;
    let Pair {
        mut link,
        client: _client,
    } = accepted_pair(&beside, &lobby, rt.alloc(), &mut others, 8)?;
    let start = Instant::now(&rt)?;
    assert!(rt; link.read(&mut [0; 64]) == Ok(WHOLE.len()));
    assert!(rt; link.read(&mut [0; 64]) == Err(Failed));
    assert!(rt; start.elapsed(&rt)? < Duration::from_secs(5));
    Ok(())
}

#[test]
fn who_reads_nothing_gives_way_to_others(rt: HostRuntime) -> Result<(), Fail> {
    for (count, least, most) in [(1, 2_000, 10_000), (8, 200, 1_900)] {
        let mut others = Vec::new(rt.alloc());
        let lobby = Lobby::new(rt.alloc())?;
        let Pair {
            mut link,
            client: _client,
        } = accepted_pair(&rt, &lobby, rt.alloc(), &mut others, count)?;
        let waited = writes_to_nobody(&rt, &mut link)?;
        assert!(rt; waited >= Duration::from_millis(least));
        assert!(rt; waited < Duration::from_millis(most));
        assert!(rt; link.fault_count() == 1);
    }
    Ok(())
}

// Says something a while later.
fn say_later(mut client: TcpStream) -> io::Result<TcpStream> {
    client.set_read_timeout(Some(Duration::from_millis(300)))?;
    let _ = client.read(&mut [0; 1]);
    client.write_all(b"later")?;
    Ok(client)
}

#[test]
fn two_do_not_give_way_to_one(rt: HostRuntime) -> Result<(), Fail> {
    let mut others = Vec::new(rt.alloc());
    let lobby = Lobby::new(rt.alloc())?;
    let Pair {
        link: mut first,
        client: _client,
    } = accepted_pair(&rt, &lobby, rt.alloc(), &mut others, 0)?;
    let Pair {
        link: mut second,
        client,
    } = accepted_pair(&rt, &lobby, rt.alloc(), &mut others, 1)?;
    assert!(rt; second.read(&mut [0; 64]) == Ok(WHOLE.len()));
    let waited = read_of_silence(&rt, &mut first)?;
    assert!(rt; waited < Duration::from_secs(5));
    let later = thread::spawn(&rt, move || say_later(client))?;
    assert!(rt; second.read(&mut [0; 64]) == Ok(5));
    let _client = later.join(&rt)?;
    Ok(())
}

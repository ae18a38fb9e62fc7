//! Which connections a worker gets, and which are closed without one.

ghost use Rattle.std.specs.Prelude.{◌≡◌, ◌≤◌, length, string_bytes};

use crate::outside::{Beside, ByHand, NO_TIME, WHOLE, client, free_address};
use std::io::{ErrorKind, Read, Write};
use std::net::{Shutdown, TcpStream};
use std::test::Fail;
use std::time::Duration;
use venue_ports::{Doors, Stream};
use venue_sockets::{Lobby, LobbyDoors};

// What may be handed to another thread.
fn for_any_thread<T: Send>(value: T) -> T
    ensures { result ≡ value }
{
    value
}

#[test]
fn a_worker_gets_what_it_can_act_on(rt: HostRuntime) -> Result<(), Fail> {
    let address = free_address(&rt, rt.alloc())?;
    let lobby = Lobby::new(rt.alloc())?;
    let mut doors = LobbyDoors::new(&rt, &lobby);
    doors.bind(address.as_str()).expect(&rt, "a bind");
    let mut long = Vec::from_slice(
        rt.alloc(),
        b"POST /v1/closures HTTP/1.1\r\nhost: a\r\ncontent-length: 65536\r\n\r\n",
    )?;
    long.resize(16_384, b'x')?;
    let mut buf = [0; 20_000];
    for (sent, ends) in [
        (WHOLE, false),
        (b"GET /v1/version HTTP/1.1\r\n\r\n".as_slice(), false),
        (b"\r\nno request\n\n".as_slice(), false),
        (long.as_slice(), false),
        (b"GET /v1/vers".as_slice(), true),
    ] {
        let mut client = client(&rt, address.as_str(), sent)?;
        if ends {
            client.shutdown(Shutdown::Write)?;
        }
        let mut link = for_any_thread(doors.accept().expect(&rt, "a connection"));
        assert!(rt; link.read(&mut buf) == Ok(sent.len()));
        assert!(rt; &buf[..sent.len()] == sent);
        assert!(rt; link.write(b"!") == Ok(1));
        assert!(rt; client.read(&mut buf)? == 1);
        if ends {
            assert!(rt; link.read(&mut buf) == Ok(0));
        }
        drop(client);
        assert!(rt; link.fault_count() == 0);
    }
    assert!(rt; doors.fault_count() == 0);
    Ok(())
}

// Whether the other side has closed a connection on which it has sent nothing: `None` where it hasn't within the client's time.
fn is_let_go(mut client: &TcpStream) -> Option<bool> {
    match client.read(&mut [0; 8]) {
        Ok(count) => Some(count == 0),
        Err(error) => match error.kind() {
            ErrorKind::ConnectionReset => Some(true),
            ErrorKind::WouldBlock | ErrorKind::TimedOut => None,
            _ => Some(false),
        },
    }
}

#[test]
fn who_says_too_little_is_closed_and_not_counted(rt: HostRuntime) -> Result<(), Fail> {
    let address = free_address(&rt, rt.alloc())?;
    let beside = Beside {
        rt: &rt,
        clock: ByHand::at(100),
    };
    let lobby = Lobby::new(rt.alloc())?;
    let mut doors = LobbyDoors::new(&beside, &lobby);
    doors.bind(address.as_str()).expect(&rt, "a bind");
    let ended = client(&rt, address.as_str(), b"")?;
    ended.shutdown(Shutdown::Write)?;
    let silent = client(&rt, address.as_str(), b"")?;
    let part = client(&rt, address.as_str(), b"GET /v1/version HTTP/1.1\r\n")?;
    silent.set_read_timeout(Some(Duration::from_millis(50)))?;
    part.set_read_timeout(Some(Duration::from_millis(50)))?;
    for (seconds, silent_is, part_is) in [
        (100, None, None),
        (129, None, None),
        (130, Some(true), Some(true)),
    ] {
        beside.clock.set(seconds);
        let whole = client(&rt, address.as_str(), WHOLE)?;
        let link = doors.accept().expect(&rt, "a connection");
        assert!(rt; is_let_go(&ended) == Some(true));
        assert!(rt; is_let_go(&silent) == silent_is);
        assert!(rt; is_let_go(&part) == part_is);
        drop(whole);
        drop(link);
    }
    assert!(rt; doors.fault_count() == 0);
    Ok(())
}

#[test]
fn who_becomes_ready_later_comes_later(rt: HostRuntime) -> Result<(), Fail> {
    let address = free_address(&rt, rt.alloc())?;
    let lobby = Lobby::new(rt.alloc())?;
    let mut doors = LobbyDoors::new(&rt, &lobby);
    doors.bind(address.as_str()).expect(&rt, "a bind");
    let mut slow = client(&rt, address.as_str(), &WHOLE[..36])?;
    let quick = client(&rt, address.as_str(), b"\n\nGET / HTTP/1.0\n\n")?;
    let mut buf = [0; 64];
    let mut link = doors.accept().expect(&rt, "a connection");
    assert!(rt; link.read(&mut buf) == Ok(18));
    drop(quick);
    slow.write_all(&WHOLE[36..])?;
    let mut link = doors.accept().expect(&rt, "a connection");
    assert!(rt; link.read(&mut buf) == Ok(37));
    drop(slow);
    Ok(())
}

#[test]
fn who_waits_is_served_while_others_come(rt: HostRuntime) -> Result<(), Fail> {
    let address = free_address(&rt, rt.alloc())?;
    let lobby = Lobby::new(rt.alloc())?;
    let mut doors = LobbyDoors::new(&rt, &lobby);
    doors.bind(address.as_str()).expect(&rt, "a bind");
    let mut slow = client(&rt, address.as_str(), &WHOLE[..36])?;
    let quick = b"\n\nGET / HTTP/1.0\n\n".as_slice();
    let mut others = Vec::new(rt.alloc());
    others.push(client(&rt, address.as_str(), quick)?)?;
    let mut buf = [0; 64];
    let mut is_served = false;
    for turn in 0..100 {
        // There is one more than was handed out, so somebody is always in front of the doors.
        others.push(client(&rt, address.as_str(), quick)?)?;
        if turn == 1 {
            slow.write_all(&WHOLE[36..])?;
        }
        let mut link = doors.accept().expect(&rt, "a connection");
        is_served |= link.read(&mut buf) == Ok(37);
    }
    assert!(rt; is_served);
    Ok(())
}

#[test]
fn what_the_system_refuses_is_a_fault(rt: HostRuntime) -> Result<(), Fail> {
    let address = free_address(&rt, rt.alloc())?;
    let beside = Beside {
        rt: &rt,
        clock: ByHand::at(NO_TIME),
    };
    let (lobby, other) = (Lobby::new(rt.alloc())?, Lobby::new(rt.alloc())?);
    let mut doors = LobbyDoors::new(&beside, &lobby);
    doors.bind(address.as_str()).expect(&rt, "a bind");
    // The address is taken.
    let mut late = LobbyDoors::new(&rt, &other);
    assert!(rt; late.bind(address.as_str()).is_err());
    assert!(rt; late.fault_count() == 1);
    // The clock can't be read.
    let whole = client(&rt, address.as_str(), WHOLE)?;
    assert!(rt; doors.accept().is_err());
    assert!(rt; doors.fault_count() == 1);
    beside.clock.set(0);
    assert!(rt; doors.accept().is_ok());
    assert!(rt; doors.fault_count() == 1);
    drop(whole);
    Ok(())
}

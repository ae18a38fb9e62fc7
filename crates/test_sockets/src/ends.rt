//! What a connection still waits for at its end.

use crate::outside::{Pair, WHOLE, accepted_pair};
use std::alloc::Global;
use std::io::{Read, Write};
use std::net::TcpStream;
use std::test::Fail;
use std::time::{Duration, Instant};
use std::{io, thread};
use venue_ports::Stream;
use venue_sockets::Lobby;

// Sends 100 KiB, and then reads to the end.
fn send_and_read(mut client: TcpStream, alloc: Global) -> io::Result<Vec<u8>> {
    for _ in 0..100 {
        client.write_all(&[b'x'; 1024])?;
    }
    let mut got = Vec::new(alloc);
    client.read_to_end(&mut got)?;
    Ok(got)
}

#[test]
fn a_client_that_still_sends_reads_all_that_was_written(rt: HostRuntime) -> Result<(), Fail> {
    let lobby = Lobby::new(rt.alloc())?;
    let Pair { mut link, client } = accepted_pair(
        &rt,
        &lobby,
        rt.alloc(),
        &mut Vec::new(rt.alloc()),
        0,
    )?;
    let alloc = rt.alloc();
    assert!(rt; link.read(&mut [0; 64]) == Ok(WHOLE.len()));
    let sender = thread::spawn(&rt, move || send_and_read(client, alloc))?;
    assert!(rt; link.write(b"HTTP/1.1 413 Too Large\r\n\r\nno\n") == Ok(29));
    drop(link);
    let got = sender.join(&rt)?;
    assert!(rt; got.as_slice() == b"HTTP/1.1 413 Too Large\r\n\r\nno\n".as_slice());
    Ok(())
}

#[test]
fn a_client_that_stays_is_left_at_once_where_others_wait(rt: HostRuntime) -> Result<(), Fail> {
    // How many wait, and the least and the most milliseconds until it is left.
    for (count, least, most) in [(0, 2_000, 10_000), (1, 0, 1_500), (8, 0, 1_500)] {
        let mut others = Vec::new(rt.alloc());
        let lobby = Lobby::new(rt.alloc())?;
        let Pair {
            mut link,
            mut client,
        } = accepted_pair(&rt, &lobby, rt.alloc(), &mut others, count)?;
        assert!(rt; link.read(&mut [0; 64]) == Ok(WHOLE.len()));
        let start = Instant::now(&rt)?;
        drop(link);
        let waited = start.elapsed(&rt)?;
        assert!(rt; waited >= Duration::from_millis(least));
        assert!(rt; waited < Duration::from_millis(most));
        assert!(rt; client.read(&mut [0; 8])? == 0);
    }
    Ok(())
}

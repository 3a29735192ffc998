//! `sc_sockets`: a worker and its clients on a port that the system picks. One thread is all of them.

use sc_collection::Trail;
use sc_io::{Sink, Source};
use sc_session::{Listener, Station};
use sc_sockets::{Port, TcpAcceptor, TcpStation};
use std::io;
use std::io::{ErrorKind, Write};
use std::net::TcpStream;
use std::rt::Clock;
use std::sync::Arc;
use std::sync::atomic::{AtomicU64, Ordering};
use std::test::Fail;
use std::time::Duration;

// What the next read answers: how many bytes, or nothing where it fails.
fn read_count<S: Source>(source: &mut S) -> Option<usize> {
    let mut into = [0; 64];
    source.read(&mut into).ok()
}

#[test]
fn a_client_is_answered_and_gives_way_to_another(rt: HostRuntime) -> Result<(), Fail> {
    let alloc = rt.alloc();
    let port = Port::open(&rt, 0)?;
    let address = port.address()?;
    let mut acceptor = TcpAcceptor::new(rt, alloc, Some(Arc::new(alloc, port)?));
    let mut trail = Trail::new(alloc)?;

    let mut client = TcpStream::connect(&rt, address)?;
    client.write_all(b"ask")?;
    let Ok(Some(mut link)) = acceptor.accept() else {
        return Err(Fail::from("nothing accepted"));
    };
    assert_eq!(rt; read_count(&mut link.source), Some(3));
    assert!(rt; link.sink.write(b"answer").is_ok());

    let _another = TcpStream::connect(&rt, address)?;
    assert_eq!(rt; read_count(&mut link.source), Some(0));
    acceptor.close(link, &mut trail);
    assert_eq!(rt; io::read_to_string(alloc, client)?.as_str(), "answer");
    Ok(())
}

// A machine whose clock has gone on by a minute each time that it is read.
#[derive(Drop)]
struct Leaps(AtomicU64);

impl Clock for Leaps {
    fn monotonic(&self) -> io::Result<Duration> {
        let minutes = self.0.fetch_add(1, Ordering::SeqCst);
        Ok(Duration::from_secs(minutes.min(60) * 60))
    }

    fn since_1970(&self) -> io::Result<Duration> {
        Err(io::Error::from(ErrorKind::Unsupported))
    }
}

#[test]
fn a_client_that_says_nothing_is_given_up(rt: HostRuntime) -> Result<(), Fail> {
    let alloc = rt.alloc();
    let leaps = Leaps(AtomicU64::new(0));
    let port = Port::open(&rt, 0)?;
    let address = port.address()?;
    let mut acceptor = TcpAcceptor::new(&leaps, alloc, Some(Arc::new(alloc, port)?));

    let _client = TcpStream::connect(&rt, address)?;
    let Ok(Some(mut link)) = acceptor.accept() else {
        return Err(Fail::from("nothing accepted"));
    };
    assert_eq!(rt; read_count(&mut link.source), None);
    assert_eq!(rt; link.source.faults.count(), 1);
    Ok(())
}

#[test]
fn a_write_to_a_client_that_is_gone_fails(rt: HostRuntime) -> Result<(), Fail> {
    let alloc = rt.alloc();
    let port = Port::open(&rt, 0)?;
    let address = port.address()?;
    let mut acceptor = TcpAcceptor::new(rt, alloc, Some(Arc::new(alloc, port)?));

    drop(TcpStream::connect(&rt, address)?);
    let Ok(Some(mut link)) = acceptor.accept() else {
        return Err(Fail::from("nothing accepted"));
    };
    let failed = (0..100).any(|_| link.sink.write(b"answer").is_err());
    assert!(rt; failed);
    Ok(())
}

#[test]
fn a_station_opens_a_port_and_takes_a_crew_back(rt: HostRuntime) -> Result<(), Fail> {
    let alloc = rt.alloc();
    let mut station = TcpStation::new(alloc, rt);
    assert!(rt; station.open(0).is_ok());
    let crew = station.crew(alloc, 3)?;
    station.back(3, crew);
    Ok(())
}

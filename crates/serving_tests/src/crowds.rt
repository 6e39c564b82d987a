//! Many connections of four workers, over loopback.
use crate::clients::{all_read, all_send, crowd, free_port};
use crate::served::served;
use crate::slow_gate::SlowGate;
use net_edge::{Host, HostOutside, TcpDoor};
use side_world::{FreeGate, Gate};
use sidecar_serving::End;
use std::alloc::Global;
use std::io;
use std::net::{Net, TcpListener, TcpStream};
use std::sync::Wait;
use std::test::Fail;
use std::thread::{Threads, join, sleep};
use std::time::{Clock, Duration};

const SAVE: &[u8] =
    b"POST /v1.0/state/statestore HTTP/1.1\r\nHost: a\r\nContent-Length: 23\r\n\r\n[{\"key\":\"k\",\"value\":1}]";

const SHUTDOWN: &[u8] = b"POST /v1.0/shutdown HTTP/1.1\r\nHost: a\r\nContent-Length: 0\r\n\r\n";

const DONE: &[u8] = b"HTTP/1.1 204 No Content\r\n";

const SAVED: &[u8] = b"HTTP/1.1 204 No Content\r\n\r\n";

/// Serves at this port by four workers, and answers whether that ended by a shutdown. A thread's closure has to hold what speaks of connections, as a door beside does.
fn is_served<G: Gate + Sync, R: Host + Threads + Send + Sync>(
    rt: R,
    alloc: Global,
    _beside: &TcpDoor,
    port: u16,
    gate: &G,
) -> bool {
    let Ok(mut outside) = HostOutside::new(rt) else {
        return false;
    };
    served(&rt, alloc, port, 4, gate, &mut outside) == Some(End::Done)
}

/// Asks for a shutdown, and answers whether it is granted.
fn shut_down<R: Net<Listener = TcpListener, Stream = TcpStream> + Clock>(
    rt: &R,
    alloc: Global,
    port: u16,
) -> io::Result<bool> {
    let mut clients = crowd(rt, alloc, port, 1)?;
    all_send(&mut clients, SHUTDOWN)?;
    Ok(all_read(&mut clients, DONE)? == 1)
}

/// How many saves of 200 connections are answered, each of which makes 50.
fn fifty_each<R: Net<Listener = TcpListener, Stream = TcpStream> + Clock>(
    rt: &R,
    alloc: Global,
    port: u16,
) -> io::Result<u32> {
    let mut clients = crowd(rt, alloc, port, 200)?;
    let mut answered = 0u32;
    for _ in 0..50u32 {
        all_send(&mut clients, SAVE)?;
        answered = answered.saturating_add(all_read(&mut clients, SAVED)?);
    }
    Ok(answered)
}

/// How many of four saves are answered of which the second half comes 300 milliseconds behind the first.
fn in_halves<R: Net<Listener = TcpListener, Stream = TcpStream> + Clock>(
    rt: &R,
    alloc: Global,
    port: u16,
) -> io::Result<u32> {
    let mut clients = crowd(rt, alloc, port, 4)?;
    let (first, second) = SAVE.split_at(40);
    all_send(&mut clients, first)?;
    sleep(rt, Duration::from_millis(300));
    all_send(&mut clients, second)?;
    all_read(&mut clients, SAVED)
}

/// Both, and then a shutdown.
fn load(rt: &HostRuntime, _beside: &TcpDoor, port: u16) -> (u32, u32) {
    let answered = fifty_each(rt, rt.alloc(), port);
    let halves = in_halves(rt, rt.alloc(), port);
    match shut_down(rt, rt.alloc(), port) {
        Ok(true) => (answered.unwrap_or(0), halves.unwrap_or(0)),
        Ok(false) | Err(_) => (0, 0),
    }
}

#[test]
fn four_workers_answer_two_hundred_connections_and_requests_in_halves(
    rt: HostRuntime,
) -> Result<(), Fail> {
    let port = free_port(&rt)?;
    let beside = TcpDoor::open(&rt, 0)?;
    let (is_done, answered) = join(
        &rt,
        || is_served(rt, rt.alloc(), &beside, port, &FreeGate),
        || load(&rt, &beside, port),
    );
    assert!(rt; is_done);
    assert_eq!(rt; answered, (10_000, 4));
    Ok(())
}

/// How many of 100 connections are answered while three workers are held at this gate, and of the three connections behind these once it is open.
fn ask_beside<R: Net<Listener = TcpListener, Stream = TcpStream> + Clock>(
    rt: &R,
    alloc: Global,
    port: u16,
    gate: &SlowGate,
) -> io::Result<(u32, u32)> {
    let mut held = crowd(rt, alloc, port, 3)?;
    all_send(&mut held, SAVE)?;
    if !gate.is_full() {
        return Ok((0, 0));
    }
    let mut others = crowd(rt, alloc, port, 100)?;
    all_send(&mut others, SAVE)?;
    let answered = all_read(&mut others, SAVED)?;
    gate.open();
    Ok((answered, all_read(&mut held, SAVED)?))
}

/// The same, and then a shutdown.
fn load_beside(rt: &HostRuntime, _beside: &TcpDoor, port: u16, gate: &SlowGate) -> (u32, u32) {
    let answered = ask_beside(rt, rt.alloc(), port, gate);
    gate.open();
    match shut_down(rt, rt.alloc(), port) {
        Ok(true) => answered.unwrap_or((0, 0)),
        Ok(false) | Err(_) => (0, 0),
    }
}

#[test]
fn a_hundred_go_on_while_three_of_four_workers_are_slow(rt: HostRuntime) -> Result<(), Fail> {
    let port = free_port(&rt)?;
    let beside = TcpDoor::open(&rt, 0)?;
    let gate = SlowGate::new(rt, 3);
    let (is_done, answered) = join(
        &rt,
        || is_served(rt, rt.alloc(), &beside, port, &gate),
        || load_beside(&rt, &beside, port, &gate),
    );
    assert!(rt; is_done);
    assert_eq!(rt; answered, (100, 3));
    Ok(())
}

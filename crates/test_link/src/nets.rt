//! Nets: what their ends carry, and how they are settled.
ghost use Rattle.std.specs.Prelude.{◌≡◌, ◌<◌, false, length};
ghost use Rattle.sv_link.specs.Nets.{AreTwoEnds};

use std::alloc::{AllocError, Global};
use std::process::Abort;
use std::sync::Wait;
use std::test::Fail;
use sv_link::{End, EndRead, EndWrote, Net, Pair, PipeNet, Settle, TcpNet};

/// Reads at most four bytes, and compares the answer and what the four places then hold.
fn reads<E: End>(rt: &impl Abort, end: &mut E, answer: EndRead, holds: [u8; 4])
    requires { (E.told end.old).closed ≡ false }
    ensures side { ((E.told end.new).side ≡ (E.told end.old).side) × ((E.told end.new).pair ≡ (E.told end.old).pair) }
    ensures open { (E.told end.new).closed ≡ false }
{
    let mut into = [9; 4];
    assert!(rt; end.read(&mut into) == answer);
    assert!(rt; into == holds);
}

fn writes<E: End>(rt: &impl Abort, end: &mut E, bytes: &[u8])
    requires open { (E.told end.old).closed ≡ false }
    requires some { 0 < length bytes.now }
    ensures side { ((E.told end.new).side ≡ (E.told end.old).side) × ((E.told end.new).pair ≡ (E.told end.old).pair) }
    ensures open { (E.told end.new).closed ≡ false }
{
    assert!(rt; end.write(bytes) == EndWrote::Took(bytes.len()));
}

/// Bytes go both ways, one that the client writes last is read by no one, and the server's end reads that the client's is closed.
fn exchanges<N: Net>(rt: &impl Abort, net: &mut N) -> Settle {
    let Pair::Made(mut server, mut client) = net.pair() else {
        panic!(rt; "a pair is made");
    };
    writes(rt, &mut client, &[1, 2, 3]);
    reads(rt, &mut server, EndRead::Got(3), [1, 2, 3, 9]);
    writes(rt, &mut server, &[4]);
    reads(rt, &mut client, EndRead::Got(1), [4, 9, 9, 9]);
    client.close();
    reads(rt, &mut server, EndRead::Ended, [9, 9, 9, 9]);
    net.settle(server, client, false)
}

/// One byte is read by no one.
fn leaves_a_byte<N: Net>(rt: &impl Abort, net: &mut N) -> Settle {
    let Pair::Made(server, mut client) = net.pair() else {
        panic!(rt; "a pair is made");
    };
    writes(rt, &mut client, &[5]);
    net.settle(server, client, false)
}

#[test]
fn carries_over_tcp(rt: HostRuntime) -> Result<(), Fail> {
    let mut net = TcpNet::new(rt.alloc(), &rt);
    assert!(rt; exchanges(&rt, &mut net) == Settle::Matched);
    assert!(rt; leaves_a_byte(&rt, &mut net) == Settle::Matched);
    Ok(())
}

/// Writes, and tells whether the bytes were taken.
fn tries_to_write<E: End>(end: &mut E, bytes: &[u8]) -> bool
    requires open { (E.told end.old).closed ≡ false }
    requires some { 0 < length bytes.now }
    ensures side { ((E.told end.new).side ≡ (E.told end.old).side) × ((E.told end.new).pair ≡ (E.told end.old).pair) }
    ensures open { (E.told end.new).closed ≡ false }
{
    match end.write(bytes) {
        EndWrote::Took(_) => true,
        EndWrote::Failed => false,
        EndWrote::Memory => false,
    }
}

/// Reads, and goes on whatever came.
fn tries_to_read<E: End>(end: &mut E)
    requires { (E.told end.old).closed ≡ false }
    ensures side { ((E.told end.new).side ≡ (E.told end.old).side) × ((E.told end.new).pair ≡ (E.told end.old).pair) }
    ensures open { (E.told end.new).closed ≡ false }
{
    match end.read(&mut [0; 4]) {
        EndRead::Got(_) => {}
        EndRead::Ended => {}
        EndRead::Failed => {}
        EndRead::Memory => {}
    }
}

/// One end writes, and the other reads where that was taken.
fn passes<E: End>(from: &mut E, to: &mut E)
    requires open { ((E.told from.old).closed ≡ false) × ((E.told to.old).closed ≡ false) }
    ensures from { ((E.told from.new).side ≡ (E.told from.old).side) × ((E.told from.new).pair ≡ (E.told from.old).pair) }
    ensures to { ((E.told to.new).side ≡ (E.told to.old).side) × ((E.told to.new).pair ≡ (E.told to.old).pair) }
    ensures open { ((E.told from.new).closed ≡ false) × ((E.told to.new).closed ≡ false) }
{
    if tries_to_write(from, &[1, 2]) {
        tries_to_read(to);
    }
}

/// Calls that fail, 0 for none: of the net, of the server's end, of the client's end; and the settling in which a byte is changed.
#[derive(Clone, Copy)]
struct Failing {
    net: u64,
    server: u64,
    client: u64,
    settling: u64,
    cut: bool,
}

/// The client's end writes and then reads, the server's reads and then writes; each goes on where it can. None: no pair was made.
fn settles<R: Wait + Sync>(
    rt: &R,
    alloc: Global,
    failing: Failing,
) -> Result<Option<Settle>, AllocError> {
    let mut net = PipeNet::new(alloc, rt);
    net.fail_at(failing.net)?;
    net.fail_server_at(failing.server)?;
    net.fail_client_at(failing.client)?;
    net.change_at(failing.settling)?;
    let Pair::Made(mut server, mut client) = net.pair() else {
        return Ok(None);
    };
    passes(&mut client, &mut server);
    passes(&mut server, &mut client);
    Ok(Some(net.settle(server, client, failing.cut)))
}

#[test]
fn settles_pipes(rt: HostRuntime) -> Result<(), Fail> {
    let rows = [
        (0, 0, 0, 0, false, Some(Settle::Matched)),
        (1, 0, 0, 0, false, None),
        (2, 0, 0, 0, false, Some(Settle::Failed)),
        (0, 1, 0, 0, false, Some(Settle::Failed)),
        (0, 2, 0, 0, false, Some(Settle::Failed)),
        (0, 0, 1, 0, false, Some(Settle::Failed)),
        (0, 0, 2, 0, false, Some(Settle::Failed)),
        (0, 0, 1, 0, true, Some(Settle::Matched)),
        (0, 0, 3, 0, false, Some(Settle::Matched)),
        (0, 0, 0, 1, false, Some(Settle::Failed)),
        (0, 0, 0, 1, true, Some(Settle::Failed)),
        (0, 0, 0, 2, false, Some(Settle::Matched)),
    ];
    for (net, server, client, settling, cut, expected) in rows {
        let failing = Failing {
            net,
            server,
            client,
            settling,
            cut,
        };
        assert!(rt;
            settles(&rt, rt.alloc(), failing)? == expected,
            "{net} {server} {client} {settling}"
        );
    }
    Ok(())
}

#[test]
fn closes_pipes(rt: HostRuntime) -> Result<(), Fail> {
    let mut net = PipeNet::new(rt.alloc(), &rt);
    assert!(rt; exchanges(&rt, &mut net) == Settle::Matched);
    let Pair::Made(mut server, client) = net.pair() else {
        panic!(&rt; "a pair is made");
    };
    drop(client);
    writes(&rt, &mut server, &[6]);
    reads(&rt, &mut server, EndRead::Ended, [9, 9, 9, 9]);
    let Pair::Made(mut server, mut client) = net.pair() else {
        panic!(&rt; "a pair is made");
    };
    writes(&rt, &mut client, &[1, 2, 3, 4, 5]);
    client.close();
    reads(&rt, &mut server, EndRead::Got(4), [1, 2, 3, 4]);
    reads(&rt, &mut server, EndRead::Got(1), [5, 9, 9, 9]);
    reads(&rt, &mut server, EndRead::Ended, [9, 9, 9, 9]);
    Ok(())
}

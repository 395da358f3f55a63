//! A line for each kind of request, and for each kind of reply.
use crate::entries::check::{Place, check};
use crate::entries::make::{done, head, items, join, observe, submit};
use std::alloc::Global;
use std::test::Fail;
use sv_wire::{Reply, Request};
use sv_world::ObjectId;

fn place(number: u64, session: u64) -> Place {
    Place { number, session }
}

fn welcome(alloc: Global, rows: &[(u16, [i64; 2])]) -> Result<Reply, Fail> {
    let head = head(alloc, rows)?;
    Ok(Reply::Welcome { commit: 7, head })
}

fn relay(
    alloc: Global,
    seq: u32,
    rows: &[(u16, [i64; 2])],
    sent: &[(u32, u16, u32)],
) -> Result<Reply, Fail> {
    let head = head(alloc, rows)?;
    let items = items(alloc, sent)?;
    Ok(Reply::Relay {
        seq,
        commit: 4,
        head,
        items,
    })
}

fn seen(
    alloc: Global,
    last: u32,
    rows: &[(u16, [i64; 2])],
    sent: &[(u32, u16, u32)],
) -> Result<Reply, Fail> {
    let head = head(alloc, rows)?;
    let items = items(alloc, sent)?;
    Ok(Reply::Seen {
        last,
        commit: 2,
        head,
        items,
    })
}

#[test]
fn joins(rt: HostRuntime) -> Result<(), Fail> {
    let alloc = rt.alloc();
    let greatest =
        "1 s0 join c65535 4294967295 [0 69] -> welcome 7 [0=(5,-1) 69=(9223372036854775807,-9223372036854775808)]\n";
    let request = join(alloc, 65535, u32::MAX, &[0, 69])?;
    let reply = welcome(alloc, &[(0, [5, -1]), (69, [i64::MAX, i64::MIN])])?;
    check(alloc, place(1, 0), request, reply, greatest)?;
    let request = join(alloc, 0, 1, &[])?;
    let reply = welcome(alloc, &[])?;
    check(
        alloc,
        place(2, 1),
        request,
        reply,
        "2 s1 join c0 1 [] -> welcome 7 []\n",
    )
}

#[test]
fn relays(rt: HostRuntime) -> Result<(), Fail> {
    let alloc = rt.alloc();
    let greatest =
        "18446744073709551615 s18446744073709551614 submit 9 reads 0 3 writes 3 at -2 7 { set @3.1 (@0.0 + 1); } \
        -> relay 9 at 4 [0=(1,2)] [5:c0.1 6:c65535.4294967295]\n";
    let request = submit(alloc, 9)?;
    let reply = relay(alloc, 9, &[(0, [1, 2])], &[(5, 0, 1), (6, 65535, u32::MAX)])?;
    check(
        alloc,
        place(u64::MAX, u64::MAX - 1),
        request,
        reply,
        greatest,
    )?;
    let reply = relay(alloc, 0, &[], &[(5, 0, 1)])?;
    check(
        alloc,
        place(3, 2),
        Request::Poll,
        reply,
        "3 s2 poll -> relay 0 at 4 [] [5:c0.1]\n",
    )
}

/// A Submit of the action of these tests, by the text of its reply.
fn check_outcome(alloc: Global, reply: Reply, text: &str) -> Result<(), Fail> {
    let line = format!(in alloc;
        "12 s3 submit 8 reads 0 3 writes 3 at -2 7 {{ set @3.1 (@0.0 + 1); }} -> {text}\n"
    )?;
    let request = submit(alloc, 8)?;
    check(alloc, place(12, 3), request, reply, line.as_str())
}

#[test]
fn outcomes(rt: HostRuntime) -> Result<(), Fail> {
    let alloc = rt.alloc();
    let dropped = Reply::Dropped {
        seq: 8,
        chain: 5,
        far: 2_000_000,
    };
    check_outcome(alloc, dropped, "dropped 8 chain 5 far 2000000")?;
    let denied = Reply::Denied {
        seq: 8,
        object: ObjectId(65534),
    };
    check_outcome(alloc, denied, "denied 8 object 65534")?;
    let settled = Reply::Settled { seq: 8, pos: 6 };
    check_outcome(alloc, settled, "settled 8 at 6")?;
    let refused = Reply::Refused { code: 5, detail: 9 };
    check_outcome(alloc, refused, "refused 5 9")?;
    let full = Reply::Refused {
        code: 255,
        detail: u32::MAX,
    };
    check_outcome(alloc, full, "refused 255 4294967295")
}

#[test]
fn reports(rt: HostRuntime) -> Result<(), Fail> {
    let alloc = rt.alloc();
    let request = done(alloc, &[(1, &[[6, 0]]), (2, &[[7, 1], [8, -2]]), (3, &[])])?;
    let noted = Reply::Noted { commit: 3 };
    let line = "1000 s64 done [1:(6,0) 2:(7,1)(8,-2) 3:] -> noted 3\n";
    check(alloc, place(1000, 64), request, noted, line)?;
    let request = done(alloc, &[])?;
    let refused = Reply::Refused { code: 7, detail: 0 };
    check(
        alloc,
        place(1, 0),
        request,
        refused,
        "1 s0 done [] -> refused 7 0\n",
    )
}

#[test]
fn observes(rt: HostRuntime) -> Result<(), Fail> {
    let alloc = rt.alloc();
    let request = observe(alloc, 65535, &[0, 2])?;
    let reply = seen(alloc, 3, &[(0, [5, 6])], &[(3, 1, 1)])?;
    let line = "8 s5 observe 65535 [0 2] -> seen 3 at 2 [0=(5,6)] [3:c1.1]\n";
    check(alloc, place(8, 5), request, reply, line)?;
    let request = observe(alloc, 0, &[69])?;
    let reply = seen(alloc, 2, &[], &[])?;
    check(
        alloc,
        place(9, 5),
        request,
        reply,
        "9 s5 observe 0 [69] -> seen 2 at 2 [] []\n",
    )
}

#[test]
fn short_requests(rt: HostRuntime) -> Result<(), Fail> {
    let alloc = rt.alloc();
    check(
        alloc,
        place(4, 1),
        Request::Poll,
        Reply::Idle,
        "4 s1 poll -> idle\n",
    )?;
    check(
        alloc,
        place(5, 1),
        Request::Leave,
        Reply::Bye,
        "5 s1 leave -> bye\n",
    )?;
    check(
        alloc,
        place(6, 1),
        Request::End,
        Reply::Bye,
        "6 s1 end -> bye\n",
    )?;
    let malformed = Reply::Refused { code: 1, detail: 0 };
    check(
        alloc,
        place(7, 2),
        Request::Bad,
        malformed,
        "7 s2 bad -> refused 1 0\n",
    )
}

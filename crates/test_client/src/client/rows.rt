//! Tables of steps, typed from the rules by hand.
ghost use Rattle.std.specs.Prelude.{◌≡◌, ◌<◌};

use super::data::Answer::{Bye, Idle, Noted, Refused, Relay, Welcome};
use super::data::Deed::{Minus, Plus, PlusOther, Times};
use super::steps::Step::{Below, Counts, Cut, Join, Leave, Make, Poll, Show, Take};
use super::steps::Told::{Done, Fault, Nothing};
use super::steps::goes;
use super::{Events, check, check_trace, client_of, play};
use std::alloc::Global;
use std::test::Fail;
use sv_client::{Client, TakeFault};
use sv_world::ObjectId;

/// Position 2 comes after position 3, and reads what position 1 left.
#[test]
fn late_older_action(rt: HostRuntime) -> Result<(), Fail> {
    check(
        rt.alloc(),
        1,
        false,
        &[
            Join,
            Take(Welcome(0, &[]), Nothing),
            Make(Plus(1, 10)),
            Make(Plus(0, 1)),
            Take(
                Relay(
                    1,
                    0,
                    &[(1, 5)],
                    &[(1, 0, 1, Plus(1, 1)), (3, 1, 1, Plus(1, 10))],
                ),
                Done(&[(1, 6), (3, 16)]),
            ),
            Below(1, 1, Some(5)),
            Below(1, 3, Some(6)),
            Below(1, 4, Some(16)),
            Take(
                Relay(
                    2,
                    0,
                    &[(0, 100)],
                    &[(2, 0, 2, PlusOther(0, 1)), (4, 1, 2, Plus(0, 1))],
                ),
                Done(&[(2, 106), (4, 107)]),
            ),
            Show(0, Some(107)),
            Show(1, Some(16)),
        ],
    )
}

/// The action of another client comes first, so what the later ones were expected to give is computed again.
#[test]
fn conflict(rt: HostRuntime) -> Result<(), Fail> {
    check_trace(
        rt.alloc(),
        1,
        true,
        &[
            Join,
            Take(Welcome(0, &[(0, 10)]), Nothing),
            Make(Plus(0, 1)),
            Make(Times(0, 3)),
            Make(Minus(0, 5)),
            Show(0, Some(28)),
            Take(
                Relay(1, 0, &[], &[(1, 0, 1, Times(0, 2)), (2, 1, 1, Plus(0, 1))]),
                Done(&[(1, 20), (2, 21)]),
            ),
            Show(0, Some(58)),
            Take(
                Relay(2, 0, &[], &[(3, 1, 2, Times(0, 3))]),
                Done(&[(3, 63)]),
            ),
            Take(
                Relay(3, 0, &[], &[(4, 1, 3, Minus(0, 5))]),
                Done(&[(4, 58)]),
            ),
            Take(Noted(2), Nothing),
            Take(Noted(3), Nothing),
            Take(Noted(4), Nothing),
            Leave,
            Take(Bye, Nothing),
        ],
        Events {
            first: 1,
            told: " j1 g1 m m m s g1 s g1 g1 g1 g1 g1 l g1",
        },
    )
}

/// What an action would give is not known before its object is.
#[test]
fn unknown_view(rt: HostRuntime) -> Result<(), Fail> {
    check(
        rt.alloc(),
        0,
        false,
        &[
            Join,
            Take(Welcome(0, &[]), Nothing),
            Make(Plus(0, 1)),
            Show(0, None),
            Take(
                Relay(1, 0, &[(0, 5)], &[(1, 0, 1, Plus(0, 1))]),
                Done(&[(1, 6)]),
            ),
            Show(0, Some(6)),
        ],
    )
}

/// After each refusal the client is as before: what it counts, and its trace, which has no event of a refused reply.
#[test]
fn lying_server(rt: HostRuntime) -> Result<(), Fail> {
    check_trace(
        rt.alloc(),
        0,
        false,
        &[
            Take(Idle, Fault(TakeFault::Unasked)),
            Join,
            Take(Welcome(0, &[]), Nothing),
            Make(Plus(0, 1)),
            Take(Noted(0), Fault(TakeFault::WrongKind)),
            Counts(1, 1, 0),
            Take(Refused(9, 0), Fault(TakeFault::WrongKind)),
            Counts(1, 1, 0),
            Take(
                Relay(1, 1, &[(0, 0)], &[(1, 0, 1, Plus(0, 1))]),
                Fault(TakeFault::BadOrder),
            ),
            Counts(1, 1, 0),
            Take(
                Relay(2, 0, &[(0, 0)], &[(1, 0, 1, Plus(0, 1))]),
                Fault(TakeFault::BadItem),
            ),
            Counts(1, 1, 0),
            Take(
                Relay(1, 0, &[(2, 0)], &[(1, 0, 1, Plus(0, 1))]),
                Fault(TakeFault::BadItem),
            ),
            Counts(1, 1, 0),
            Take(
                Relay(1, 0, &[], &[(1, 0, 1, Plus(0, 1))]),
                Fault(TakeFault::Missing {
                    pos: 1,
                    object: ObjectId(0),
                }),
            ),
            Counts(1, 1, 0),
            Show(0, None),
            Take(
                Relay(1, 0, &[(0, 0)], &[(1, 0, 1, Plus(0, 1))]),
                Done(&[(1, 1)]),
            ),
            Show(0, Some(1)),
        ],
        Events {
            first: 0,
            told: " j0 g0 m s g0 s",
        },
    )
}

/// A head and an item were put before the value was found missing. Both are taken back.
#[test]
fn refused_in_the_middle(rt: HostRuntime) -> Result<(), Fail> {
    check(
        rt.alloc(),
        0,
        false,
        &[
            Join,
            Take(Welcome(0, &[]), Nothing),
            Make(Plus(0, 1)),
            Take(
                Relay(
                    1,
                    0,
                    &[(1, 7)],
                    &[(1, 1, 1, Plus(1, 1)), (2, 0, 1, Plus(0, 1))],
                ),
                Fault(TakeFault::Missing {
                    pos: 2,
                    object: ObjectId(0),
                }),
            ),
            Counts(1, 1, 0),
            Show(1, None),
            Below(1, 2, None),
        ],
    )
}

/// What a pending action read is changed, and its own result stays until it is settled.
#[test]
fn polled_relay(rt: HostRuntime) -> Result<(), Fail> {
    check(
        rt.alloc(),
        1,
        true,
        &[
            Join,
            Take(Welcome(0, &[(0, 10)]), Nothing),
            Poll,
            Make(Plus(0, 1)),
            Show(0, Some(11)),
            Take(
                Relay(0, 0, &[], &[(1, 0, 1, Times(0, 2))]),
                Done(&[(1, 20)]),
            ),
            Counts(1, 2, 0),
            Show(0, Some(11)),
            Take(Relay(1, 0, &[], &[(2, 1, 1, Plus(0, 1))]), Done(&[(2, 21)])),
            Counts(0, 2, 0),
            Show(0, Some(21)),
        ],
    )
}

/// What was outstanding at a cut is forgotten, and what is pending is asked again.
#[test]
fn three_sessions(rt: HostRuntime) -> Result<(), Fail> {
    check_trace(
        rt.alloc(),
        0,
        false,
        &[
            Join,
            Take(Welcome(0, &[]), Nothing),
            Make(Plus(0, 1)),
            Cut,
            Join,
            Counts(1, 2, 0),
            Take(Welcome(0, &[]), Nothing),
            Take(
                Relay(1, 0, &[(0, 0)], &[(1, 0, 1, Plus(0, 1))]),
                Done(&[(1, 1)]),
            ),
            Counts(0, 1, 0),
            Cut,
            Join,
            Take(Welcome(1, &[]), Nothing),
            Counts(0, 0, 1),
            Leave,
            Take(Bye, Nothing),
            Show(0, Some(1)),
        ],
        Events {
            first: 5,
            told: " j5 g5 m c j6 g6 g6 c j7 g7 l g7 s",
        },
    )
}

/// One more action is made, relayed and noted. After each reply one value at or below the commit told is held.
fn pair(alloc: Global, client: &mut Client, commit: u32) -> Result<bool, Fail>
    requires objects { client.old.who.shape.objects ≡ 2 }
    requires few { commit < 10 }
    ensures { client.new.who ≡ client.old.who }
{
    let pos = commit + 1;
    let result = (pos, i64::from(pos));
    let sent = (pos, 0, pos, Plus(0, 1));
    let relay = Relay(pos, commit, &[], &[sent]);
    let made = goes(alloc, client, Make(Plus(0, 1)))?;
    let relayed = goes(alloc, client, Take(relay, Done(&[result])))?;
    let few = client.old_versions(ObjectId(0)) == 1;
    let noted = goes(alloc, client, Take(Noted(pos), Nothing))?;
    Ok(made && relayed && few && noted && client.old_versions(ObjectId(0)) == 1)
}

#[test]
fn ten_pairs(rt: HostRuntime) -> Result<(), Fail> {
    let alloc = rt.alloc();
    let mut client = client_of(alloc, 0, true)?;
    play(
        alloc,
        &mut client,
        &[Join, Take(Welcome(0, &[(0, 0)]), Nothing)],
    )?;
    for commit in 0..10u32 {
        assert!(rt; pair(alloc, &mut client, commit)?, "pair {commit}");
    }
    play(alloc, &mut client, &[Show(0, Some(10))])
}

//! Tables of steps in which objects are observed, typed from the rules by hand.
use super::data::Answer::{Bye, Denied, Idle, Noted, Relay, Seen, Welcome, Wide};
use super::data::Deed::{Plus, PlusOther, Times};
use super::steps::Step::{
    Below, Counts, Cut, Join, Leave, Make, Observe, Poll, Refuse, Show, Take,
};
use super::steps::Told::{Done, Fault, Nothing};
use super::{Events, check, check_trace};
use std::test::Fail;
use sv_client::{ObserveFault, TakeFault};
use sv_world::ObjectId;

const MISSING_FIRST: TakeFault = TakeFault::Missing {
    pos: 1,
    object: ObjectId(0),
};

/// Two observes of the same objects. The second one finds nothing new, and no Done answers it.
#[test]
fn nothing_new(rt: HostRuntime) -> Result<(), Fail> {
    check_trace(
        rt.alloc(),
        1,
        false,
        &[
            Join,
            Take(Welcome(0, &[]), Nothing),
            Observe(&[0, 1]),
            Counts(0, 1, 0),
            Take(
                Seen(1, 0, &[(0, 10), (1, 20)], &[(1, 0, 1, Plus(0, 1))]),
                Done(&[(1, 11)]),
            ),
            Counts(0, 1, 0),
            Take(Noted(1), Nothing),
            Observe(&[0, 1]),
            Take(Seen(1, 1, &[], &[]), Nothing),
            Counts(0, 0, 1),
            Show(0, Some(11)),
            Show(1, Some(20)),
            Leave,
            Take(Bye, Nothing),
        ],
        Events {
            first: 1,
            told: " j1 g1 o g1 g1 o g1 s s l g1",
        },
    )
}

/// An item that was sent before is held, and is not sent again.
#[test]
fn sent_before(rt: HostRuntime) -> Result<(), Fail> {
    check(
        rt.alloc(),
        1,
        true,
        &[
            Join,
            Take(Welcome(0, &[(0, 10)]), Nothing),
            Poll,
            Take(
                Relay(0, 0, &[], &[(1, 0, 1, Times(0, 2))]),
                Done(&[(1, 20)]),
            ),
            Observe(&[0]),
            Take(Noted(0), Nothing),
            Take(Seen(2, 0, &[], &[(2, 0, 2, Plus(0, 5))]), Done(&[(2, 25)])),
            Show(0, Some(25)),
            Below(0, 2, Some(20)),
            Below(0, 3, Some(25)),
        ],
    )
}

/// What a pending action read is seen anew, so the result that is expected of it is computed again.
#[test]
fn own_pending(rt: HostRuntime) -> Result<(), Fail> {
    check(
        rt.alloc(),
        1,
        true,
        &[
            Join,
            Take(Welcome(0, &[(0, 10)]), Nothing),
            Make(Plus(0, 1)),
            Make(PlusOther(0, 1)),
            Observe(&[0, 1]),
            Show(0, None),
            Counts(2, 3, 0),
            Take(Relay(1, 0, &[], &[(1, 1, 1, Plus(0, 1))]), Done(&[(1, 11)])),
            Take(
                Relay(2, 0, &[(1, 5)], &[(3, 1, 2, PlusOther(0, 1))]),
                Done(&[(3, 16)]),
            ),
            Make(Times(0, 3)),
            Show(0, Some(48)),
            Take(Seen(5, 0, &[], &[(5, 0, 1, Plus(0, 4))]), Done(&[(5, 20)])),
            Show(0, Some(60)),
            Show(1, Some(5)),
            Counts(1, 4, 0),
        ],
    )
}

/// A head alone is news too, and no Done answers it.
#[test]
fn head_alone(rt: HostRuntime) -> Result<(), Fail> {
    check(
        rt.alloc(),
        1,
        false,
        &[
            Join,
            Take(Welcome(3, &[]), Nothing),
            Make(Plus(0, 1)),
            Show(0, None),
            Cut,
            Join,
            Take(Welcome(3, &[]), Nothing),
            Take(
                Relay(1, 3, &[(0, 4)], &[(5, 1, 1, Plus(0, 1))]),
                Done(&[(5, 5)]),
            ),
            Make(PlusOther(0, 1)),
            Show(0, None),
            Observe(&[1]),
            Take(Noted(3), Nothing),
            Take(
                Relay(2, 3, &[(1, 7)], &[(6, 1, 2, PlusOther(0, 1))]),
                Done(&[(6, 12)]),
            ),
            Make(Plus(1, 1)),
            Show(1, Some(8)),
            Take(Seen(6, 4, &[(1, 9)], &[]), Nothing),
            Show(1, Some(10)),
            Counts(1, 2, 4),
        ],
    )
}

/// What was observed before a cut is forgotten; in the next session it is asked again.
#[test]
fn cut_away(rt: HostRuntime) -> Result<(), Fail> {
    check_trace(
        rt.alloc(),
        1,
        false,
        &[
            Join,
            Take(Welcome(0, &[]), Nothing),
            Observe(&[0]),
            Cut,
            Join,
            Counts(0, 1, 0),
            Take(Seen(0, 0, &[(0, 3)], &[]), Fault(TakeFault::WrongKind)),
            Take(Welcome(0, &[]), Nothing),
            Take(Seen(0, 0, &[(0, 3)], &[]), Fault(TakeFault::Unasked)),
            Observe(&[0]),
            Take(Seen(0, 0, &[(0, 3)], &[]), Nothing),
            Show(0, Some(3)),
        ],
        Events {
            first: 2,
            told: " j2 g2 o c j3 g3 o g3 s",
        },
    )
}

/// The replies to two observes come in the order in which these were asked, and each is for its own objects.
#[test]
fn two_in_flight(rt: HostRuntime) -> Result<(), Fail> {
    check(
        rt.alloc(),
        1,
        false,
        &[
            Join,
            Take(Welcome(0, &[]), Nothing),
            Observe(&[0]),
            Observe(&[1]),
            Counts(0, 2, 0),
            Take(Seen(0, 0, &[(1, 2)], &[]), Fault(MISSING_FIRST)),
            Take(Seen(0, 0, &[(0, 1)], &[]), Nothing),
            Take(
                Seen(2, 0, &[(1, 2)], &[(2, 0, 1, Plus(1, 1))]),
                Done(&[(2, 3)]),
            ),
            Show(0, Some(1)),
            Show(1, Some(3)),
            Counts(0, 1, 0),
        ],
    )
}

/// Each reply is one that its request may have. After each refusal the client is as before.
#[test]
fn wrong_kinds(rt: HostRuntime) -> Result<(), Fail> {
    check(
        rt.alloc(),
        0,
        true,
        &[
            Join,
            Take(Welcome(0, &[(0, 1)]), Nothing),
            Make(Plus(0, 1)),
            Take(
                Seen(1, 0, &[], &[(1, 0, 1, Plus(0, 1))]),
                Fault(TakeFault::WrongKind),
            ),
            Observe(&[0]),
            Take(Relay(1, 0, &[], &[(1, 0, 1, Plus(0, 1))]), Done(&[(1, 2)])),
            Take(
                Relay(0, 0, &[], &[(2, 1, 1, Plus(0, 1))]),
                Fault(TakeFault::WrongKind),
            ),
            Take(Idle, Fault(TakeFault::WrongKind)),
            Take(Denied(1, 0), Fault(TakeFault::WrongKind)),
            Counts(0, 2, 0),
            Take(Seen(1, 0, &[], &[]), Nothing),
            Counts(0, 1, 0),
        ],
    )
}

/// A cut stands at or above its commit and its last item, and where an action may stand.
#[test]
fn bad_cuts(rt: HostRuntime) -> Result<(), Fail> {
    let items = &[(5, 0, 1, Plus(0, 1)), (6, 0, 2, Plus(0, 1))];
    check(
        rt.alloc(),
        1,
        true,
        &[
            Join,
            Take(Welcome(3, &[(0, 1)]), Nothing),
            Observe(&[0]),
            Take(Seen(3, 4, &[], &[]), Fault(TakeFault::BadOrder)),
            Take(Seen(5, 4, &[], items), Fault(TakeFault::BadOrder)),
            Take(
                Seen(4_294_967_295, 4, &[], items),
                Fault(TakeFault::BadOrder),
            ),
            Take(Seen(6, 2, &[], items), Fault(TakeFault::BadOrder)),
            Take(Seen(6, 5, &[], items), Fault(TakeFault::BadOrder)),
            Counts(0, 1, 3),
            Show(0, Some(1)),
            Take(Seen(4_294_967_294, 4, &[], items), Done(&[(5, 2), (6, 3)])),
            Show(0, Some(3)),
            Counts(0, 1, 4),
        ],
    )
}

/// The head's objects are of the world and have its numbers, and the items' actions are good ones.
#[test]
fn bad_items(rt: HostRuntime) -> Result<(), Fail> {
    check(
        rt.alloc(),
        1,
        true,
        &[
            Join,
            Take(Welcome(0, &[(0, 1)]), Nothing),
            Observe(&[0]),
            Take(Seen(0, 0, &[(2, 0)], &[]), Fault(TakeFault::BadItem)),
            Take(Wide(0, &[]), Fault(TakeFault::BadItem)),
            Take(Wide(0, &[1, 2]), Fault(TakeFault::BadItem)),
            Take(
                Seen(1, 0, &[], &[(1, 0, 1, Plus(2, 1))]),
                Fault(TakeFault::BadItem),
            ),
            Counts(0, 1, 0),
            Take(Wide(0, &[2]), Nothing),
            Show(0, Some(2)),
        ],
    )
}

/// A value that an item reads is missing, and one of an object that is observed. Both are taken back to what was before.
#[test]
fn missing_values(rt: HostRuntime) -> Result<(), Fail> {
    check(
        rt.alloc(),
        1,
        false,
        &[
            Join,
            Take(Welcome(0, &[]), Nothing),
            Observe(&[0, 1]),
            Take(
                Seen(2, 0, &[(0, 1)], &[(1, 0, 1, PlusOther(0, 1))]),
                Fault(TakeFault::Missing {
                    pos: 1,
                    object: ObjectId(1),
                }),
            ),
            Take(
                Seen(2, 0, &[(0, 1)], &[(1, 0, 1, Plus(0, 1))]),
                Fault(TakeFault::Missing {
                    pos: 3,
                    object: ObjectId(1),
                }),
            ),
            Take(Seen(0, 0, &[], &[]), Fault(MISSING_FIRST)),
            Counts(0, 1, 0),
            Show(0, None),
            Show(1, None),
            Take(
                Seen(2, 0, &[(0, 1), (1, 4)], &[(1, 0, 1, PlusOther(0, 1))]),
                Done(&[(1, 5)]),
            ),
            Show(0, Some(5)),
        ],
    )
}

/// From 1 to 16 objects of the world are observed, ascending.
#[test]
fn bad_objects(rt: HostRuntime) -> Result<(), Fail> {
    let many = &[0, 1, 2, 3, 4, 5, 6, 7, 8, 9, 10, 11, 12, 13, 14, 15, 16];
    check(
        rt.alloc(),
        1,
        false,
        &[
            Join,
            Take(Welcome(0, &[]), Nothing),
            Refuse(&[], ObserveFault::BadObjects),
            Refuse(many, ObserveFault::BadObjects),
            Refuse(&[1, 0], ObserveFault::BadObjects),
            Refuse(&[0, 0], ObserveFault::BadObjects),
            Refuse(&[2], ObserveFault::BadObjects),
            Refuse(&[0, 1, 2], ObserveFault::BadObjects),
            Counts(0, 0, 0),
            Observe(&[0, 1]),
            Counts(0, 1, 0),
        ],
    )
}

/// With 16 requests outstanding nothing is observed. Bad objects are told first.
#[test]
fn busy(rt: HostRuntime) -> Result<(), Fail> {
    check(
        rt.alloc(),
        1,
        true,
        &[
            Join,
            Take(Welcome(0, &[(0, 1)]), Nothing),
            Observe(&[0]),
            Observe(&[0]),
            Observe(&[0]),
            Observe(&[0]),
            Observe(&[0]),
            Observe(&[0]),
            Observe(&[0]),
            Observe(&[0]),
            Observe(&[0]),
            Observe(&[0]),
            Observe(&[0]),
            Observe(&[0]),
            Observe(&[0]),
            Observe(&[0]),
            Observe(&[0]),
            Observe(&[0]),
            Counts(0, 16, 0),
            Refuse(&[0], ObserveFault::Busy),
            Refuse(&[2], ObserveFault::BadObjects),
            Counts(0, 16, 0),
            Take(Seen(0, 0, &[], &[]), Nothing),
            Observe(&[0]),
            Counts(0, 16, 0),
        ],
    )
}

/// An action that is denied is let go, and the later ones are computed again.
#[test]
fn denied(rt: HostRuntime) -> Result<(), Fail> {
    check(
        rt.alloc(),
        1,
        true,
        &[
            Join,
            Take(Welcome(0, &[(0, 10)]), Nothing),
            Make(Plus(0, 1)),
            Make(Times(0, 3)),
            Show(0, Some(33)),
            Take(Denied(2, 0), Fault(TakeFault::BadItem)),
            Take(Denied(1, 0), Nothing),
            Show(0, Some(30)),
            Counts(1, 1, 0),
            Take(
                Relay(2, 0, &[], &[(1, 1, 2, Times(0, 3))]),
                Done(&[(1, 30)]),
            ),
            Counts(0, 1, 0),
        ],
    )
}

//! The game: its world, its rules, and what its two players do.
ghost use Rattle.std.specs.Prelude.{◌≡◌, false, IfOk};

use crate::diary::Diary;
use std::alloc::{AllocError, Global};
use std::rt::Clock;
use std::thread;
use std::time::Duration;
use sv_client::LeanClient;
use sv_door::{Door, EndMade};
use sv_link::End;
use sv_lists::List;
use sv_pilot::{Listener, Pilot, Trouble};
use sv_world::{ClientId, ObjectId, Shape};

/// The mine has 21 nuggets, and is closed: it is nobody's turn, -1. Each purse has the nuggets of a player, and how often it dug. Two clients
/// may come; they have no script here.
pub const WORLD: &str = r#"{"attrs":2,"objects":[[21,-1],[0,0],[0,0]],"bound":8,
    "clients":[{"interest":[0,1,2],"steps":[]},{"interest":[0,1,2],"steps":[]}]}"#;

const SHAPE: Shape = Shape {
    objects: 3,
    attrs: 2,
};

/// Bob opens the mine, and Ann is to begin.
const OPENING: &str = "reads 0 writes 0 { if [@0.1 == -1] { set @0.1 0; } }";

/// An action that writes nothing: a look.
const LOOK: &str = "reads 0 1 2 writes { }";

const MINE: ObjectId = ObjectId(0);

/// How often a player looks at most while the other is at turn, and how long it waits between two looks.
const LOOKS: u32 = 480;

const PAUSE_MILLIS: u64 = 25;

/// The action of digging so many nuggets. It does nothing where it is another's turn, or fewer are there.
fn digging(alloc: Global, me: u16, nuggets: i64) -> Result<String, AllocError> {
    let purse = if me == 0 { 1 } else { 2 };
    format!(in alloc;
        "reads 0 {purse} writes 0 {purse} {{ if ([@0.1 == {me}] and [{nuggets} <= @0.0]) {{ set @0.0 (@0.0 - {nuggets}); set @0.1 (1 - @0.1); set @{purse}.0 (@{purse}.0 + {nuggets}); set @{purse}.1 (@{purse}.1 + 1); }} }}"
    )
}

/// How many nuggets a player takes of so many. Ann knows the trick, Bob does not.
fn choice(me: u16, nuggets: i64) -> i64 {
    if me == 1 {
        return (nuggets % 3 + 1).min(nuggets);
    }
    match nuggets % 4 {
        0 => 1,
        rest => rest,
    }
}

/// The client of a player, which is told all three objects when it joins.
fn client_of(alloc: Global, me: u16) -> Result<LeanClient, Trouble> {
    let mut interest = List::new(alloc);
    interest.push(MINE)?;
    interest.push(ObjectId(1))?;
    interest.push(ObjectId(2))?;
    Ok(LeanClient::new(alloc, ClientId(me), SHAPE, interest)?)
}

/// What a player does next: it digs where it is at turn, and else waits a while and looks.
fn turn<E: End, L: Listener, R: Clock>(
    rt: &R,
    alloc: Global,
    me: u16,
    pilot: &mut Pilot<E, L>,
) -> Result<(), Trouble> {
    if pilot.number(MINE, 1) != i64::from(me) {
        thread::sleep(rt, Duration::from_millis(PAUSE_MILLIS));
        return pilot.act(LOOK);
    }
    let text = digging(alloc, me, choice(me, pilot.number(MINE, 0)))?;
    pilot.act(text.as_str())
}

/// Turns, until the mine is empty.
fn dig<E: End, L: Listener, R: Clock>(
    rt: &R,
    alloc: Global,
    me: u16,
    pilot: &mut Pilot<E, L>,
) -> Result<(), Trouble> {
    for _ in 0..LOOKS {
        if pilot.number(MINE, 0) <= 0 {
            return Ok(());
        }
        turn(rt, alloc, me, pilot)?;
    }
    Err(Trouble::Game)
}

/// One player's whole game, from when it joins until it leaves.
fn visit<E: End, L: Listener, R: Clock>(
    rt: &R,
    alloc: Global,
    me: u16,
    pilot: &mut Pilot<E, L>,
) -> Result<(), Trouble> {
    pilot.join()?;
    if me == 1 {
        pilot.act(OPENING)?;
    }
    dig(rt, alloc, me, pilot)?;
    pilot.leave()
}

/// A new end of a connection to the server.
fn connected<D: Door>(door: &mut D, port: u16) -> Result<D::E, Trouble>
    ensures open { IfOk result (λ end. (D.E.told end).closed ≡ false) }
{
    match door.connect(port) {
        EndMade::End(end) => Ok(end),
        EndMade::Failed => Err(Trouble::Link),
        EndMade::Memory => Err(Trouble::Memory),
    }
}

/// A player's pilot, with a diary, over a new end.
fn seated<E: End>(alloc: Global, me: u16, end: E) -> Result<Pilot<E, Diary>, Trouble>
    requires open { (E.told end).closed ≡ false }
{
    let client = client_of(alloc, me)?;
    let diary = Diary::new(alloc, if me == 0 { "Ann" } else { "Bob" });
    Pilot::new(alloc, client, end, diary)
}

/// One player's whole game, over a connection of its own. What it saw.
pub fn play<D: Door + Drop, R: Clock>(
    rt: &R,
    alloc: Global,
    port: u16,
    me: u16,
    door: D,
) -> Result<String, Trouble> {
    let mut door = door;
    let end = connected(&mut door, port)?;
    let mut pilot = seated(alloc, me, end)?;
    visit(rt, alloc, me, &mut pilot)?;
    Ok(pilot.into_listener().into_text())
}

//! What pilots do, row by row: what comes over each end, what is done, what is answered, and what the listener is told.
use crate::pilot::frames::{
    BYE, DENIED, DROPPED, DROPPED_ANOTHER, IDLE, MALFORMED, NOTED, REFUSED, RELAY,
    RELAY_BEHIND_ANOTHER, RELAY_OF_FOURTH, RELAY_OF_TEN, SEEN, SETTLED, TOO_LONG, WELCOME,
    WELCOME_AFTER, WELCOME_OF_FOUR,
};
use crate::pilot::notes::Notes;
use std::alloc::Global;
use std::test::Fail;
use sv_client::LeanClient;
use sv_lists::List;
use sv_pilot::{Pilot, Trouble};
use sv_text::{ParseFault, parse_action};
use sv_world::{ClientId, ObjectId, Shape};
use test_calls::ScriptEnd;
use test_calls::frames::joined;

/// The action that the replies have as the client's own.
const ADD: &str = "reads 0 writes 0 { set @0.0 (@0.0 + 1); }";

/// An action that names the fourth number of its object.
const FOURTH: &str = "reads 0 writes 0 { set @0.3 (@0.3 + 1); }";

/// An action that sets what the object is at first.
const TEN: &str = "reads 0 writes 0 { set @0.0 10; }";

/// What is done.
#[derive(Clone, Copy)]
enum Call<'a> {
    Join,
    Act(&'a str),
    /// Makes the action of this text, as one that was built.
    Make(&'a str),
    /// Acts by a text of so many bytes.
    ActLong(usize),
    Poll,
    Observe(&'a [u16]),
    Watch(u32),
    Leave,
    /// Goes on over another end, over which these frames come.
    Over(&'a [&'a [u8]]),
}

/// A row: how many numbers an object has, which call of the end fails (0: none), how often the listener has memory, the frames that come, what is
/// done with what is answered, and what the listener is told.
#[derive(Clone, Copy)]
struct Row<'a> {
    attrs: u8,
    failing: u64,
    room: u32,
    frames: &'a [&'a [u8]],
    calls: &'a [(Call<'a>, Option<Trouble>)],
    told: &'a str,
}

fn client_of(alloc: Global, attrs: u8) -> Result<LeanClient, Fail> {
    let mut interest = List::new(alloc);
    interest.push(ObjectId(0))?;
    let shape = Shape { objects: 1, attrs };
    Ok(LeanClient::new(alloc, ClientId(0), shape, interest)?)
}

/// A text of an action with so many bytes, most of them blank.
fn long_text(alloc: Global, size: usize) -> Result<String, Fail> {
    let mut text = String::from_str(alloc, "reads 0 writes { }")?;
    for _ in text.len()..size {
        text.push_str(" ")?;
    }
    Ok(text)
}

fn objects_of(alloc: Global, numbers: &[u16]) -> Result<List<ObjectId>, Fail> {
    let mut objects = List::new(alloc);
    for number in numbers {
        objects.push(ObjectId(*number))?;
    }
    Ok(objects)
}

type Flown<'a> = Pilot<ScriptEnd<'a>, Notes>;

fn make(alloc: Global, pilot: &mut Flown<'_>, text: &str) -> Result<Option<Trouble>, Fail> {
    if text.len() > 1_000 {
        return Err(Fail::new("the text is too long"));
    }
    match parse_action(alloc, text) {
        Ok(action) => Ok(pilot.make(action).err()),
        Err(ParseFault::Memory) => Err(Fail::new(format_args!("memory"))),
        Err(ParseFault::Text(_)) => Err(Fail::new(format_args!("{text}"))),
    }
}

fn act_long(alloc: Global, pilot: &mut Flown<'_>, size: usize) -> Result<Option<Trouble>, Fail> {
    let text = long_text(alloc, size)?;
    Ok(pilot.act(text.as_str()).err())
}

fn observe(alloc: Global, pilot: &mut Flown<'_>, numbers: &[u16]) -> Result<Option<Trouble>, Fail> {
    let objects = objects_of(alloc, numbers)?;
    Ok(pilot.observe(objects, 0).err())
}

/// What a call answers. The bytes of further ends were made before.
fn answer<'a>(
    alloc: Global,
    pilot: &mut Flown<'a>,
    call: Call<'_>,
    further: &'a [u8],
) -> Result<Option<Trouble>, Fail> {
    match call {
        Call::Join => Ok(pilot.join().err()),
        Call::Act(text) => Ok(pilot.act(text).err()),
        Call::Make(text) => make(alloc, pilot, text),
        Call::ActLong(size) => act_long(alloc, pilot, size),
        Call::Poll => Ok(pilot.poll().err()),
        Call::Observe(numbers) => observe(alloc, pilot, numbers),
        Call::Watch(times) => Ok(pilot.watch(&[ObjectId(0)], 0, times).err()),
        Call::Leave => Ok(pilot.leave().err()),
        Call::Over(_) => Ok(
            pilot
                .change_end(ScriptEnd::new(alloc, further, 0, 1)?)
                .err(),
        ),
    }
}

/// The bytes that come over the second end of a row.
fn further_of(alloc: Global, row: &Row<'_>) -> Result<Vec<u8>, Fail> {
    for (call, _) in row.calls {
        if let Call::Over(frames) = call {
            return Ok(joined(alloc, frames)?);
        }
    }
    Ok(Vec::new(alloc))
}

/// Makes the calls of the row at a place.
fn flies<'a>(
    alloc: Global,
    at: usize,
    row: &Row<'_>,
    pilot: &mut Flown<'a>,
    further: &'a [u8],
) -> Result<(), Fail> {
    for (place, (call, wanted)) in row.calls.iter().enumerate() {
        let got = answer(alloc, pilot, *call, further)?;
        if got != *wanted {
            return Err(Fail::new(format_args!("row {at}, call {place}")));
        }
    }
    Ok(())
}

/// Does what the row at a place has, over these bytes.
fn flown<'a>(
    alloc: Global,
    at: usize,
    row: &Row<'_>,
    coming: &'a [u8],
    further: &'a [u8],
) -> Result<String, Fail> {
    let client = client_of(alloc, row.attrs)?;
    let end = ScriptEnd::new(alloc, coming, row.failing, 0)?;
    let mut pilot = match Pilot::new(alloc, client, end, Notes::new(alloc, row.room)) {
        Ok(pilot) => pilot,
        Err(trouble) => return Err(Fail::new(format_args!("{trouble}"))),
    };
    flies(alloc, at, row, &mut pilot, further)?;
    Ok(pilot.into_listener().into_text())
}

fn goes(alloc: Global, at: usize, row: &Row<'_>) -> Result<(), Fail> {
    let coming = joined(alloc, row.frames)?;
    let further = further_of(alloc, row)?;
    let told = flown(alloc, at, row, &coming, &further)?;
    if told.as_str() != row.told {
        return Err(Fail::new(format_args!("row {at}: told{told}")));
    }
    Ok(())
}

fn all_go(alloc: Global, rows: &[Row<'_>]) -> Result<(), Fail> {
    for (at, row) in rows.iter().enumerate() {
        goes(alloc, at, row)?;
    }
    Ok(())
}

const PLAYS: &[Row<'static>] = &[
    // A guess that was right is told once.
    Row {
        attrs: 1,
        failing: 0,
        room: 9,
        frames: &[WELCOME, RELAY, NOTED, BYE],
        calls: &[
            (Call::Join, None),
            (Call::Act(ADD), None),
            (Call::Leave, None),
        ],
        told: " 0=10 0=11",
    },
    // A wrong guess is told, and then what came of it. It was built.
    Row {
        attrs: 1,
        failing: 0,
        room: 9,
        frames: &[WELCOME, RELAY_BEHIND_ANOTHER, NOTED],
        calls: &[(Call::Join, None), (Call::Make(ADD), None)],
        told: " 0=10 0=11 0=21",
    },
    // A guess is taken back where its action is dropped.
    Row {
        attrs: 1,
        failing: 0,
        room: 9,
        frames: &[WELCOME, DROPPED],
        calls: &[(Call::Join, None), (Call::Act(ADD), None)],
        told: " 0=10 0=11 0=10",
    },
    // It looks, it keeps looking, and asks for what others abandoned.
    Row {
        attrs: 1,
        failing: 0,
        room: 9,
        frames: &[WELCOME, SEEN, SEEN, SEEN, IDLE],
        calls: &[
            (Call::Join, None),
            (Call::Observe(&[0]), None),
            (Call::Watch(2), None),
            (Call::Poll, None),
        ],
        told: " 0=10 0=30",
    },
    // The connection ends behind a Submit. Over another one it goes on with what is pending.
    Row {
        attrs: 1,
        failing: 0,
        room: 9,
        frames: &[WELCOME],
        calls: &[
            (Call::Join, None),
            (Call::Act(ADD), Some(Trouble::Link)),
            (Call::Over(&[WELCOME, RELAY_BEHIND_ANOTHER, NOTED]), None),
            (Call::Join, None),
        ],
        told: " 0=10 0=11 0=21",
    },
    // The same, where the action was done before the connection ended: nothing is told twice.
    Row {
        attrs: 1,
        failing: 0,
        room: 9,
        frames: &[WELCOME],
        calls: &[
            (Call::Join, None),
            (Call::Act(ADD), Some(Trouble::Link)),
            (Call::Over(&[WELCOME_AFTER, SETTLED]), None),
            (Call::Join, None),
        ],
        told: " 0=10 0=11",
    },
    // The same, where it was dropped.
    Row {
        attrs: 1,
        failing: 0,
        room: 9,
        frames: &[WELCOME],
        calls: &[
            (Call::Join, None),
            (Call::Act(ADD), Some(Trouble::Link)),
            (Call::Over(&[WELCOME, DROPPED]), None),
            (Call::Join, None),
        ],
        told: " 0=10 0=11 0=10",
    },
    // What an action leaves as it was is not told again.
    Row {
        attrs: 1,
        failing: 0,
        room: 9,
        frames: &[WELCOME, RELAY_OF_TEN, NOTED],
        calls: &[(Call::Join, None), (Call::Act(TEN), None)],
        told: " 0=10",
    },
    // A guess is taken back where its action is denied.
    Row {
        attrs: 1,
        failing: 0,
        room: 9,
        frames: &[WELCOME, DENIED],
        calls: &[(Call::Join, None), (Call::Act(ADD), None)],
        told: " 0=10 0=11 0=10",
    },
    // What an action on the fourth number of an object changes is reported.
    Row {
        attrs: 4,
        failing: 0,
        room: 9,
        frames: &[WELCOME_OF_FOUR, RELAY_OF_FOURTH, NOTED],
        calls: &[(Call::Join, None), (Call::Act(FOURTH), None)],
        told: " 0=10 0=10",
    },
    // An action may name the fourth number of an object that has four.
    Row {
        attrs: 4,
        failing: 0,
        room: 9,
        frames: &[],
        calls: &[
            (Call::Join, Some(Trouble::Link)),
            (Call::Act(FOURTH), Some(Trouble::Link)),
            (Call::Make(FOURTH), Some(Trouble::Link)),
        ],
        told: "",
    },
];

const TROUBLES: &[Row<'static>] = &[
    // A write fails; a read fails; no more comes, also in the middle of a frame.
    Row {
        attrs: 1,
        failing: 1,
        room: 9,
        frames: &[WELCOME],
        calls: &[(Call::Join, Some(Trouble::Link))],
        told: "",
    },
    Row {
        attrs: 1,
        failing: 2,
        room: 9,
        frames: &[WELCOME],
        calls: &[(Call::Join, Some(Trouble::Link))],
        told: "",
    },
    Row {
        attrs: 1,
        failing: 0,
        room: 9,
        frames: &[&[0, 0, 0, 18, 0x81]],
        calls: &[(Call::Join, Some(Trouble::Link))],
        told: "",
    },
    // What comes is no message, too long, refused, of another kind, or behind what was asked for.
    Row {
        attrs: 1,
        failing: 0,
        room: 9,
        frames: &[MALFORMED],
        calls: &[(Call::Join, Some(Trouble::Reply))],
        told: "",
    },
    Row {
        attrs: 1,
        failing: 0,
        room: 9,
        frames: &[WELCOME, TOO_LONG],
        calls: &[(Call::Join, None), (Call::Poll, Some(Trouble::Reply))],
        told: " 0=10",
    },
    Row {
        attrs: 1,
        failing: 0,
        room: 9,
        frames: &[REFUSED],
        calls: &[(Call::Join, Some(Trouble::Reply))],
        told: "",
    },
    Row {
        attrs: 1,
        failing: 0,
        room: 9,
        frames: &[WELCOME, BYE],
        calls: &[(Call::Join, None), (Call::Poll, Some(Trouble::Reply))],
        told: " 0=10",
    },
    // A Submit can't be written. What was expected of it was told before.
    Row {
        attrs: 1,
        failing: 3,
        room: 9,
        frames: &[WELCOME],
        calls: &[(Call::Join, None), (Call::Act(ADD), Some(Trouble::Link))],
        told: " 0=10 0=11",
    },
    // What comes for an action is of another one.
    Row {
        attrs: 1,
        failing: 0,
        room: 9,
        frames: &[WELCOME, DROPPED_ANOTHER],
        calls: &[(Call::Join, None), (Call::Act(ADD), Some(Trouble::Reply))],
        told: " 0=10 0=11",
    },
    // What is no message stays in front, until there is another end.
    Row {
        attrs: 1,
        failing: 0,
        room: 9,
        frames: &[MALFORMED],
        calls: &[
            (Call::Join, Some(Trouble::Reply)),
            (Call::Poll, Some(Trouble::Reply)),
            (Call::Over(&[WELCOME]), None),
            (Call::Join, None),
        ],
        told: " 0=10",
    },
    // A session may not be left while a reply is due.
    Row {
        attrs: 1,
        failing: 0,
        room: 9,
        frames: &[],
        calls: &[
            (Call::Join, Some(Trouble::Link)),
            (Call::Leave, Some(Trouble::Game)),
        ],
        told: "",
    },
    // The value of an object of another world.
    Row {
        attrs: 2,
        failing: 0,
        room: 9,
        frames: &[WELCOME],
        calls: &[(Call::Join, Some(Trouble::Reply))],
        told: "",
    },
    // A listener without memory, for a value that comes, and for one that is expected.
    Row {
        attrs: 1,
        failing: 0,
        room: 0,
        frames: &[WELCOME],
        calls: &[(Call::Join, Some(Trouble::Memory))],
        told: "",
    },
    Row {
        attrs: 1,
        failing: 0,
        room: 1,
        frames: &[WELCOME, RELAY],
        calls: &[(Call::Join, None), (Call::Act(ADD), Some(Trouble::Memory))],
        told: " 0=10",
    },
    // Outside a session nothing may be asked.
    Row {
        attrs: 1,
        failing: 0,
        room: 9,
        frames: &[],
        calls: &[
            (Call::Act(ADD), Some(Trouble::Game)),
            (Call::Make(ADD), Some(Trouble::Game)),
            (Call::Poll, Some(Trouble::Game)),
            (Call::Observe(&[0]), Some(Trouble::Game)),
            (Call::Watch(1), Some(Trouble::Game)),
            (Call::Leave, Some(Trouble::Game)),
        ],
        told: "",
    },
    // In one: a text that is none of an action; an action of another world; objects that may not be observed.
    Row {
        attrs: 1,
        failing: 0,
        room: 9,
        frames: &[WELCOME],
        calls: &[
            (Call::Join, None),
            (Call::Act("reads"), Some(Trouble::Game)),
            (Call::Act(FOURTH), Some(Trouble::Game)),
            (Call::Make(FOURTH), Some(Trouble::Game)),
            (Call::ActLong(1_000), Some(Trouble::Game)),
            (Call::ActLong(999), Some(Trouble::Link)),
            (Call::Observe(&[]), Some(Trouble::Game)),
            (Call::Observe(&[1]), Some(Trouble::Game)),
            (Call::Observe(&[0, 0]), Some(Trouble::Game)),
        ],
        told: " 0=10",
    },
];

#[test]
fn plays(rt: HostRuntime) -> Result<(), Fail> {
    all_go(rt.alloc(), PLAYS)
}

#[test]
fn troubles(rt: HostRuntime) -> Result<(), Fail> {
    all_go(rt.alloc(), TROUBLES)
}

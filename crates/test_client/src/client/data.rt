//! Actions and replies as plain data, and what they stand for.
use std::alloc::Global;
use std::test::Fail;
use sv_lists::List;
use sv_text::parse_action;
use sv_wire::{Item, ObjectValue, Reply};
use sv_world::{Action, ClientId, ObjectId, Value};

/// What an action sets its first object to, in a world of one number for each object.
#[derive(Clone, Copy)]
pub enum Deed {
    /// The object and a number, added.
    Plus(u16, i64),
    Minus(u16, i64),
    Times(u16, i64),
    /// The object and a later one, added.
    PlusOther(u16, u16),
}

/// An action at a position, of a client, under its number.
pub type Sent = (u32, u16, u32, Deed);

/// A reply, with a number for each value.
#[derive(Clone, Copy)]
pub enum Answer<'a> {
    Welcome(u32, &'a [(u16, i64)]),
    Relay(u32, u32, &'a [(u16, i64)], &'a [Sent]),
    /// The cut, the commit, the head and the items.
    Seen(u32, u32, &'a [(u16, i64)], &'a [Sent]),
    /// What is seen at 0 of an object, with these numbers.
    Wide(u16, &'a [i64]),
    /// The action's number, and the object that it may not write.
    Denied(u32, u16),
    Noted(u32),
    Idle,
    Refused(u8, u32),
    Bye,
}

/// The text of an action.
fn text_of(alloc: Global, deed: Deed) -> Result<String, Fail> {
    Ok(match deed {
        Deed::Plus(a, by) => {
            format!(in alloc; "reads {a} writes {a} {{ set @{a}.0 (@{a}.0 + {by}); }}")?
        }
        Deed::Minus(a, by) => {
            format!(in alloc; "reads {a} writes {a} {{ set @{a}.0 (@{a}.0 - {by}); }}")?
        }
        Deed::Times(a, by) => {
            format!(in alloc; "reads {a} writes {a} {{ set @{a}.0 (@{a}.0 * {by}); }}")?
        }
        Deed::PlusOther(a, b) => {
            format!(in alloc; "reads {a} {b} writes {a} {{ set @{a}.0 (@{a}.0 + @{b}.0); }}")?
        }
    })
}

pub fn action_of(alloc: Global, deed: Deed) -> Result<Action, Fail> {
    let text = text_of(alloc, deed)?;
    if text.len() > 1_000 {
        return Err(Fail::new("the text is too long"));
    }
    Ok(parse_action(alloc, text.as_str())?)
}

pub fn objects_of(alloc: Global, numbers: &[u16]) -> Result<List<ObjectId>, Fail> {
    let mut objects = List::new(alloc);
    for number in numbers {
        objects.push(ObjectId(*number))?;
    }
    Ok(objects)
}

fn value_of(alloc: Global, number: i64) -> Result<Value, Fail> {
    let mut value = Value::new(alloc);
    value.push(number)?;
    Ok(value)
}

fn head_of(alloc: Global, values: &[(u16, i64)]) -> Result<List<ObjectValue>, Fail> {
    let mut head = List::new(alloc);
    for (object, number) in values {
        let value = value_of(alloc, *number)?;
        head.push(ObjectValue {
            object: ObjectId(*object),
            value,
        })?;
    }
    Ok(head)
}

/// A head of one object, with a value of several numbers.
fn wide_of(alloc: Global, object: u16, numbers: &[i64]) -> Result<List<ObjectValue>, Fail> {
    let mut value = Value::new(alloc);
    for number in numbers {
        value.push(*number)?;
    }
    let mut head = List::new(alloc);
    head.push(ObjectValue {
        object: ObjectId(object),
        value,
    })?;
    Ok(head)
}

fn items_of(alloc: Global, all: &[Sent]) -> Result<List<Item>, Fail> {
    let mut items = List::new(alloc);
    for (pos, client, seq, deed) in all {
        let action = action_of(alloc, *deed)?;
        items.push(Item {
            pos: *pos,
            client: ClientId(*client),
            seq: *seq,
            action,
        })?;
    }
    Ok(items)
}

pub fn reply_of(alloc: Global, answer: Answer) -> Result<Reply, Fail> {
    Ok(match answer {
        Answer::Welcome(commit, head) => Reply::Welcome {
            commit,
            head: head_of(alloc, head)?,
        },
        Answer::Relay(seq, commit, head, items) => {
            let head = head_of(alloc, head)?;
            let items = items_of(alloc, items)?;
            Reply::Relay {
                seq,
                commit,
                head,
                items,
            }
        }
        Answer::Seen(last, commit, head, items) => {
            let head = head_of(alloc, head)?;
            let items = items_of(alloc, items)?;
            Reply::Seen {
                last,
                commit,
                head,
                items,
            }
        }
        Answer::Wide(object, numbers) => Reply::Seen {
            last: 0,
            commit: 0,
            head: wide_of(alloc, object, numbers)?,
            items: List::new(alloc),
        },
        Answer::Denied(seq, object) => Reply::Denied {
            seq,
            object: ObjectId(object),
        },
        Answer::Noted(commit) => Reply::Noted { commit },
        Answer::Idle => Reply::Idle,
        Answer::Refused(code, detail) => Reply::Refused { code, detail },
        Answer::Bye => Reply::Bye,
    })
}

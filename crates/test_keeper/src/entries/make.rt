//! What lines tell, by few words.
use std::alloc::Global;
use std::test::Fail;
use sv_lists::List;
use sv_text::parse_action;
use sv_wire::{Done1, Item, ObjectValue, Request};
use sv_world::{ClientId, ObjectId, Value};

pub fn objects(alloc: Global, numbers: &[u16]) -> Result<List<ObjectId>, Fail> {
    let mut objects = List::new(alloc);
    for number in numbers {
        objects.push(ObjectId(*number))?;
    }
    Ok(objects)
}

fn held(alloc: Global, object: u16, numbers: [i64; 2]) -> Result<ObjectValue, Fail> {
    let value = Value::from_slice(alloc, &numbers)?;
    Ok(ObjectValue {
        object: ObjectId(object),
        value,
    })
}

/// Objects with their values.
pub fn head(alloc: Global, rows: &[(u16, [i64; 2])]) -> Result<List<ObjectValue>, Fail> {
    let mut head = List::new(alloc);
    for (object, numbers) in rows {
        head.push(held(alloc, *object, *numbers)?)?;
    }
    Ok(head)
}

fn item(alloc: Global, pos: u32, client: u16, seq: u32) -> Result<Item, Fail> {
    let action = parse_action(alloc, "reads 1 writes { }")?;
    Ok(Item {
        pos,
        client: ClientId(client),
        seq,
        action,
    })
}

/// Items by their positions, their clients and these clients' numbers for them.
pub fn items(alloc: Global, rows: &[(u32, u16, u32)]) -> Result<List<Item>, Fail> {
    let mut items = List::new(alloc);
    for (pos, client, seq) in rows {
        items.push(item(alloc, *pos, *client, *seq)?)?;
    }
    Ok(items)
}

fn values(alloc: Global, rows: &[[i64; 2]]) -> Result<List<Value>, Fail> {
    let mut values = List::new(alloc);
    for numbers in rows {
        values.push(Value::from_slice(alloc, numbers)?)?;
    }
    Ok(values)
}

fn result(alloc: Global, pos: u32, rows: &[[i64; 2]]) -> Result<Done1, Fail> {
    let values = values(alloc, rows)?;
    Ok(Done1 { pos, values })
}

/// Results by their positions.
pub fn done(alloc: Global, rows: &[(u32, &[[i64; 2]])]) -> Result<Request, Fail> {
    let mut results = List::new(alloc);
    for (pos, values) in rows {
        results.push(result(alloc, *pos, values)?)?;
    }
    Ok(Request::Done { results })
}

pub fn join(alloc: Global, client: u16, life: u32, interest: &[u16]) -> Result<Request, Fail> {
    let interest = objects(alloc, interest)?;
    Ok(Request::Join {
        client: ClientId(client),
        life,
        interest,
    })
}

pub fn observe(alloc: Global, wait: u16, observed: &[u16]) -> Result<Request, Fail> {
    let objects = objects(alloc, observed)?;
    Ok(Request::Observe { objects, wait })
}

pub fn submit(alloc: Global, seq: u32) -> Result<Request, Fail> {
    let action = parse_action(alloc, "reads 0 3 writes 3 at -2 7 { set @3.1 (@0.0 + 1); }")?;
    Ok(Request::Submit { seq, action })
}

//! A script moves connections, and what their calls answer follows it.
use std::alloc::Global;
use std::test::Fail;
use sv_ports::{Accepted, MemPorts, Numbered, PortRead, Ports, Ready, Step, Waited};

/// Connections that do these steps, in this order.
fn ports_of(alloc: Global, steps: Vec<Step>) -> MemPorts {
    let mut script = steps;
    script.reverse();
    MemPorts::new(alloc, script)
}

#[test]
fn numbers_ascend(rt: HostRuntime) -> Result<(), Fail> {
    let alloc = rt.alloc();
    let steps = vec![in alloc; Step::Connect, Step::Connect, Step::Pause, Step::Connect]?;
    let mut ports = ports_of(alloc, steps);
    let mut ready = Ready::new(alloc);
    assert!(&rt; ports.wait(0, &mut ready) == Waited::Done && ready.door);
    assert!(&rt; ports.accept() == Accepted::One(0));
    assert!(&rt; ports.accept() == Accepted::One(1));
    assert!(&rt; ports.accept() == Accepted::NotYet);
    assert!(&rt; ports.wait(0, &mut ready) == Waited::Done);
    assert!(&rt; ports.accept() == Accepted::One(2));
    Ok(())
}

#[test]
fn reads_what_came(rt: HostRuntime) -> Result<(), Fail> {
    let alloc = rt.alloc();
    let bytes = Vec::from_slice(alloc, b"abc")?;
    let steps = vec![in alloc; Step::Connect, Step::Bytes(0, bytes), Step::End(0)]?;
    let mut ports = ports_of(alloc, steps);
    let mut ready = Ready::new(alloc);
    assert!(&rt; ports.wait(0, &mut ready) == Waited::Done);
    assert!(&rt; ready.numbers.as_slice() == [0, 0].as_slice());
    let mut buffer = [0; 2];
    assert!(&rt; ports.read(0, &mut buffer) == PortRead::Got(2) && buffer == *b"ab");
    assert!(&rt; ports.read(0, &mut buffer) == PortRead::Got(1) && buffer[0] == b'c');
    assert!(&rt; ports.read(0, &mut buffer) == PortRead::Ended);
    assert!(&rt; ports.read(1, &mut buffer) == PortRead::Failed);
    ports.close(0);
    assert!(&rt; ports.is_closed(0) && ports.taken(0).is_empty());
    Ok(())
}

#[test]
fn hears_the_input(rt: HostRuntime) -> Result<(), Fail> {
    let alloc = rt.alloc();
    let steps = vec![in alloc;
        Step::Input(Vec::from_slice(alloc, b"stop")?),
        Step::InputEnd,
    ]?;
    let mut ports = ports_of(alloc, steps);
    let mut ready = Ready::new(alloc);
    let mut buffer = [0; 8];
    assert!(&rt; ports.read_input(&mut buffer) == PortRead::NotYet);
    assert!(&rt; ports.wait(0, &mut ready) == Waited::Done && ready.input);
    assert!(&rt; ports.read_input(&mut buffer) == PortRead::Got(4) && buffer == *b"stop\0\0\0\0");
    assert!(&rt; ports.read_input(&mut buffer) == PortRead::Ended);
    Ok(())
}

#[test]
fn a_thing_is_taken_out_and_put_back(rt: HostRuntime) -> Result<(), Fail> {
    let mut table = Numbered::new(rt.alloc());
    assert!(&rt; table.push(3, 'c').is_ok() && table.push(5, 'e').is_ok());
    assert!(&rt; table.push(5, 'x').is_err());
    assert!(&rt; table.take(3) == Some('c') && table.take(3) == None);
    assert!(&rt; table.len() == 2 && table.number_at(0) == Some(3));
    table.put(3, 'd');
    assert!(&rt; table.get(3) == Some(&'d') && table.get(4) == None);
    table.remove(3);
    assert!(&rt; table.len() == 1 && !table.is_empty() && table.number_at(0) == Some(5));
    Ok(())
}

//! Ends over TCP whose stream answers what a row says.
ghost use Rattle.std.specs.Prelude.{◌≡◌, false};
ghost use Rattle.sv_link.specs.TcpEnds.{end_told};

use std::alloc::Global;
use std::cell::Cell;
use std::io;
use std::io::{ErrorKind, Read, Write};
use std::net::{OpenStream, Shutdown};
use std::test::Fail;
use sv_link::{End, EndLog, EndRead, EndWrote, Side, TcpEnd};

/// What a call of the stream does.
#[derive(Clone, Copy, Debug)]
enum Turn {
    /// It moves at most so many bytes.
    Moves(usize),

    /// It answers this error.
    Fails(ErrorKind),
}

/// A stream whose reads and writes take one turn after the other, and answer another error behind the last one. It notes how it was shut down.
#[derive(Drop)]
struct Turns<'a> {
    turns: &'a [Turn],
    shut: &'a Cell<Option<Shutdown>>,
}

impl<'a> Turns<'a> {
    fn next(&mut self) -> io::Result<usize> {
        let Some((turn, rest)) = self.turns.split_first() else {
            return Err(io::Error::from(ErrorKind::Other));
        };
        self.turns = rest;
        match *turn {
            Turn::Moves(count) => Ok(count),
            Turn::Fails(kind) => Err(io::Error::from(kind)),
        }
    }
}

impl<'a> Read for Turns<'a> {
    fn read(&mut self, buf: &mut [u8]) -> io::Result<usize> {
        Ok(self.next()?.min(buf.len()))
    }
}

impl<'a> Write for Turns<'a> {
    fn write(&mut self, buf: &[u8]) -> io::Result<usize> {
        Ok(self.next()?.min(buf.len()))
    }

    fn flush(&mut self) -> io::Result<()> {
        Ok(())
    }
}

impl<'a> OpenStream for Turns<'a> {
    fn shutdown(&self, how: Shutdown) -> io::Result<()> {
        self.shut.set(Some(how));
        Ok(())
    }
}

/// What the stream does, and what the end then answers to a read of four bytes and to a write of four.
const ROWS: &[(&[Turn], EndRead, EndWrote)] = &[
    (&[Turn::Moves(4)], EndRead::Got(4), EndWrote::Took(4)),
    (&[Turn::Moves(1)], EndRead::Got(1), EndWrote::Took(1)),
    (&[Turn::Moves(0)], EndRead::Ended, EndWrote::Failed),
    (
        &[
            Turn::Fails(ErrorKind::Interrupted),
            Turn::Fails(ErrorKind::Interrupted),
            Turn::Moves(3),
        ],
        EndRead::Got(3),
        EndWrote::Took(3),
    ),
    (
        &[Turn::Fails(ErrorKind::ConnectionReset)],
        EndRead::Failed,
        EndWrote::Failed,
    ),
    (
        &[Turn::Fails(ErrorKind::BrokenPipe)],
        EndRead::Failed,
        EndWrote::Failed,
    ),
    (
        &[Turn::Fails(ErrorKind::WouldBlock)],
        EndRead::Failed,
        EndWrote::Failed,
    ),
    (
        &[Turn::Fails(ErrorKind::OutOfMemory)],
        EndRead::Memory,
        EndWrote::Memory,
    ),
];

/// An end whose stream takes these turns.
fn end_of<'a>(
    alloc: Global,
    turns: &'a [Turn],
    shut: &'a Cell<Option<Shutdown>>,
) -> TcpEnd<Turns<'a>>
    ensures { (end_told result).closed ≡ false }
{
    TcpEnd::new(Turns { turns, shut }, EndLog::new(alloc, 0, Side::Client))
}

#[test]
fn streams_answers_are_told(rt: HostRuntime) -> Result<(), Fail> {
    let shut = Cell::new(None);
    for (turns, read, wrote) in ROWS {
        let mut end = end_of(rt.alloc(), turns, &shut);
        assert!(rt; end.read(&mut [0; 4]) == *read, "{turns:?}");
        let mut end = end_of(rt.alloc(), turns, &shut);
        assert!(rt; end.write(&[1, 2, 3, 4]) == *wrote, "{turns:?}");
    }
    Ok(())
}

#[test]
fn closing_shuts_both_ways(rt: HostRuntime) -> Result<(), Fail> {
    let shut = Cell::new(None);
    let mut end = end_of(rt.alloc(), &[], &shut);
    assert!(rt; shut.get() == None);
    end.close();
    assert!(rt; shut.get() == Some(Shutdown::Both));
    Ok(())
}

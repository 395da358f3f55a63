//! Tests of frames on a stream, however it is cut.
use std::process::Abort;
use std::test::Fail;
use sv_frame::{FrameReader, GREATEST_FRAME, NextFrame, put_frame};

/// Gives the reader a piece, and takes the payloads that are due as far as they have come. Answers how many have come
/// since the stream began.
fn read_piece(
    rt: &impl Abort,
    reader: &mut FrameReader,
    piece: &[u8],
    due: &[&[u8]],
    come: usize,
) -> usize {
    assert!(rt; piece.len() <= reader.spare());
    reader.feed(piece);
    for at in come..due.len() {
        if reader.next() != NextFrame::Frame(due[at]) {
            return at;
        }
    }
    due.len()
}

/// Reads a stream cut in two at each place, up to its whole payloads.
fn read_cut(rt: &impl Abort, reader: &mut FrameReader, stream: &[u8], due: &[&[u8]]) {
    for cut in 0..stream.len() {
        let (first, second) = stream.split_at(cut);
        let come = read_piece(rt, reader, first, due, 0);
        let come = read_piece(rt, reader, second, due, come);
        assert!(rt; come == due.len());
        assert!(rt; reader.next() == NextFrame::NotYet);
        assert!(rt; reader.spare() == GREATEST_FRAME);
    }
}

#[test]
fn frame_vectors(rt: HostRuntime) -> Result<(), Fail> {
    let mut reader = FrameReader::new(rt.alloc())?;
    read_cut(&rt, &mut reader, &[0, 0, 0, 0], &[&[]]);
    read_cut(&rt, &mut reader, &[0, 0, 0, 1, 4], &[&[4]]);
    read_cut(
        &rt,
        &mut reader,
        &[0, 0, 0, 1, 4, 0, 0, 0, 1, 5],
        &[&[4], &[5]],
    );
    Ok(())
}

#[test]
fn greatest_frame(rt: HostRuntime) -> Result<(), Fail> {
    let payload = vec![in rt.alloc(); 7; 65_536]?;
    let mut stream = Vec::new(rt.alloc());
    put_frame(&payload, &mut stream)?;
    assert!(rt; stream.starts_with(&[0, 1, 0, 0, 7]));
    let mut reader = FrameReader::new(rt.alloc())?;
    read_cut(&rt, &mut reader, &stream, &[&payload]);
    Ok(())
}

#[test]
fn one_byte_at_a_time(rt: HostRuntime) -> Result<(), Fail> {
    let mut reader = FrameReader::new(rt.alloc())?;
    for byte in [0, 0, 0, 1] {
        assert!(rt; read_piece(&rt, &mut reader, &[byte], &[&[4]], 0) == 0);
    }
    assert!(rt; read_piece(&rt, &mut reader, &[4], &[&[4]], 0) == 1);
    Ok(())
}

#[test]
fn too_long_for_good(rt: HostRuntime) -> Result<(), Fail> {
    let stream = [0, 0, 0, 1, 4, 0, 1, 0, 1];
    for cut in 0..stream.len() {
        let (first, second) = stream.split_at(cut);
        let mut reader = FrameReader::new(rt.alloc())?;
        let come = read_piece(&rt, &mut reader, first, &[&[4]], 0);
        let come = read_piece(&rt, &mut reader, second, &[&[4]], come);
        assert!(rt; come == 1);
        assert!(rt; reader.next() == NextFrame::TooLong(65_537));
        read_piece(&rt, &mut reader, &[0, 0, 0, 0], &[], 0);
        assert!(rt; reader.next() == NextFrame::TooLong(65_537));
    }
    Ok(())
}

#[test]
fn writes_frames(rt: HostRuntime) -> Result<(), Fail> {
    let mut out = Vec::new(rt.alloc());
    put_frame(&[5], &mut out)?;
    put_frame(&[], &mut out)?;
    put_frame(&[0x8a, 0, 0, 0, 3, 0, 0, 0, 2, 0, 0, 0, 0], &mut out)?;
    let written = [
        0, 0, 0, 1, 5, 0, 0, 0, 0, 0, 0, 0, 0x0d, 0x8a, 0, 0, 0, 3, 0, 0, 0, 2, 0, 0, 0, 0,
    ];
    assert!(rt; out.as_slice() == written.as_slice());
    Ok(())
}

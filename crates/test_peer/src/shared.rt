//! What these tests share.
use std::alloc::{AllocError, Global};
use std::hash::RandomState;
use sv_bytes::MemFiles;
use sv_peer::Peer;
use sv_site::{Figures, Site};

/// Lets a connection hear bytes, and answers HTTP requests by the files of the folder `pages`.
pub fn hear(
    alloc: Global,
    keys: RandomState,
    peer: &mut Peer,
    files: &mut MemFiles,
    piece: &[u8],
) -> Result<(), AllocError> {
    let folder = Some(String::from_str(alloc, "pages")?);
    let mut site = Site {
        alloc,
        files,
        folder: &folder,
        origins: &[],
        figures: Figures::default(),
        key: None,
        calls: 0,
    };
    peer.hear(piece, keys, &mut site)
}

/// Whether what is to be sent begins so.
pub fn begins(peer: &Peer, front: &[u8]) -> bool {
    peer.output().starts_with(front)
}

/// What is to be sent was sent.
pub fn send_all(peer: &mut Peer) {
    let count = peer.output().len();
    peer.sent(count);
}

//! Keys that stand in a query.
ghost use Rattle.std.specs.Prelude.{◌≡◌, IfSome, option_copied};
ghost use Rattle.http.specs.Request.{head_of};
ghost use Rattle.sv_site.specs.Keys.{key_part, IsShownIn, IsShownBy};

use crate::parts::cut_at;
use bytes::Bytes;
use http::Request;
use std::alloc::Global;
use sv_peer::digest_of;

/// What a query has under the name `key`.
fn key_part(query: &[u8]) -> Option<&[u8]>
    ensures { option_copied result ≡ key_part query.now }
{
    let mut left = Some(query);
    while let Some(text) = left {
        let (part, rest) = cut_at(text, b'&');
        if let Some(digits) = part.strip_prefix(b"key=") {
            return Some(digits);
        }
        left = rest;
    }
    None
}

/// The digest of the key that a query has in hexadecimal. There is none where memory runs out.
fn key_in(alloc: Global, query: &str) -> Option<[u8; 32]>
    ensures { IfSome result (λ digest. IsShownIn query.now digest) }
{
    let digits = key_part(query.as_bytes())?;
    let key = hex::decode(alloc, digits).ok()?;
    digest_of(&key)
}

/// The digest of the key that a request shows in its query.
pub fn key_of(alloc: Global, request: &Request<Bytes>) -> Option<[u8; 32]>
    ensures { IfSome result (λ digest. IsShownBy (head_of request.now) digest) }
{
    let query = request.uri().query()?;
    key_in(alloc, query)
}

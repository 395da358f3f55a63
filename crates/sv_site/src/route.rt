//! What a request asks for.
ghost use Rattle.std.specs.Prelude.{◌≡◌, map, string_bytes, option_copied};
ghost use Rattle.http.specs.Request.{head_of};
ghost use Rattle.sv_site.specs.Routes.{value_of, is_get, may_upgrade, RoutesPage, Routes};

use crate::origins::is_welcome;
use bytes::Bytes;
use http::Request;
use websocket::handshake::server::accept_key;

/// What a request asks for.
#[derive(Clone, Copy, Drop)]
pub enum Route<'a> {
    /// Something else than to get a page.
    Refused,
    /// An upgrade, from a page that is not welcome.
    Stranger,
    /// An upgrade, with no right key of a handshake.
    BadKey,
    /// An upgrade that is answered by this key.
    Upgrade([u8; 28]),
    /// The standing of the server.
    Standing,
    /// The file of this path.
    File(&'a str),
}

/// The bytes of a header of a request, where it has it.
fn header_of<'a>(request: &'a Request<Bytes>, name: &str) -> Option<&'a [u8]>
    ensures { option_copied result ≡ value_of name.now (head_of request.now) }
{
    let value = request.headers().get(name)?;
    Some(value.as_bytes())
}

fn is_get(request: &Request<Bytes>) -> bool
    ensures { result ≡ is_get (head_of request.now) }
{
    request.method().as_str() == "GET"
}

/// Whether a page that asks to upgrade may.
fn may_upgrade(request: &Request<Bytes>, origins: &[String]) -> bool
    ensures { result ≡ may_upgrade (map string_bytes origins.now) (head_of request.now) }
{
    match header_of(request, "origin") {
        Some(origin) => is_welcome(origin, header_of(request, "host"), origins),
        None => true,
    }
}

fn page_of(path: &str) -> Route<'_>
    ensures { RoutesPage path.now result }
{
    match path {
        "/status" => Route::Standing,
        path => Route::File(path),
    }
}

/// What a request asks for. Pages of these origins may upgrade too.
pub fn route_of<'a>(request: &'a Request<Bytes>, origins: &[String]) -> Route<'a>
    ensures { Routes (map string_bytes origins.now) (head_of request.now) result }
{
    if !is_get(request) {
        return Route::Refused;
    }
    let Some(key) = header_of(request, "sec-websocket-key") else {
        return page_of(request.uri().path());
    };
    if !may_upgrade(request, origins) {
        return Route::Stranger;
    }
    match accept_key(key) {
        Ok(accept) => Route::Upgrade(accept),
        Err(_) => Route::BadKey,
    }
}

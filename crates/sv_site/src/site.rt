//! What HTTP requests get: files of a folder, the standing of the server, and the way to a WebSocket.
ghost use Rattle.std.specs.Prelude.{◌≡◌, ℕ, List, [], ◌++◌, ◌⊎◌, IfOk, OnOk, OnErr, option_map, string_bytes};
ghost use Rattle.sv_site.specs.Figures.{status_text};
ghost use Rattle.sv_site.specs.Answers.{named_in, FileStatus};

use crate::figures::{Figures, append_figures};
use crate::keys::key_of;
use crate::kinds::{KindOfFile, kind_of};
use crate::paths::path_in;
use crate::route::{Route, route_of};
use bytes::Bytes;
use http::{HeaderValue, Request, StatusCode, header};
use http_server::{Response, Service};
use std::alloc::{AllocError, Global};
use sv_bytes::{FileFault, Files, read_all};
use sv_peer::WebDesk;

/// How many bytes a file of the site may have.
const MOST_SITE_BYTES: usize = 1 << 26;

/// What HTTP requests are answered from.
#[derive(Drop)]
pub struct Site<'a, L: Files> {
    pub alloc: Global,
    pub files: &'a mut L,
    /// Borrowed whole: so it is known of the files, once they come back, what was done to them.
    pub folder: &'a Option<String>,
    /// Pages of these origins may upgrade too.
    pub origins: &'a [String],
    pub figures: Figures,
    /// The digest of the key that the last upgrade's request showed.
    pub key: Option<[u8; 32]>,
    /// How many requests were answered.
    pub calls: u64,
}

fn type_of(kind: KindOfFile) -> HeaderValue {
    match kind {
        KindOfFile::Html => HeaderValue::from_static("text/html; charset=utf-8"),
        KindOfFile::Js => HeaderValue::from_static("text/javascript; charset=utf-8"),
        KindOfFile::Css => HeaderValue::from_static("text/css; charset=utf-8"),
        KindOfFile::Json => HeaderValue::from_static("application/json"),
        KindOfFile::Svg => HeaderValue::from_static("image/svg+xml"),
        KindOfFile::Png => HeaderValue::from_static("image/png"),
        KindOfFile::Jpg => HeaderValue::from_static("image/jpeg"),
        KindOfFile::Ico => HeaderValue::from_static("image/x-icon"),
        KindOfFile::Txt => HeaderValue::from_static("text/plain; charset=utf-8"),
        KindOfFile::Wasm => HeaderValue::from_static("application/wasm"),
        KindOfFile::Other => HeaderValue::from_static("application/octet-stream"),
    }
}

fn put(response: &mut Response, kind: KindOfFile, body: Bytes) -> Result<(), AllocError>
    ensures status { response.new.status ≡ response.old.status }
    ensures body { OnOk result (response.new.body.items ≡ response.old.body.items ++ body) }
{
    response.add_header(header::CONTENT_TYPE, type_of(kind))?;
    response.body.push(body)
}

// The standing of the server.
fn put_standing(alloc: Global, figures: &Figures, response: &mut Response) -> Result<(), AllocError>
    requires { response.old.body.items ≡ [] }
    ensures status { response.new.status ≡ response.old.status }
    ensures body { OnOk result (response.new.body.items ≡ status_text figures.now) }
{
    let mut text = String::new(alloc);
    append_figures(figures, &mut text)?;
    let body = Bytes::copy_from_slice(alloc, text.as_bytes())?;
    put(response, KindOfFile::Json, body)
}

// The file that a path names, where there is a folder.
fn named_in(
    alloc: Global,
    folder: &Option<String>,
    path: &str,
) -> Result<Option<String>, AllocError>
    ensures { IfOk result (λ name. option_map string_bytes name ≡ named_in (option_map string_bytes folder.now) path.now) }
{
    match folder {
        Some(folder) => path_in(alloc, folder.as_str(), path),
        None => Ok(None),
    }
}

// A file, where it can be read and is not too long.
fn put_file<L: Files>(
    alloc: Global,
    files: &mut L,
    name: &str,
    response: &mut Response,
) -> Result<(), AllocError>
    requires { response.old.status ≡ 200 }
    ensures status { OnOk result ((response.new.status ≡ 200) ⊎ (response.new.status ≡ 404)) }
    ensures same { (n : List ℕ) → L.contents files.new n ≡ L.contents files.old n }
{
    match read_all(alloc, files, name, MOST_SITE_BYTES + 1) {
        Ok(bytes) if bytes.len() <= MOST_SITE_BYTES => {
            let body = Bytes::copy_from_slice(alloc, &bytes)?;
            put(response, kind_of(name), body)
        }
        Ok(_) | Err(FileFault::Failed) => {
            response.status = StatusCode::NOT_FOUND;
            Ok(())
        }
        Err(FileFault::Memory) => Err(AllocError),
    }
}

// What a path gets.
fn put_path<L: Files>(
    alloc: Global,
    files: &mut L,
    folder: &Option<String>,
    path: &str,
    response: &mut Response,
) -> Result<(), AllocError>
    requires { response.old.status ≡ 200 }
    ensures status { OnOk result (FileStatus (named_in (option_map string_bytes folder.now) path.now) response.new.status) }
    ensures same { (n : List ℕ) → L.contents files.new n ≡ L.contents files.old n }
{
    match named_in(alloc, folder, path)? {
        Some(name) => put_file(alloc, files, name.as_str(), response),
        None => {
            response.status = StatusCode::NOT_FOUND;
            Ok(())
        }
    }
}

// The way to a WebSocket.
fn put_upgrade(alloc: Global, accept: &[u8; 28], response: &mut Response) -> Result<(), AllocError>
    ensures { OnOk result (response.new.status ≡ 101) }
{
    let Ok(value) = HeaderValue::from_bytes(alloc, accept.as_slice()) else {
        return Err(AllocError);
    };
    response.status = StatusCode::SWITCHING_PROTOCOLS;
    response.add_header(header::CONNECTION, HeaderValue::from_static("Upgrade"))?;
    response.add_header(header::UPGRADE, HeaderValue::from_static("websocket"))?;
    response.add_header(header::SEC_WEBSOCKET_ACCEPT, value)
}

// 500, where memory ran out.
fn mend(filled: Result<(), AllocError>, response: &mut Response)
    ensures ok { OnOk filled (response.new ≡ response.old) }
    ensures err { OnErr filled (response.new.status ≡ 500) }
{
    if filled.is_err() {
        response.clear();
        response.status = StatusCode::INTERNAL_SERVER_ERROR;
    }
}

impl<L: Files> Service for Site<'_, L> {
    ghost use Rattle.std.specs.Prelude.{map, option_map, string_bytes};
    ghost use Rattle.http.specs.Request.{head_of};
    ghost use Rattle.sv_site.specs.Answers.{AnswersHead};
    ghost use Rattle.sv_site.specs.Lending.{KeepsFiles};

    ghost answers = { λ site request response after. AnswersHead
        (record { named = map string_bytes site.origins.now; folder = option_map string_bytes site.folder.now; figures = site.figures; shown = site.key })
        (head_of request) response after.key × KeepsFiles L.contents site.files after.files };

    fn call(
        &mut self,
        request: &Request<Bytes>,
        response: &mut Response,
    ) -> Result<(), AllocError> {
        self.calls = self.calls.saturating_add(1);
        match route_of(request, self.origins) {
            Route::Refused => response.status = StatusCode::METHOD_NOT_ALLOWED,
            Route::Stranger => response.status = StatusCode::FORBIDDEN,
            Route::BadKey => response.status = StatusCode::BAD_REQUEST,
            Route::Upgrade(accept) => {
                self.key = key_of(self.alloc, request);
                mend(put_upgrade(self.alloc, &accept, response), response);
            }
            Route::Standing => {
                mend(put_standing(self.alloc, &self.figures, response), response);
            }
            Route::File(path) => {
                let filled = put_path(self.alloc, self.files, self.folder, path, response);
                mend(filled, response);
            }
        }
        Ok(())
    }
}

impl<L: Files> WebDesk for Site<'_, L> {
    ghost use Rattle.sv_site.specs.Lending.{KeepsFiles, keeps_itself, keeps_on};

    ghost shown = { λ site. site.key };

    ghost keeps = { λ old new. KeepsFiles L.contents old.files new.files };

    ghost keeps_itself = { λ site. keeps_itself L.contents site.files };

    ghost keeps_on = { λ first next last here there. keeps_on L.contents first.files next.files last.files here there };

    ghost answers_keep = { λ old new request response answered. answered.1 };

    fn take_key(&mut self) -> Option<[u8; 32]> {
        self.key.take()
    }
}

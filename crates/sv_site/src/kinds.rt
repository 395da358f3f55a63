//! Types of files, by their endings.
ghost use Rattle.std.specs.Prelude.{◌≡◌};
ghost use Rattle.sv_site.specs.Kinds.{kind_by, IsKindOf};

/// A type of file.
#[derive(Clone, Copy, Debug, Drop, PartialEq, Eq)]
pub enum KindOfFile {
    Html,
    Js,
    Css,
    Json,
    Svg,
    Png,
    Jpg,
    Ico,
    Txt,
    Wasm,
    Other,
}

fn kind_by(ending: &str) -> KindOfFile
    ensures { result ≡ kind_by ending.now }
{
    match ending {
        "html" => KindOfFile::Html,
        "js" => KindOfFile::Js,
        "css" => KindOfFile::Css,
        "json" => KindOfFile::Json,
        "svg" => KindOfFile::Svg,
        "png" => KindOfFile::Png,
        "jpg" => KindOfFile::Jpg,
        "ico" => KindOfFile::Ico,
        "txt" => KindOfFile::Txt,
        "wasm" => KindOfFile::Wasm,
        _ => KindOfFile::Other,
    }
}

/// The type that the ending of a name tells.
pub fn kind_of(name: &str) -> KindOfFile
    ensures { IsKindOf name.now result }
{
    match name.rsplit_once('.') {
        Some((_, ending)) => kind_by(ending),
        None => KindOfFile::Other,
    }
}

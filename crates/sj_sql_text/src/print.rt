//! The text of pieces.

ghost use Rattle.std.specs.Prelude.{◌≡◌, ◌++◌, OnOk, OnErr};
ghost use Rattle.sj_path_tree.specs.View.{path_of};
ghost use Rattle.sj_path_text.specs.Text.{path_text as path_printed};
ghost use Rattle.sj_text.specs.Prefixes.{AppendsPrefix};
ghost use Rattle.sj_sql_text.specs.Pieces as spec;
ghost use Rattle.sj_sql_text.specs.View.{piece_of, pieces_of};

use crate::piece::Piece;
use crate::quoted::{QuotationMark, quoted};
use itoa::Buffer;
use sj_base::{Bytes, Memory};
use sj_path_text::path_text;
use sj_path_tree::Path;
use std::alloc::Global;

/// Appends the text of pieces.
pub(crate) fn print(alloc: Global, pieces: &[Piece<'_>], out: &mut Bytes) -> Result<(), Memory>
    ensures ok { OnOk result (out.new ≡ out.old ++ spec.text_of (pieces_of pieces.now)) }
    ensures err { OnErr result (AppendsPrefix out.old (spec.text_of (pieces_of pieces.now)) out.new) }
{
    let mut fresh = true;
    for piece in pieces {
        spaced(alloc, fresh, piece, out)?;
        fresh = piece.opens();
    }
    Ok(())
}

/// Appends a piece with the blank before it, if one stands there.
fn spaced(alloc: Global, fresh: bool, piece: &Piece<'_>, out: &mut Bytes) -> Result<(), Memory>
    ensures ok { OnOk result (out.new ≡ out.old ++ (spec.gap fresh (piece_of piece.now) ++ spec.piece_text (piece_of piece.now))) }
    ensures err { OnErr result (AppendsPrefix out.old (spec.gap fresh (piece_of piece.now) ++ spec.piece_text (piece_of piece.now)) out.new) }
{
    out.push(gap(fresh, piece))?;
    piece_text(alloc, piece, out)
}

fn gap(fresh: bool, piece: &Piece<'_>) -> &'static [u8]
    ensures { result.now ≡ spec.gap fresh (piece_of piece.now) }
{
    if fresh || piece.leans() { b"" } else { b" " }
}

fn piece_text(alloc: Global, piece: &Piece<'_>, out: &mut Bytes) -> Result<(), Memory>
    ensures ok { OnOk result (out.new ≡ out.old ++ spec.piece_text (piece_of piece.now)) }
    ensures err { OnErr result (AppendsPrefix out.old (spec.piece_text (piece_of piece.now)) out.new) }
{
    match piece {
        Piece::Word(text) => out.push(text.as_bytes()),
        Piece::Call(name) => call(name, out),
        Piece::Name(text) => quoted(QuotationMark::Double, text.as_bytes(), out),
        Piece::Text(text) => quoted(QuotationMark::Single, text.as_bytes(), out),
        Piece::Path(path) => quoted_path(alloc, path, out),
        Piece::Number(number) => out.push(number.text().as_str().as_bytes()),
        Piece::Count(count) => out.push(Buffer::new().format(*count).as_bytes()),
        Piece::Open => out.push(b"("),
        Piece::Close => out.push(b")"),
        Piece::Comma => out.push(b","),
        Piece::Star => out.push(b"*"),
        Piece::Semicolon => out.push(b";"),
    }
}

fn call(name: &str, out: &mut Bytes) -> Result<(), Memory>
    ensures ok { OnOk result (out.new ≡ out.old ++ spec.piece_text (spec.Call name.now)) }
    ensures err { OnErr result (AppendsPrefix out.old (spec.piece_text (spec.Call name.now)) out.new) }
{
    out.push(name.as_bytes())?;
    out.push(b"(")
}

/// Appends a path as a string: its marks are known only once it is printed.
fn quoted_path(alloc: Global, path: &Path, out: &mut Bytes) -> Result<(), Memory>
    ensures ok { OnOk result (out.new ≡ out.old ++ spec.quoted 39 (path_printed (path_of path.now))) }
    ensures err { OnErr result (AppendsPrefix out.old (spec.quoted 39 (path_printed (path_of path.now))) out.new) }
{
    let mut text = Bytes::new(alloc);
    path_text(path, &mut text)?;
    quoted(QuotationMark::Single, text.as_slice(), out)
}

//! The bytes of a chain's two parts.
ghost use Rattle.std.specs.Prelude.{◌≡◌, ◌≤◌, ◌+◌, length, min};
ghost use Rattle.vi_vring.specs.Shown.{Fits, read_total};
ghost use Rattle.vi_vring.specs.Parts.{share, readable_of, readable_bytes, scattered};

use crate::bytes::put;
use crate::walking::Piece;

// The bytes of the piece, where it is readable.
fn readable_of<'a>(area: &'a [u8], piece: &Piece) -> &'a [u8]
    requires { piece.now.address + piece.now.len ≤ length area.now }
    ensures { result.now ≡ readable_of area.now piece.now }
{
    if piece.writes {
        return &[];
    }
    let from = piece.address as usize;
    &area[from..from + piece.len as usize]
}

/// Copies the bytes of the readable pieces to `out`, which has their length.
pub fn copy_readable(area: &[u8], pieces: &[Piece], out: &mut [u8])
    requires fits { Fits area.now pieces.now }
    requires room { length out.old ≡ read_total pieces.now }
    ensures { out.new ≡ readable_bytes area.now pieces.now }
{
    let mut done = 0;
    for piece in pieces {
        let bytes = readable_of(area, piece);
        put(out, done, bytes);
        done += bytes.len();
    }
}

// How many of so many bytes the piece takes.
fn share(piece: &Piece, bytes: usize) -> usize
    ensures { result ≡ min (share piece.now) bytes }
{
    if piece.writes {
        bytes.min(piece.len as usize)
    } else {
        0
    }
}

/// Writes the bytes over the writable pieces, in order.
pub fn scatter(area: &mut [u8], pieces: &[Piece], bytes: &[u8])
    requires { Fits area.old pieces.now }
    ensures { area.new ≡ scattered pieces.now bytes.now area.old }
{
    let mut rest = bytes;
    for piece in pieces {
        let len = share(piece, rest.len());
        put(area, piece.address as usize, &rest[..len]);
        rest = &rest[len..];
    }
}

// The pieces in which bytes are read.
ghost use Rattle.std.specs.Prelude.{◌≡◌, ◌<◌, ◌≤◌, length, min, take};
ghost use Rattle.sj_file.specs.Piece.{max_piece};

/// How many bytes are read at once, at most, of the statement file or of the input.
pub const MAX_PIECE: usize = 65_536;

/// How many bytes are read next, where so many may still be taken, at least one: all of them, or [`MAX_PIECE`] if they
/// are more.
pub fn piece_len(left: u64) -> usize
    requires { 0 < left }
    ensures value { result ≡ min left max_piece }
    ensures some { 0 < result }
    ensures a_piece { result ≤ max_piece }
    ensures within { result ≤ left }
{
    left.min(MAX_PIECE as u64) as usize
}

/// The first `n` bytes, lent.
pub fn front(bytes: &[u8], n: usize) -> &[u8]
    requires { n ≤ length bytes.now }
    ensures { result.now ≡ take n bytes.now }
{
    &bytes[..n]
}

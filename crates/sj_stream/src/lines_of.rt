// Pieces that are split into lines.
ghost use Rattle.std.specs.Prelude.{◌≡◌, map};
ghost use Rattle.sj_rows.specs.Lines.{whole_lines, lines, seen};
ghost use Rattle.sj_stream.specs.Splitting.{kept_of};

use crate::out::Out;
use crate::prints_lines::PrintsLines;
use crate::takes_pieces::TakesPieces;
use sj_outside::Sink;
use sj_page::Stop;
use sj_rows::Lines;

/// Splits pieces into lines, which are held whole, and has them printed.
#[derive(Drop)]
pub struct LinesOf<P> {
    pub lines: Lines,
    pub printer: P,
}

impl<P: Drop> LinesOf<P> {
    /// The splitter, with what it holds of the line that is not whole yet.
    pub fn into_lines(self) -> Lines
        ensures { result ≡ self.lines }
    {
        let LinesOf { lines, printer: _ } = self;
        lines
    }
}

impl<P: PrintsLines> TakesPieces for LinesOf<P> {
    ghost took = { λ s job bytes. P.saw s.printer job (map seen (whole_lines bytes)) × (s.lines ≡ kept_of bytes) };

    ghost ended = { λ s job bytes. P.saw s.printer job (map seen (lines bytes)) };

    fn has_place(&self) -> bool {
        self.printer.has_place()
    }

    fn take_piece<O: Sink>(&mut self, piece: &[u8], out: &mut Out<'_, O>) -> Result<(), Stop> {
        match self.lines.feed(piece) {
            Ok(()) => {}
            Err(_) => return Err(Stop::Memory),
        }
        self.printer.print_lines(piece.len(), &mut self.lines, out)
    }

    fn finish<O: Sink>(&mut self, out: &mut Out<'_, O>) -> Result<(), Stop> {
        self.lines.finish();
        self.printer.print_lines(0, &mut self.lines, out)
    }
}

// Sparse bytes, `LENGTH OFFSET HEX OFFSET HEX ..`: zeros, but for the pieces.
ghost use Rattle.std.specs.Prelude.{◌≡◌};
ghost use Rattle.cases.specs.SparseInner.{behind_piece, PieceBy, PiecesBy, SparseBy};

use crate::hex::unhex;
use crate::words::Words;

// Puts the piece that the next two words say.
fn put_piece(words: &mut Words, out: &mut [u8]) -> Option<()>
    ensures piece { PieceBy words.old.rest.now out.old out.new result }
    ensures behind { result ≡ Some tt → words.new.rest.now ≡ behind_piece words.old.rest.now }
{
    let from = words.number_up_to(out.len())?;
    unhex(words.word(), &mut out[from..])?;
    Some(())
}

// Puts the pieces that the words say. A turn takes as many words as a piece has, so that no iterator over words is plainer.
fn put_pieces(words: &mut Words, out: &mut [u8]) -> Option<()>
    ensures { PiecesBy words.old.rest.now out.old out.new result }
{
    while !words.rest.is_empty() {
        put_piece(words, out)?;
    }
    Some(())
}

impl Words<'_> {
    // Reads sparse bytes, the words that are left, into the start of out, if there is room; answers how many.
    pub fn load(&mut self, out: &mut [u8]) -> Option<usize>
        ensures { SparseBy self.old.rest.now out.old out.new result }
    {
        let n = self.number_up_to(out.len())?;
        out[..n].fill(0);
        put_pieces(self, &mut out[..n])?;
        Some(n)
    }
}

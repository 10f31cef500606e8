// Refusals 1 to 9: those of the book, then by engagement.
ghost use Rattle.std.specs.Prelude.{◌≡◌};
ghost use Rattle.std.proofs.Math.Option.{some};
ghost use Rattle.refusals.specs.Sent.{sent_back};
ghost use Rattle.refusals.specs.SentInner.{refusal_in};
ghost use Rattle.volumes.specs.Settlement.{book_refusal};
ghost use Rattle.settlement.specs.RefusedInner.{lack_at};

use crate::days::MOST_POINTS;
use crate::opened::OpenBook;
use baseline::judge::Lack;
use refusals::Refused;

// What engagement i lacks, as it is sent back.
fn refused_at(lack: Lack, i: usize) -> Refused
    ensures { sent_back result ≡ lack_at lack i }
{
    match lack {
        Lack::Reading => Refused::Missing(i),
        Lack::Days => Refused::TooFew(i),
    }
}

impl<'a> OpenBook<'a> {
    ghost use Rattle.std.specs.Prelude.{◌<◌};
    ghost use Rattle.std.proofs.Math.Option.{none};
    ghost use Rattle.book.specs.Engagements.{engagement_at};
    ghost use Rattle.volumes.specs.Settlement.{refusal_number, row_refusal, settlement_refusal};
    ghost use Rattle.settlement.specs.SectionsInner.{engagement_count_in};
    ghost use Rattle.settlement.specs.OpenedInner.{book_in};

    // What engagement i lacks.
    fn judge_engagement_at(&self, i: usize) -> Result<(), Refused>
        requires { i < engagement_count_in self.now.engagements.now }
        ensures { refusal_in result ≡ row_refusal i (refusal_number (book_in self.now) (engagement_at self.now.engagements.now i)) none }
    {
        self.case_at(i).judge().map_err(|lack| refused_at(lack, i))
    }

    // Refusals 8 and 9, by engagement.
    pub fn judge(&self) -> Result<(), Refused>
        ensures { refusal_in result ≡ settlement_refusal (book_in self.now) }
    {
        for i in 0..self.count() {
            self.judge_engagement_at(i)?;
        }
        Ok(())
    }
}

// Refusals 1 to 9.
pub fn judge_settlement(book: &[u8]) -> Result<(), Refused>
    ensures { refusal_in result ≡ book_refusal book.now }
{
    judging::judge::judge_book(book)?;
    let mut engaged = [0u64; MOST_POINTS];
    OpenBook::of(book, &mut engaged).judge()
}

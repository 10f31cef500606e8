// An engagement's rows, from its baselines and its readings.
ghost use Rattle.std.specs.Prelude.{◌≡◌, ◌*◌, ◌≤◌, length};
ghost use Rattle.std.proofs.lemmas.List.Edits.{sets};
ghost use Rattle.book.specs.Book.{Book};
ghost use Rattle.volumes.specs.Settlement.{row_width, rows_of};
ghost use Rattle.baseline.specs.FilledInner.{Unrefused, Accepts};

use crate::opened::OpenBook;
use crate::rows::{ROW_WIDTH, Terms};
use baseline::case::Case;

// Fills the rows of an engagement that is not refused, of a book of this version.
pub fn settle_engagement(version: u16, case: &Case, out: &mut [i64])
    requires { Accepts case.now.shown case.now.calendar.now case.now.readings.now × (row_width * case.now.shown.e.count ≤ length out.old) }
    ensures { (b : Book) → b.version ≡ version → Unrefused case.now.shown case.now.calendar.now case.now.readings.now b → out.new ≡ sets out.old 0 (rows_of b case.now.shown.e) }
{
    let mut levels = [0u64; quarters::LONGEST_DAY];
    case.fill_levels(&mut levels);
    let terms = Terms {
        version,
        e: case.shown.e,
        point: case.shown.point,
    };
    terms.write_rows(&levels, case.readings, case.start(), out);
}

impl<'a> OpenBook<'a> {
    ghost use Rattle.std.specs.Prelude.{◌<◌};
    ghost use Rattle.std.proofs.Math.Option.{none};
    ghost use Rattle.book.specs.Engagements.{engagement_at};
    ghost use Rattle.volumes.specs.Settlement.{refusal_number, settlement_refusal, rows, row_count};
    ghost use Rattle.settlement.specs.SectionsInner.{engagement_count_in};
    ghost use Rattle.settlement.specs.OpenedInner.{book_in};

    // The rows of engagement i, which is not refused; how many numbers they are.
    pub fn settle_engagement_at(&self, i: usize, out: &mut [i64]) -> usize
        requires { (i < engagement_count_in self.now.engagements.now) × (refusal_number (book_in self.now) (engagement_at self.now.engagements.now i) ≡ none) × (row_width * (engagement_at self.now.engagements.now i).count ≤ length out.old) }
        ensures { (result ≡ row_width * (engagement_at self.now.engagements.now i).count) × (out.new ≡ sets out.old 0 (rows_of (book_in self.now) (engagement_at self.now.engagements.now i))) }
    {
        let case = self.case_at(i);
        settle_engagement(self.version, &case, out);
        ROW_WIDTH * (case.shown.e.count as usize)
    }

    // The rows of all engagements, none of which is refused.
    pub fn settle(&self, out: &mut [i64])
        requires { (settlement_refusal (book_in self.now) ≡ none) × (row_width * row_count (book_in self.now) ≤ length out.old) }
        ensures { out.new ≡ sets out.old 0 (rows (book_in self.now)) }
    {
        let mut at = 0;
        for i in 0..self.count() {
            at += self.settle_engagement_at(i, &mut out[at..]);
        }
    }
}

// The delivered volumes of a book, in the order of its settlement rows.
ghost use Rattle.std.specs.Prelude.{◌≡◌, map, ℕ, ◌+◌, ◌*◌, ◌≤◌, ◌<◌, pos, length, get_or};
ghost use Rattle.std.proofs.Math.Option.{none};
ghost use Rattle.std.proofs.lemmas.List.Edits.{sets};
ghost use Rattle.integers.specs.Ranges.{range};
ghost use Rattle.integers.proofs.ZLaws.{up, dn};
ghost use Rattle.book.specs.Engagements.{engagement_at};
ghost use Rattle.book.specs.Book.{book_of};
ghost use Rattle.volumes.specs.Settlement.{refusal_number, settlement_refusal, row_width, row_count, book_refusal};
ghost use Rattle.settlement.specs.SectionsInner.{engagement_count_in};
ghost use Rattle.settlement.specs.OpenedInner.{book_in};
ghost use Rattle.series.specs.VolumesInner.{volumes_of, book_volumes, volume_in};

use settlement::days::MOST_POINTS;
use settlement::opened::OpenBook;
use settlement::rows::ROW_WIDTH;

// A delivered volume, which isn't negative.
fn volume_at(rows: &[i64], i: usize) -> u64
    requires { (i < length rows.now) × (dn (get_or rows.now i (pos 0)) ≡ 0) }
    ensures { result ≡ up (get_or rows.now i (pos 0)) }
{
    rows[i] as u64
}

// The volumes of rows, one for each. By place: over `zip` a turn would tell of the pair's iterator and no longer of the volumes (see `add_volumes`).
fn store_volumes(volumes: &mut [u64], rows: &[i64])
    requires { (row_width * length volumes.old ≤ length rows.now) × ((k : ℕ) → k < length volumes.old → dn (volume_in rows.now k) ≡ 0) }
    ensures { volumes.new ≡ map (λ k. up (volume_in rows.now k)) (range 0 (length volumes.old)) }
{
    for (k, volume) in volumes.iter_mut().enumerate() {
        *volume = volume_at(rows, ROW_WIDTH * k + 1);
    }
}

// The volumes of engagement i, from `at` on; the place after them. A longest day has no more rows.
fn fill_engagement(opened: &OpenBook, i: usize, volumes: &mut [u64], at: usize) -> usize
    requires { (i < engagement_count_in opened.now.engagements.now) × (refusal_number (book_in opened.now) (engagement_at opened.now.engagements.now i) ≡ none) × (at + (engagement_at opened.now.engagements.now i).count ≤ length volumes.old) }
    ensures { (result ≡ at + (engagement_at opened.now.engagements.now i).count) × (volumes.new ≡ sets volumes.old at (volumes_of (book_in opened.now) (engagement_at opened.now.engagements.now i))) }
{
    let mut rows = [0i64; ROW_WIDTH * quarters::LONGEST_DAY];
    opened.settle_engagement_at(i, &mut rows);
    let n = opened.engagement(i).count as usize;
    store_volumes(&mut volumes[at..at + n], &rows);
    at + n
}

// The volumes of all engagements, none of which is refused.
fn fill_engagements(opened: &OpenBook, volumes: &mut [u64])
    requires { (settlement_refusal (book_in opened.now) ≡ none) × (row_count (book_in opened.now) ≤ length volumes.old) }
    ensures { volumes.new ≡ sets volumes.old 0 (book_volumes (book_in opened.now)) }
{
    let mut at = 0;
    for i in 0..opened.count() {
        at = fill_engagement(opened, i, volumes, at);
    }
}

// The volumes of a book that refusals 1 to 9 pass.
pub fn fill_volumes(book: &[u8], volumes: &mut [u64])
    requires { (book_refusal book.now ≡ none) × (row_count (book_of book.now) ≤ length volumes.old) }
    ensures { volumes.new ≡ sets volumes.old 0 (book_volumes (book_of book.now)) }
{
    let mut engaged = [0u64; MOST_POINTS];
    fill_engagements(&OpenBook::of(book, &mut engaged), volumes);
}

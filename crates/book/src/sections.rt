// The sections of a book, as parts of it.
ghost use Rattle.std.specs.Prelude.{◌≡◌, ◌+◌, ◌*◌, ◌≤◌, length};
ghost use Rattle.book.specs.Header.{offset_of, length_of, section_of, row_at};
ghost use Rattle.book.specs.SectionsInner.{extent_of};

use crate::Section;

impl Section {
    // The number of its extent, counted from 0.
    pub fn extent(self) -> usize
        ensures { result ≡ extent_of self }
    {
        self as usize
    }
}

// A section of a book in which it stands.
pub fn section(book: &[u8], section: Section) -> &[u8]
    requires { (56 ≤ length book.now) × (offset_of book.now (extent_of section) + length_of book.now (extent_of section) ≤ length book.now) }
    ensures { result.now ≡ section_of book.now (extent_of section) }
{
    let k = section.extent();
    let a = wire::u32_at(book, 16 + 8 * k) as usize;
    let e = a + (wire::u32_at(book, 20 + 8 * k) as usize);
    &book[a..e]
}

// Row i of a section whose rows have W bytes. Rows are told by number, here and by all that go over them, as in the definitions: over `as_chunks` each caller
// would have to know that row k is chunk k.
pub fn row_at<const W: usize>(section: &[u8], i: usize) -> &[u8; W]
    requires { W * i + W ≤ length section.now }
    ensures { result.now ≡ row_at W section.now i }
{
    let a = W * i;
    section[a..a + W].first_chunk().unwrap()
}

// The rows that a reading gives, in the numbers that are lent to it.
ghost use Rattle.series_reader.specs.RowsInner.{Pushed};

use passages::ReadObservation;

// What the rows of a series say beside its observations: any numbers, as rows hold them. In what is read of a series a direction is a bool: a file has
// two words for each, and `book`'s enums are the book's, of which the file's crates know nothing. Its row holds 0 or 1, which a bool gives by `From`.
#[derive(Clone, Copy, Debug, PartialEq, Eq)]
pub struct Key {
    pub partner: u64,
    pub supply: u64,
    pub delivery: u64,
}

// The lent numbers, and how many rows were read; those that the numbers have no room for are counted too.
// (They are lent beside the cursor: one struct of both is no plainer, since tags, numbers and passages are read by the cursor alone,
// as document 01 names it, and each would go through a field.
// What a series is read under, `partner`, `shared` and what was `seen`, goes beside them too: each is of another kind, and a struct of them would be made anew for each partner.)
#[derive(Drop)]
pub struct Rows<'a> {
    pub numbers: &'a mut [u64],
    pub count: usize,
}

impl<'a> Rows<'a> {
    // An observation's six numbers behind those of the rows before it, where they have room. (No file has so many rows that the count wraps.)
    pub fn push(&mut self, key: Key, o: ReadObservation)
        ensures { Pushed key o self.old self.new }
    {
        if self.count < self.numbers.len() / 6 {
            let at = self.count * 6;
            let numbers = &mut *self.numbers;
            let row = [
                key.partner,
                key.supply,
                key.delivery,
                o.position,
                o.watts,
                0,
            ];
            numbers[at..at + 6].copy_from_slice(&row);
        }
        self.count = self.count.wrapping_add(1);
    }
}

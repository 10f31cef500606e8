// Sections 1 and 2: the days' categories, and X and Y by category.
ghost use Rattle.std.specs.Prelude.{◌≡◌, ◌+◌, ◌*◌, ◌≤◌, ◌<◌, length};
ghost use Rattle.book.specs.Tables.{category_at, x_at, y_at};

pub fn category(calendar: &[u8], day: usize) -> u8
    requires { day < length calendar.now }
    ensures { result ≡ category_at calendar.now day }
{
    calendar[day]
}

// X and Y are columns with names of their own: one function of both would take 0 for X and 1 for Y. A category that the table has is a number with that bound: a
// type for it would be made for these two columns alone, with this clause at its maker.
pub fn x_of(table: &[u8], category: usize) -> u8
    requires { 2 * category + 2 ≤ length table.now }
    ensures { result ≡ x_at table.now category }
{
    table[2 * category]
}

pub fn y_of(table: &[u8], category: usize) -> u8
    requires { 2 * category + 2 ≤ length table.now }
    ensures { result ≡ y_at table.now category }
{
    table[2 * category + 1]
}

// Refusal 4: the days' categories, and X and Y by category.
ghost use Rattle.std.specs.Prelude.{◌≡◌, ◌+◌, ◌*◌, ◌≤◌, length};
ghost use Rattle.book.specs.Tables.{calendar_good, entry_good, table_good};

use book::tables::{x_of, y_of};

pub fn calendar_good(calendar: &[u8]) -> bool
    ensures { result ≡ calendar_good calendar.now }
{
    calendar.iter().all(|category| *category <= 3)
}

fn entry_good(table: &[u8], category: usize) -> bool
    requires { 2 * category + 2 ≤ length table.now }
    ensures { result ≡ entry_good table.now category }
{
    let x = x_of(table, category);
    (1..=10).contains(&x) && (x..=20).contains(&y_of(table, category))
}

#[tactic(auto, unfolding(book::specs::Tables::table_good))]
pub fn table_good(table: &[u8]) -> bool
    requires { 8 ≤ length table.now }
    ensures { result ≡ table_good table.now }
{
    entry_good(table, 0) && entry_good(table, 1) && entry_good(table, 2) && entry_good(table, 3)
}

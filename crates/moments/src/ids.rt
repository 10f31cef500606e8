// Transaction IDs.
ghost use Rattle.std.specs.Prelude.{◌≡◌};
ghost use Rattle.std.specs.List.{list_all};
ghost use Rattle.formats.specs.Name.{name_byte};
ghost use Rattle.moments.specs.Ids.{is_transaction_id};

// Whether each byte is one that a name may have.
fn only_name_bytes(s: &[u8]) -> bool
    ensures { result ≡ list_all name_byte s.now }
{
    s.iter().all(|x| formats::is_name_byte(*x))
}

// Whether bytes are a transaction ID.
#[tactic(auto, using(crate::proofs::IdsLaws::all_each), unfolding(crate::specs::Ids::is_transaction_id))]
pub fn transaction_id(s: &[u8]) -> bool
    ensures { result ≡ is_transaction_id s.now }
{
    (1..=36).contains(&s.len()) && only_name_bytes(s)
}

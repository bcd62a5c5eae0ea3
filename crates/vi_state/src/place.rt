//! Where an endpoint stands.
ghost use Rattle.std.specs.Prelude.{◌≡◌, ◌==◌, not};
ghost use Rattle.std.specs.List.{prefix_len};

/// How many ids come before this one.
pub fn place_of(ids: &[u32], id: u32) -> usize
    ensures { result ≡ prefix_len (λ x. not (x == id)) ids.now }
{
    ids.iter().take_while(|x| **x != id).count()
}

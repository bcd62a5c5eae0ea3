//! The endpoints' ids by place.
ghost use Rattle.std.specs.Prelude.{◌≡◌, ◌<◌, ◌≤◌, ◌==◌, length, IsTrue, IfSome, Some};
ghost use Rattle.std.specs.List.{position};
ghost use Rattle.vi_model.specs.Places.{place_in};
ghost use Rattle.vi_removals.specs.Takings.{has_id};

// The first place of the id, if it has one.
fn position(ids: &[u32], id: u32) -> Option<usize>
    ensures place { result ≡ position (λ x. x == id) ids.now }
    ensures below { IfSome result (λ place. place < length ids.now) }
{
    ids.iter().position(|x| *x == id)
}

/// The place of an id that there is.
pub(crate) fn place_of(ids: &[u32], id: u32) -> u32
    requires known { IsTrue (has_id id ids.now) }
    requires few { length ids.now ≤ 16 }
    ensures first { Some result ≡ position (λ x. x == id) ids.now }
    ensures place { result ≡ place_in ids.now id }
    ensures below { result < length ids.now }
{
    position(ids, id).unwrap() as u32
}

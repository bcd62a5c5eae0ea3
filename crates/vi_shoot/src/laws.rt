//! What holds of a removal's reach, as the contract of a function that does nothing.
ghost use Rattle.std.specs.Prelude.{◌≡◌, ℕ, ◌^◌, ◌<◌, ◌↔◌, IsTrue};
ghost use Rattle.vi_bytes.specs.Spans.{IsProper, Meets, meets, page_span};
ghost use Rattle.vi_shoot.specs.declared.what.Reach.{Reach};
ghost use Rattle.vi_shoot.specs.Reaches.{IsProperReach, reach_span, reaches};

/// A reach has the pages that meet its span. All pages are those below 2^52, since no page above
/// has an address of 64 bits.
pub fn reaches_by_span()
    ensures test { (reach : Reach) (page : ℕ) → page < 2 ^ 52 → reaches reach page ≡ meets (page_span page) (reach_span reach) }
    ensures meets { (reach : Reach) (page : ℕ) → page < 2 ^ 52 → IsProperReach reach
        → IsTrue (reaches reach page) ↔ Meets (page_span page) (reach_span reach) }
    ensures proper { (reach : Reach) → IsProperReach reach → IsProper (reach_span reach) }
{}

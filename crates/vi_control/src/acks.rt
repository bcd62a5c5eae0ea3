//! The device serves acknowledgements.
ghost use Rattle.std.specs.Prelude.{◌≡◌, ◌<◌, length, All, IsTrue, set};
ghost use Rattle.std.specs.List.{list_any};
ghost use Rattle.vi_bytes.specs.Spans.{IsProper};
ghost use Rattle.vi_grants.specs.Rows.{IsRow, row_at, without_span};
ghost use Rattle.vi_model.specs.Control.{link_of};
ghost use Rattle.vi_model.specs.Removals.{waits_for};
ghost use Rattle.vi_model.specs.Serves.{serve_ack};
ghost use Rattle.vi_control.specs.Value.{with_state};

use crate::Control;
use vi_bytes::Span;
use vi_grants::Grants;

impl Control {
    // An acknowledgement of the back end at this place is taken: the oldest removal that waits for the back end does so
    // no longer, and what it was granted there is taken back.
    pub(crate) fn serve_ack(&mut self, place: u32)
        requires place { place < length self.old.plan.ids }
        requires some { 0 < (link_of self.old.state place).acks }
        requires awaited { IsTrue (list_any (waits_for place) self.old.state.removals) }
        ensures { self.new ≡ with_state (serve_ack self.old.state place) self.old }
    {
        self.lanes.take_ack(place);
        let span = self.removals.acked(place);
        take_back(&mut self.grants, place, &span);
    }
}

// The grants of the back end at this place that the span meets are taken out.
fn take_back(grants: &mut Grants, place: u32, span: &Span)
    requires place { place < length grants.old }
    requires proper { IsProper span.now }
    ensures taken { grants.new ≡ set grants.old place (without_span span.now (row_at grants.old place)) }
    ensures rows { All IsRow grants.old }
{
    if grants.meets(place, span) {
        grants.take_span(place, span);
    }
}

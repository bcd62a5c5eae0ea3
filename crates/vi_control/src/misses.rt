//! The device serves misses.
ghost use Rattle.std.specs.Prelude.{◌≡◌, ◌<◌, ◌≤◌, ◌^◌, [], false, length};
ghost use Rattle.vi_bytes.specs.Parts.{IsTransfer};
ghost use Rattle.vi_fault.specs.Reports.{need_of};
ghost use Rattle.vi_lanes.specs.Frames.{said};
ghost use Rattle.vi_model.specs.Control.{link_of};
ghost use Rattle.vi_model.specs.Removals.{closed};
ghost use Rattle.vi_model.specs.Serves.{page_of, serve_miss};
ghost use Rattle.vi_model.specs.Whole.{IsWholeDev};
ghost use Rattle.vi_lines.specs.Value.{ScriptValue};
ghost use Rattle.vi_control.specs.Plan.{plan_of};
ghost use Rattle.vi_control.specs.Serving.{planned_id, granted_for, faulted_for, fault_mark, HasGrantRoom, HasFaultRoom, HasNoMiss};
ghost use Rattle.vi_control.specs.Value.{with_state, made_by};

use crate::Control;
use crate::granting::open_run;
use crate::places::is_closed;
use vi_bytes::{Need, PAGE};
use vi_fault::FaultRecord;
use vi_history::{Caller, Found, Kind, Mark};
use vi_lanes::Miss;

impl Control {
    // A miss that was taken from its lane, or isn't parked any more, is served: on a closed page it is parked, and else
    // it is granted a lease or answered with a fault, of which the mark is.
    pub(crate) fn serve_miss(&mut self, place: u32, miss: &Miss) -> Option<Mark>
        requires place { place < length self.old.plan.ids }
        requires answered { self.old.answered ≡ [] }
        requires transfer { IsTransfer miss.now.iova miss.now.len }
        requires whole { IsWholeDev self.old.state.dev }
        requires grant { HasGrantRoom (link_of self.old.state place) (page_of miss.now.iova) }
        requires fault { HasFaultRoom self.old.state (link_of self.old.state place) }
        requires alone { HasNoMiss (link_of self.old.state place) }
        ensures turn { (s : ScriptValue) → plan_of s ≡ self.old.plan → serve_miss s self.old.state place (link_of self.old.state place) (said miss.now) ≡ made_by self.new result }
        ensures plan { self.new.plan ≡ self.old.plan }
    {
        let page = miss.iova / PAGE;
        if is_closed(&self.device, &self.removals, place, page) {
            self.lanes.park(place, miss);
            return None;
        }
        match self.device.translate(place, miss.iova, miss.need) {
            Found::At(_) => {
                self.grant(place, page);
                None
            }
            Found::Fault(reason) => Some(self.fault(place, miss, reason)),
        }
    }

    // The lease for a page is granted, where there is one, and the reply says that the access doesn't fault.
    fn grant(&mut self, place: u32, page: u64)
        requires place { place < length self.old.plan.ids }
        requires page { page < 2 ^ 52 }
        requires whole { IsWholeDev self.old.state.dev }
        requires open { closed self.old.state.dev (planned_id self.old place) place page self.old.state.removals ≡ false }
        requires room { HasGrantRoom (link_of self.old.state place) page }
        ensures { self.new ≡ with_state (granted_for self.old place page) self.old }
    {
        match open_run(&self.device, &self.removals, place, page) {
            None => self.lanes.reply(place, false),
            Some(lease) => {
                self.grants.add(place, page, lease);
                self.lanes.grant(place, lease);
                self.lanes.reply(place, false);
            }
        }
    }

    // The fault of a miss is reported, and the reply says that the access faults.
    fn fault(&mut self, place: u32, miss: &Miss, reason: u8) -> Mark
        requires place { place < length self.old.plan.ids }
        requires reason { reason ≤ 2 }
        requires room { HasFaultRoom self.old.state (link_of self.old.state place) }
        ensures state { self.new ≡ with_state (faulted_for self.old place (said miss.now) reason) self.old }
        ensures mark { result ≡ fault_mark (planned_id self.old place) (said miss.now) reason }
    {
        let endpoint = self.removals.id(place);
        let record = FaultRecord {
            reason,
            write: is_write(miss.need),
            endpoint,
            address: miss.iova,
        };
        self.events.note(&record.encode());
        self.lanes.reply(place, true);
        Mark {
            caller: Caller::Back(endpoint),
            line: miss.line,
            part: miss.part,
            kind: Kind::Fault,
            code: reason,
        }
    }
}

fn is_write(need: Need) -> bool
    ensures { need_of result ≡ need }
{
    match need {
        Need::Read => false,
        Need::Write => true,
    }
}

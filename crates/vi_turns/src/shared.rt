//! The object that all threads share.
ghost use Rattle.std.specs.Prelude.{◌≡◌, ◌≢◌, ◌+◌, ◌<◌, ◌≤◌, ◌^◌, [], length, replicate, None, IfOk, MatchResult};
ghost use Rattle.vi_bytes.specs.declared.span.TheConstants.{PAGE};
ghost use Rattle.vi_model.specs.Playable.{IsPlayable};
ghost use Rattle.vi_model.specs.Worlds.{opening_control};
ghost use Rattle.vi_control.specs.Plan.{plan_of};
ghost use Rattle.vi_turns.specs.Holding.{TheControl, ThePage};
ghost use Rattle.vi_turns.specs.Views.{first, fronted, gave_back, joined, last_of, lost, split_left, split_right, stamped, won_control, won_page};
ghost use Rattle.vi_turns.specs.Order.{IsPlaced, IsSoundAt, Told};
ghost use Rattle.vi_turns.specs.Passes.{HoldsPage, IsDue, IsDueControl, IsSamePass, log_of};
ghost use Rattle.vi_turns.specs.Ended.{IsClosed};

use crate::closed::{Closed, Last};
use crate::control_box::ControlBox;
use crate::emptied::emptied;
use crate::filled::{filled, laid};
use crate::pass::Pass;
use crate::rule::{Cut, Front, Give, Glue, InOrder, Keep, Stamp, TryControl, TryPage};
use crate::slot::Slot;
use crate::view::View;
use atomic_table::Table;
use std::alloc::{AllocError, Global};
use std::marker::Model;
use vi_control::Control;
use vi_history::Mark;
use vi_lines::Script;
use vi_log::Log;
use vi_memory::Page;

/// Somebody else had the value: this call's exchange on the word found `found`, the holder's number plus 1.
#[derive(Clone, Copy, Debug, PartialEq, Eq)]
pub struct Busy {
    /// 1 is the control's word, and 2 + k that of page k.
    pub word: u32,
    pub found: u64,
}

/// What all threads share of a script's run: the ticket, the control and the pages of the memory. Word 0 is the next ticket, word 1
/// the control's lock and word 2 + k that of page k. No call waits, and none but `build` takes memory. Each pass that a
/// call takes is a pass of this object.
#[derive(Drop)]
pub struct Shared {
    table: Table<Slot, View, Script, InOrder, Global>,
    // Room for the pages, once they are out of the table.
    room: Vec<Page>,
}

impl Model for Shared {
    ghost use Rattle.std.specs.Prelude.{◌≡◌, ◌+◌, ◌<◌, ◌≤◌, ◌^◌, vec_len, vec_capacity};
    ghost use Rattle.vi_turns.specs.Passes.{Board};

    ghost Value = { Board };

    ghost view = { λ s. record { script = s.table.shared.key; table = s.table.shared.table_id } };

    ghost invariant = { λ s. (s.table.shared.table_id.words ≡ s.table.shared.key.setup.memory + 2) × (s.table.shared.table_id.slots ≡ s.table.shared.key.setup.memory + 1)
        × (s.table.shared.key.setup.memory < 2 ^ 31) × (vec_len s.room ≡ 0) × (s.table.shared.key.setup.memory ≤ vec_capacity s.room) };
}

impl Shared {
    /// The object of a script in which nothing has happened, and its first pass, with the number 0 and this log. An error is want of
    /// memory.
    pub fn build(
        alloc: Global,
        script: &Script,
        control: Control,
        pages: Vec<Page>,
        log: Log,
    ) -> Result<(Shared, Pass), AllocError>
        requires playable { IsPlayable script.now }
        requires control { (control.state ≡ opening_control script.now) × (control.plan ≡ plan_of script.now) }
        requires pages { pages.items ≡ replicate script.now.setup.memory (replicate PAGE 0) }
        requires log { log.entries ≡ [] }
        ensures own { IfOk result (λ r. (r.1.table ≡ r.0.table) × (r.0.script ≡ script.now)) }
        ensures first { IfOk result (λ r. r.1.view ≡ first script.now) }
        ensures room { IfOk result (λ r. log_of r.1 ≡ log) }
    {
        let count = pages.len();
        let (slots, room) = filled(alloc, control, pages)?;
        let (table, seat) = laid(alloc, script, count + 2, slots)?;
        let pass = Pass {
            seat,
            log,
            number: 0,
            made: 0,
        };
        Ok((Shared { table, room }, pass))
    }

    /// A new pass with this log, which has seen what pass 0 has. It acts for the next actor of the script, if there is one.
    pub fn split(&self, pass: &mut Pass, log: Log) -> Pass
        requires own { pass.old.table ≡ self.now.table }
        requires first { (pass.old.view.number ≡ 0) × (pass.old.view.made < 2 ^ 32) }
        requires log { log.entries ≡ [] }
        ensures same { IsSamePass pass.old pass.new }
        ensures made { pass.new.view ≡ split_left pass.old.view }
        ensures own { result.table ≡ self.now.table }
        ensures other { result.view ≡ split_right pass.old.view }
        ensures room { log_of result ≡ log }
    {
        let number = pass.made + 1;
        let seat = self.table.shared.split_seat::<Cut>(&mut pass.seat);
        pass.made = number;
        Pass {
            seat,
            log,
            number,
            made: 0,
        }
    }

    /// Ends a pass that holds nothing, and hands its log back. Its actor's leases are left out.
    pub fn join(&self, into: &mut Pass, pass: Pass) -> Log
        requires own { (into.old.table ≡ self.now.table) × (pass.table ≡ self.now.table) }
        requires ends { (pass.view.number ≢ 0) × (pass.view.held ≡ None) }
        ensures same { IsSamePass into.old into.new }
        ensures joined { into.new.view ≡ joined into.old.view pass.view }
        ensures log { result ≡ log_of pass }
    {
        let Pass {
            seat,
            log,
            number: _,
            made: _,
        } = pass;
        self.table.shared.join_seat::<Glue>(&mut into.seat, seat);
        log
    }

    /// A look at the ticket word: so many tickets were drawn, and the pass has seen them all.
    pub fn front(&self, pass: &mut Pass) -> u64
        requires own { pass.old.table ≡ self.now.table }
        ensures same { IsSamePass pass.old pass.new }
        ensures seen { (pass.old.view.seen ≤ result) × (pass.new.view ≡ fronted pass.old.view result) }
    {
        self.table.shared.load::<Front>(&mut pass.seat, 0)
    }

    /// Wins the control, where nobody has it. It comes in the block that `build` took for it.
    pub fn try_control(&self, pass: &mut Pass) -> Result<Box<Control>, Busy>
        requires own { pass.old.table ≡ self.now.table }
        requires empty { pass.old.view.held ≡ None }
        ensures same { IsSamePass pass.old pass.new }
        ensures won { IfOk result (λ c. pass.new.view ≡ won_control pass.old.view c.value.state) }
        ensures plan { IfOk result (λ c. c.value.plan ≡ plan_of pass.old.view.script) }
        ensures sound { IfOk result (λ c. IsSoundAt pass.old.view (TheControl c.value.state)) }
        ensures busy { MatchResult result (λ _. Unit {0}) (λ b. (b.word ≡ 1) × (b.found ≢ 0) × (pass.new.view ≡ lost pass.old.view 1 b.found)) }
    {
        let number = pass.number;
        let found = self
            .table
            .shared
            .compare_exchange::<TryControl>(&mut pass.seat, 1, 0, number + 1);
        if found != 0 {
            return Err(Busy { word: 1, found });
        }
        let taken = self.table.shared.exchange(&mut pass.seat, 0, Slot::Out);
        let Slot::Control(control) = taken else {
            unreachable!()
        };
        Ok(control.into_box())
    }

    /// Gives the control back: the one that the pass recorded at its stamp, or else the one that its actor's turn leaves,
    /// which then makes no entry.
    pub fn give_control(&self, pass: &mut Pass, control: Box<Control>)
        requires own { pass.old.table ≡ self.now.table }
        requires due { IsDueControl pass.old.view control.value }
        ensures same { IsSamePass pass.old pass.new }
        ensures given { pass.new.view ≡ gave_back pass.old.view }
        ensures placed { IsPlaced pass.new.view }
    {
        let value = Slot::Control(ControlBox::of(control));
        let out = self.table.shared.exchange(&mut pass.seat, 0, value);
        drop(out);
        self.table.shared.store::<Give>(&mut pass.seat, 1, 0);
    }

    /// Wins a page of the memory, where nobody has it.
    pub fn try_page(&self, pass: &mut Pass, page: u32) -> Result<Page, Busy>
        requires own { pass.old.table ≡ self.now.table }
        requires inside { page < self.now.script.setup.memory }
        requires empty { pass.old.view.held ≡ None }
        ensures same { IsSamePass pass.old pass.new }
        ensures won { IfOk result (λ b. pass.new.view ≡ won_page pass.old.view page b) }
        ensures sound { IfOk result (λ b. IsSoundAt pass.old.view (ThePage page b)) }
        ensures busy { MatchResult result (λ _. Unit {0}) (λ b. (b.word ≡ page + 2) × (b.found ≢ 0) × (pass.new.view ≡ lost pass.old.view (page + 2) b.found)) }
    {
        let number = pass.number;
        let slot = page as usize + 1;
        let found = self
            .table
            .shared
            .compare_exchange::<TryPage>(&mut pass.seat, slot + 1, 0, number + 1);
        if found != 0 {
            return Err(Busy {
                word: page + 2,
                found,
            });
        }
        let taken = self.table.shared.exchange(&mut pass.seat, slot, Slot::Out);
        let Slot::Page(value) = taken else {
            unreachable!()
        };
        Ok(value)
    }

    /// Gives a page back as the pass records it.
    pub fn give_page(&self, pass: &mut Pass, page: u32, value: Page)
        requires own { pass.old.table ≡ self.now.table }
        requires inside { page < self.now.script.setup.memory }
        requires due { HoldsPage page value pass.old.view }
        ensures same { IsSamePass pass.old pass.new }
        ensures given { pass.new.view ≡ gave_back pass.old.view }
        ensures placed { IsPlaced pass.new.view }
    {
        let slot = page as usize + 1;
        let out = self
            .table
            .shared
            .exchange(&mut pass.seat, slot, Slot::Page(value));
        drop(out);
        self.table.shared.store::<Give>(&mut pass.seat, slot + 1, 0);
    }

    /// Draws the ticket of the entry that the pass's actor makes of what the pass holds, and logs it. The ticket is its
    /// place in the history, behind all that the pass has seen.
    pub fn stamp(&self, pass: &mut Pass, mark: Mark, bytes: &[u8]) -> u64
        requires own { pass.old.table ≡ self.now.table }
        requires room { (1 ≤ pass.old.spare_entries) × (length bytes.now ≤ pass.old.spare_bytes) }
        requires due { IsDue pass.old.view (record { mark = mark; bytes = bytes.now }) }
        ensures own { (pass.new.table ≡ pass.old.table) × (pass.new.seat ≡ pass.old.seat) }
        ensures room { (pass.new.spare_entries + 1 ≡ pass.old.spare_entries) × (pass.new.spare_bytes + length bytes.now ≡ pass.old.spare_bytes) }
        ensures ticket { (pass.old.view.seen ≤ result) × (pass.new.view ≡ stamped pass.old.view result) }
        ensures stands { Told pass.old.view.script result pass.new.view }
    {
        let ticket = self.table.shared.fetch_add::<Stamp>(&mut pass.seat, 0, 1);
        pass.log.push(ticket, mark, bytes);
        ticket
    }

    /// Ends the object with pass 0, once every other pass was joined.
    pub fn close(self, pass: Pass) -> Closed
        requires own { pass.table ≡ self.table }
        requires first { (pass.view.number ≡ 0) × (pass.view.held ≡ None) }
        requires all { length pass.view.taken ≡ pass.view.made }
        ensures log { result.log ≡ log_of pass }
        ensures last { result.last ≡ last_of pass.view }
        ensures closed { IsClosed self.script result.last result.control result.pages.items }
    {
        let Shared { table, room } = self;
        let Pass {
            mut seat,
            log,
            number: _,
            made: _,
        } = pass;
        let keepsake = table.shared.split_seat::<Keep>(&mut seat);
        let (control, pages) = emptied(table.close_with(seat), room);
        Closed::of(control, pages, log, Last::of(keepsake))
    }
}

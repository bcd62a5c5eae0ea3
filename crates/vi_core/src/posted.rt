//! Whether what is awaited is posted as finished.
ghost use Rattle.std.specs.Prelude.{◌≡◌, All};
ghost use Rattle.std.specs.List.{list_all};
ghost use Rattle.vi_control.specs.Calls.{IsCaller};
ghost use Rattle.vi_core.specs.Posting.{is_posted_by};

use vi_control::Control;
use vi_lines::Await;

/// Whether all these lines are posted as finished.
pub fn are_posted(control: &Control, awaits: &[Await]) -> bool
    requires { All (λ a. IsCaller control.now.plan.ids a.caller) awaits.now }
    ensures { result ≡ list_all (is_posted_by control.now.plan.ids control.now.state) awaits.now }
{
    awaits.iter().all(|a| a.line <= control.posted(a.caller))
}

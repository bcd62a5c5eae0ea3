//! What holds of a task that takes translations away, as the contract of a function that does nothing.
ghost use Rattle.std.specs.Prelude.{◌≡◌, true, map};
ghost use Rattle.vi_history.specs.Device.{Dev};
ghost use Rattle.vi_model.specs.declared.task.Task.{Task};
ghost use Rattle.vi_model.specs.Tasks.{removes};
ghost use Rattle.vi_removals.specs.Takings.{IsTaking};

/// A task that takes translations away from the endpoints of a device is one that a removal may begin with, where its
/// ids are those of these endpoints.
pub fn removals_take()
    ensures { (dev : Dev) (task : Task) → removes dev task ≡ true → IsTaking (map (λ x. x.id) dev.endpoints) task }
{}

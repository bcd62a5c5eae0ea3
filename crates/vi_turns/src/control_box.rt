//! The control on its way into a slot and out of it.
ghost use Rattle.std.specs.Prelude.{◌≡◌, IfOk};

use std::alloc::{AllocError, Global};
use std::marker::Model;
use vi_control::Control;

/// The control in a block of its own, so that a slot has a pointer: to win or to give back moves no more than that, be it the
/// control or a page. Contracts see it as the control.
#[derive(Drop)]
pub struct ControlBox {
    inner: Box<Control>,
}

impl Model for ControlBox {
    ghost use Rattle.vi_control.specs.Value.{ControlValue};

    ghost Value = { ControlValue };

    ghost view = { λ b. b.inner.value };
}

impl ControlBox {
    /// A block of its own for the control. An error means out of memory.
    pub(crate) fn build(alloc: Global, control: Control) -> Result<ControlBox, AllocError>
        ensures { IfOk result (λ b. b ≡ control) }
    {
        Ok(ControlBox {
            inner: Box::new(alloc, control)?,
        })
    }

    /// The control that lies in this block.
    pub(crate) fn of(inner: Box<Control>) -> ControlBox
        ensures { result ≡ inner.value }
    {
        ControlBox { inner }
    }

    /// The block with the control, as who wins it takes it.
    pub(crate) fn into_box(self) -> Box<Control>
        ensures { result.value ≡ self }
    {
        self.inner
    }

    /// The control itself, once the object is closed.
    pub(crate) fn into_inner(self) -> Control
        ensures { result ≡ self }
    {
        Box::into_inner(self.inner)
    }
}

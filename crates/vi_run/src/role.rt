//! What actors work with.
use vi_backend::Backend;
use vi_driver::Driver;

/// What an actor works with between its turns.
#[derive(Drop)]
pub enum Role {
    Driver(Driver),
    /// With the place of its endpoint.
    Back(u32, Backend),
    Device,
    /// Whether the script has an event reader.
    Events(bool),
}

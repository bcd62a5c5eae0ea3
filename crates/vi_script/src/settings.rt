//! The settings of a script that is being read.
ghost use Rattle.std.specs.Prelude.{◌≡◌, true};
ghost use Rattle.vi_script.specs.Drafts.{is_set, is_switched, setting_fits, with_number, with_switch, setup_with};

use crate::form::{Setting, Switch};
use vi_bytes::{EndpointSetup, Items, Span};
use vi_history::Setup;

/// The settings that were given, each within its limits.
#[derive(Clone, Copy, Default)]
pub struct Settings {
    pub memory: Option<u32>,
    pub queue: Option<u16>,
    pub cache: Option<u32>,
    pub granule: Option<u32>,
    pub input: Option<Span>,
    pub bypass: Option<bool>,
    pub events: Option<bool>,
}

impl Settings {
    /// Whether the setting of a number was given.
    pub fn is_set(&self, setting: Setting) -> bool
        ensures { result ≡ is_set setting self.now }
    {
        match setting {
            Setting::Memory => self.memory.is_some(),
            Setting::Queue => self.queue.is_some(),
            Setting::Cache => self.cache.is_some(),
            Setting::Granule => self.granule.is_some(),
        }
    }

    /// Whether the setting that is on or off was given.
    pub fn is_switched(&self, setting: Switch) -> bool
        ensures { result ≡ is_switched setting self.now }
    {
        match setting {
            Switch::Bypass => self.bypass.is_some(),
            Switch::Events => self.events.is_some(),
        }
    }

    /// The settings with this one, whose number is within its limits.
    pub fn with(self, setting: Setting, number: u64) -> Settings
        requires { setting_fits setting number ≡ true }
        ensures { result ≡ with_number setting number self }
    {
        match setting {
            Setting::Memory => Settings {
                memory: Some(number as u32),
                ..self
            },
            Setting::Queue => Settings {
                queue: Some(number as u16),
                ..self
            },
            Setting::Cache => Settings {
                cache: Some(number as u32),
                ..self
            },
            Setting::Granule => Settings {
                granule: Some(number as u32),
                ..self
            },
        }
    }

    /// The settings with this one on or off.
    pub fn switched(self, setting: Switch, on: bool) -> Settings
        ensures { result ≡ with_switch setting on self }
    {
        match setting {
            Switch::Bypass => Settings {
                bypass: Some(on),
                ..self
            },
            Switch::Events => Settings {
                events: Some(on),
                ..self
            },
        }
    }

    /// The setup of these settings and endpoints. What was left out has its default.
    pub fn setup(self, endpoints: Items<EndpointSetup>) -> Setup
        ensures { result ≡ setup_with self endpoints }
    {
        let all = Span {
            first: 0,
            last: u64::MAX,
        };
        Setup {
            memory: self.memory.unwrap_or(16),
            queue: self.queue.unwrap_or(16),
            cache: self.cache.unwrap_or(8),
            granule: self.granule.unwrap_or(4096),
            input: self.input.unwrap_or(all),
            bypass: self.bypass.unwrap_or(false),
            events: self.events.unwrap_or(true),
            endpoints,
        }
    }
}

/// Whether a number is within the limits of the setting.
pub fn setting_fits(setting: Setting, number: u64) -> bool
    ensures { result ≡ setting_fits setting number }
{
    match setting {
        Setting::Memory => 1 <= number && number <= 16384,
        Setting::Queue => matches!(number, 16 | 32 | 64 | 128 | 256),
        Setting::Cache => 1 <= number && number <= 64,
        Setting::Granule => matches!(number, 4096 | 16384 | 65536),
    }
}

//! What holds of the configuration space, as the contract of a function that does nothing.
ghost use Rattle.std.specs.Prelude.{◌≡◌, Bool, slice_set};
ghost use Rattle.vi_config.specs.Space.{config_bytes, bypass_byte};
ghost use Rattle.vi_config.specs.declared.config.Config.{Config};

/// A bypass setting changes byte 36 alone: with that byte set, the bytes of a configuration are
/// those of the configuration with that setting.
pub fn bypass_is_byte_36()
    ensures { (c : Config) (bypass : Bool)
        → slice_set (config_bytes c) 36 (bypass_byte bypass)
        ≡ config_bytes (record c { bypass = bypass }) }
{}

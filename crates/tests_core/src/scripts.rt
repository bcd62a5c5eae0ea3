//! Scripts that the tests read.
ghost use Rattle.std.specs.Prelude.{◌<◌, length, IfOk};
ghost use Rattle.vi_lines.specs.Calls.{HasTransfers};
ghost use Rattle.vi_lines.specs.Valid.{IsValid};
ghost use Rattle.vi_model.specs.Playable.{IsPlayable};

use std::alloc::Global;
use vi_lines::Script;
use vi_script::{ScriptFault, parse};

/// The script of this text, which can be played.
pub(crate) fn script_of(alloc: Global, text: &[u8]) -> Result<Script, ScriptFault>
    requires { length text.now < 1000 }
    ensures valid { IfOk result IsValid }
    ensures transfers { IfOk result HasTransfers }
    ensures playable { IfOk result IsPlayable }
{
    vi_sound::valid_is_playable();
    let script = parse(alloc, text)?;
    Ok(script)
}

//! What holds of every load script.
ghost use Rattle.vi_make.specs.Laws.{IsAccepted, HasTextLines, HasCallerLines};

/// The load script of 1 to 400 rounds is a script: reading it refuses none of its lines. It has
/// `20 * rounds + 11` lines of text, and `20 * rounds + 4` of them are lines of drivers and endpoints.
pub fn load_script_is_accepted()
    ensures accepted { IsAccepted }
    ensures text_lines { HasTextLines }
    ensures caller_lines { HasCallerLines }
{}

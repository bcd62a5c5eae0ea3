//! What is so of the control of every sound world, as the contract of a function that does nothing.
ghost use Rattle.vi_lines.specs.Value.{ScriptValue};
ghost use Rattle.vi_model.specs.Places.{place_count};
ghost use Rattle.vi_model.specs.Playable.{IsPlayable};
ghost use Rattle.vi_model.specs.Sound.{IsSound};
ghost use Rattle.vi_model.specs.Worlds.{World};
ghost use Rattle.vi_control.specs.Rooms.{HasTurnRoom};

/// In a sound world the control has the room that the device's turns ask for.
#[tactic(auto, using(crate::proofs::Sound::sound_room))]
pub fn sound_has_room()
    ensures { (s : ScriptValue) (w : World) → IsPlayable s → IsSound s w → HasTurnRoom (place_count s) w.control }
{}

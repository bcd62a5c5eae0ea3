//! Why no access is stale: laws of the core's turns, each as the contract of a function that does
//! nothing. Every turn keeps the world sound, a sound world's history is legal, there is room in
//! it for what a turn adds, and rounds of turns finish every line. For an author of proofs on a
//! core.
//!
//! Main calls:
//! - `turns_keep_sound`: every turn of any actor keeps a sound world sound.
//! - `sound_is_legal`: the history of a sound world is legal and in order so far.
//! - `finished_is_taken`: when a removal is finished, no back end caches a page that it takes away.
//!
//! # How it is used
//!
//! `crates/vi_run/proofs/Opening.antt` begins a run with `sound = opening_is_sound s play;`. For
//! the world `y` behind a new entry, `crates/vi_turns/proofs/Stamps.antt` has:
//! `let legal = sound_is_legal s y sound in record {`
//!
//! Code cites a law by a call: `vi_sound::valid_is_playable();` in
//! `crates/tests_core/src/scripts.rt`.
//!
//! # Limits
//!
//! The laws are on the definitions of `vi_model`, where one turn follows another; that code does
//! these turns is proved in `vi_core`, `vi_turns` and `vi_run`. Many ask for a playable script,
//! one that is valid and whose requests fit their fields. A sound world has at most 8 open calls
//! of drivers, and fewer than 2^64 entries. `rounds_finish` is on rounds of one turn of each
//! actor, and not on threads. No function here runs code or takes memory.
//!
//! # Source
//!
//! A legal history is one of the one-thread device of `vi_history`, which restates Virtio 1.2,
//! 5.13.
#![tactic(auto)]

ghost use Rattle.vi_model.specs.Bound.{MovesLower};
ghost use Rattle.vi_model.specs.Bounds.{AcksAreAwaited, AcksFit, AnswersOnce, AsksFit, CallsFit, HistoryFits, LanesFit, MappingsAreWhole, MissesFit, OpenCallsFit, RequestsFit, SettingsFit, SubmitsFit};
ghost use Rattle.vi_model.specs.Delivered.{RecordsAreShownWell};
ghost use Rattle.vi_model.specs.Laws.{AccessesAnswer, AccessesKeepSound, ActorsAccess, ActorsGoOn, ControlKeepsSound, EveryRunIsLegal, FewerLeasesKeepSound, FinishedIsOrdered, OnlyMovedChanges, OpeningIsSound, OthersStay, PlacesHaveIds, SoundIsLegal, TurnsKeepSound, ValidIsPlayable};
ghost use Rattle.vi_model.specs.Rounds.{FinishedHasFinished, RoundsFinish};
ghost use Rattle.vi_model.specs.Taken.{FinishedIsTaken, StartedIsTaken};

/// A valid script whose requests fit their fields is playable, so every script that is parsed is.
pub fn valid_is_playable()
    ensures { ValidIsPlayable }
{}

/// The world of a playable script in which nothing has happened is sound.
pub fn opening_is_sound()
    ensures { OpeningIsSound }
{}

/// A turn of any actor under control keeps a sound world sound: it submits, collects, starts, finishes, serves,
/// asks, receives or reads a record, or changes nothing.
pub fn control_keeps_sound()
    ensures { ControlKeepsSound }
{}

/// A back end's access of a page of the memory, by a lease that it caches, keeps a sound world sound.
pub fn accesses_keep_sound()
    ensures { AccessesKeepSound }
{}

/// An access by a lease that leads where the device leads now, and that permits it, has the one-thread device's answer,
/// and leaves the memory that this device leaves.
pub fn accesses_answer()
    ensures { AccessesAnswer }
{}

/// Every turn keeps a sound world sound, whoever takes it.
pub fn turns_keep_sound()
    ensures { TurnsKeepSound }
{}

/// A sound world stays sound where leases are left out of a back end's cache.
pub fn fewer_leases_keep_sound()
    ensures { FewerLeasesKeepSound }
{}

/// The history of a sound world is legal and in order so far.
pub fn sound_is_legal()
    ensures { SoundIsLegal }
{}

/// Whatever turns the actors take, in any order, each answer is the one that the one-thread device gives at that
/// place, and each call comes after those that it awaits.
pub fn every_run_is_legal()
    ensures { EveryRunIsLegal }
{}

/// A turn changes nothing that another actor has for itself.
pub fn others_stay()
    ensures { OthersStay }
{}

/// A sound world's history has fewer than 2^64 entries.
pub fn history_fits()
    ensures { HistoryFits }
{}

/// In a sound world at most 8 calls of drivers are open: queued, waiting in removals, left as settings and answered.
pub fn open_calls_fit()
    ensures { OpenCallsFit }
{}

/// In a sound world there is room for the next line of a driver whose open lines are all of that line's batch.
pub fn submits_fit()
    ensures { SubmitsFit }
{}

/// In a sound world a removal waits for each back end with an acknowledgement under way.
pub fn acks_are_awaited()
    ensures { AcksAreAwaited }
{}

/// In a sound world mappings and regions are whole pages.
pub fn mappings_are_whole()
    ensures { MappingsAreWhole }
{}

/// In a sound world no line of a driver is answered twice.
pub fn answers_once()
    ensures { AnswersOnce }
{}

/// In a sound world at most 8 requests are queued or wait for a removal.
pub fn calls_fit()
    ensures { CallsFit }
{}

/// In a sound world the lanes of each back end are within their bounds.
pub fn lanes_fit()
    ensures { LanesFit }
{}

/// In a sound world there is room to start the next request of the queue.
pub fn requests_fit()
    ensures { RequestsFit }
{}

/// In a sound world there is room to start a setting of the bypass field that a driver left.
pub fn settings_fit()
    ensures { SettingsFit }
{}

/// In a sound world there is room to serve a miss, whether it is on its way up or parked.
pub fn misses_fit()
    ensures { MissesFit }
{}

/// In a sound world a back end asks only where no other miss of its is on its way.
pub fn asks_fit()
    ensures { AsksFit }
{}

/// In a sound world a back end that takes an Invalidate finds room for the acknowledgement.
pub fn acks_fit()
    ensures { AcksFit }
{}

/// Where every line is finished, a sound world's history is in order: each back end's lines block by block, each
/// driver's batch by batch, and every call after those that it awaits.
pub fn finished_is_ordered()
    ensures { FinishedIsOrdered }
{}

/// A turn that waits or rests changes nothing.
pub fn only_moved_changes()
    ensures { OnlyMovedChanges }
{}

/// The fault records that a sound world has delivered are those of its history in order, with one for each of the
/// first faults as far as there are event buffers, and the others are counted as dropped.
pub fn records_are_shown_well()
    ensures { RecordsAreShownWell }
{}

/// When a removal is finished, no back end caches a page that it takes away, and none is on its way.
pub fn finished_is_taken()
    ensures { FinishedIsTaken }
{}

/// Nor is one anywhere when a removal starts that has nobody to wait for.
pub fn started_is_taken()
    ensures { StartedIsTaken }
{}

/// What an actor has after its turn under control is what the turn says.
pub fn actors_go_on()
    ensures { ActorsGoOn }
{}

/// What a back end has after an access is what the access says.
pub fn actors_access()
    ensures { ActorsAccess }
{}

/// The back end at a place is the one of the endpoint's id.
pub fn places_have_ids()
    ensures { PlacesHaveIds }
{}

/// A turn that moves lowers an upper bound on the moves that are left.
pub fn moves_lower()
    ensures { MovesLower }
{}

/// Whatever turns the actors take first, in any order, at most 24 * (calls + 1) * (back ends + 1) rounds then finish
/// every line; a driver's line is a call, and so is each part of a transfer.
pub fn rounds_finish()
    ensures { RoundsFinish }
{}

/// Where the rounds end, every line of every caller is finished.
pub fn finished_has_finished()
    ensures { FinishedHasFinished }
{}

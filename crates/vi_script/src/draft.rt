//! A script that is being read: what its lines have said so far, and how the next one is judged.
ghost use Rattle.std.specs.Prelude.{◌≡◌, ◌==◌, ◌<◌, true, false, nat_lt, length, map, ◌++◌, IfOk, OnOk};
ghost use Rattle.std.specs.List.{find, list_all, list_any};
ghost use Rattle.std.specs.Option.{option_copied};
ghost use Rattle.vi_bytes.specs.Spans.{meets};
ghost use Rattle.vi_script.specs.Formed.{formed};
ghost use Rattle.vi_script.specs.Faults.{Reads};
ghost use Rattle.vi_lines.specs.Rules.{is_aligned, job_runs_over, runs_over, awaits_well};
ghost use Rattle.vi_script.specs.Judging.{is_late, is_again, is_undeclared, has_bad_span, is_within, awaits_badly, taken, declares, has_regions, regions_of, is_bad_region, is_declared, turn_is_declared, turn_is_driver, line_fits};
ghost use Rattle.vi_lines.specs.Limits.{is_job, is_length, is_driver, transferred};
ghost use Rattle.vi_script.specs.Names.{named, awaited, turned, all_awaited, all_turned, await_kept, turn_kept, caller_kept};
ghost use Rattle.vi_script.specs.Said.{nothing_said, says, script_of, reserved_if};
ghost use Rattle.vi_script.specs.Statements.{Input, Endpoint, Reserve, Turns, Actor, turn_fits};
ghost use Rattle.vi_script.specs.Stated.{stated, line_of_names, job_of_numbers, HasNames, HaveNames};

use crate::fault::{BadKind, Refusal};
use crate::form::{FormWords, Setting};
use crate::name::{AwaitedName, Name, TurnName};
use crate::settings::{Settings, setting_fits};
use crate::statement::{ActorLine, JobNumbers, Parsed};
use crate::tally::Tally;
use std::alloc::{AllocError, Global};
use std::marker::Model;
use vi_bytes::{EndpointSetup, Items, Region, Span};
use vi_lines::{Await, Job, Line, Script, Who};

/// The most lines of a text, those that say nothing included.
pub const MOST_LINES: u32 = 10_000;
/// The most endpoints, and the most regions of one.
const MOST_ENDPOINTS: usize = 16;
/// The most bytes that one line transfers, and all lines together.
const MOST_BYTES: u64 = 65_536;

const MOST_BYTES_IN_ALL: u64 = 1 << 24;
/// The most bytes of each part of a raw request.
const MOST_RAW: u64 = 1024;
/// The most lines that one line awaits.
const MOST_AWAITED: usize = 16;
/// The most calls that can be open at once.
const MOST_OPEN_CALLS: u64 = 8;

/// What the lines of a text have said so far.
#[derive(Drop)]
pub struct Draft {
    settings: Settings,
    endpoints: Vec<EndpointSetup>,
    turns: Vec<Who>,
    lines: Tally,
}

impl Model for Draft {
    ghost use Rattle.vi_script.specs.Said.{Said};

    ghost Value = { Said };

    ghost view = { λ d. record { settings = d.settings; endpoints = d.endpoints.items; turns = d.turns.items; lines = d.lines } };
}

impl Draft {
    /// Nothing was said yet. No memory is taken.
    pub fn new(alloc: Global) -> Draft
        ensures { result ≡ nothing_said }
    {
        Draft {
            settings: Settings {
                memory: None,
                queue: None,
                cache: None,
                granule: None,
                input: None,
                bypass: None,
                events: None,
            },
            endpoints: Vec::new(alloc),
            turns: Vec::new(alloc),
            lines: Tally::new(alloc),
        }
    }

    /// Whether a line of this form stands too late: a setup line below an actor line, or a `granule` line
    /// below a `reserve` line.
    pub fn is_late(&self, form: &FormWords) -> bool
        ensures { result ≡ is_late self.now (formed form.now) }
    {
        match form {
            FormWords::Acts(..) => false,
            FormWords::Sets(Setting::Granule, _) => self.lines.has_lines() || self.has_regions(),
            FormWords::Sets(..)
            | FormWords::Switches(..)
            | FormWords::Endpoint(_)
            | FormWords::Input { .. }
            | FormWords::Reserve { .. }
            | FormWords::Turns(_) => self.lines.has_lines(),
        }
    }

    /// That a statement on the line of this number is taken below what was said, or the kind of its refusal.
    pub fn judge(&self, number: u32, statement: &Parsed) -> Result<(), Refusal>
        ensures { Reads (λ _. stated statement.now) result (taken self.now number (stated statement.now)) }
    {
        if self.is_again(statement) {
            return Err(Refusal::Bad(BadKind::Again));
        }
        if self.is_undeclared(statement) {
            return Err(Refusal::Bad(BadKind::Endpoint));
        }
        if self.has_bad_span(statement) {
            return Err(Refusal::Bad(BadKind::Span));
        }
        if number > MOST_LINES || !self.is_within(statement) {
            return Err(Refusal::Bad(BadKind::Limit));
        }
        if self.awaits_badly(statement) {
            return Err(Refusal::Bad(BadKind::After));
        }
        Ok(())
    }

    /// Whether an endpoint has a region.
    fn has_regions(&self) -> bool
        ensures { result ≡ has_regions self.now }
    {
        self.endpoints.iter().any(|e| e.regions.len() > 0)
    }

    /// Whether the endpoint of this id is declared.
    fn declares(&self, id: u64) -> bool
        ensures { result ≡ declares self.now id }
    {
        self.endpoints.iter().any(|e| u64::from(e.id) == id)
    }

    /// The endpoint of this id, if it is declared.
    fn endpoint(&self, id: u32) -> Option<&EndpointSetup>
        ensures { option_copied result ≡ find (λ e. e.id == id) self.now.endpoints }
    {
        self.endpoints.iter().find(|e| e.id == id)
    }

    /// The regions of the endpoint of this id, none where it isn't declared.
    fn regions_of(&self, id: u32) -> &[Region]
        ensures { result.now ≡ regions_of self.now id }
    {
        match self.endpoint(id) {
            Some(endpoint) => endpoint.regions.as_slice(),
            None => &[],
        }
    }

    /// Whether the statement gives a setting a second time, or declares an endpoint twice.
    fn is_again(&self, statement: &Parsed) -> bool
        ensures { result ≡ is_again self.now (stated statement.now) }
    {
        match statement {
            Parsed::Sets(setting, _) => self.settings.is_set(*setting),
            Parsed::Switches(setting, _) => self.settings.is_switched(*setting),
            Parsed::Endpoint(id) => self.declares(u64::from(*id)),
            Parsed::Input(_) => self.settings.input.is_some(),
            Parsed::Reserve(..) | Parsed::Turns(_) | Parsed::Actor(_) => false,
        }
    }

    /// Whether the caller of this name is a driver, or the back end of a declared endpoint.
    fn is_declared(&self, caller: Name) -> bool
        ensures { result ≡ is_declared self.now (named caller) }
    {
        match caller {
            Name::Driver(_) => true,
            Name::Back(id) => self.declares(id),
        }
    }

    /// Whether the turn of this name isn't one of an endpoint that isn't declared.
    fn turn_is_declared(&self, turn: TurnName) -> bool
        ensures { result ≡ turn_is_declared self.now (turned turn) }
    {
        match turn {
            TurnName::Caller(caller) => self.is_declared(caller),
            TurnName::Device | TurnName::Events => true,
        }
    }

    /// Whether all turns are so.
    fn turns_are_declared(&self, turns: &[TurnName]) -> bool
        ensures { result ≡ list_all (λ t. turn_is_declared self.now (turned t)) turns.now }
    {
        turns.iter().all(|turn| self.turn_is_declared(*turn))
    }

    /// Whether the statement speaks of an endpoint that isn't declared.
    fn is_undeclared(&self, statement: &Parsed) -> bool
        ensures { result ≡ is_undeclared self.now (stated statement.now) }
    {
        match statement {
            Parsed::Reserve(id, _) => !self.declares(u64::from(*id)),
            Parsed::Turns(turns) => !self.turns_are_declared(turns),
            Parsed::Actor(line) => !self.is_declared(line.caller),
            Parsed::Sets(..) | Parsed::Switches(..) | Parsed::Endpoint(_) | Parsed::Input(_) => {
                false
            }
        }
    }

    /// Whether the statement's range or region is a bad one, or its transfer passes the last address.
    fn has_bad_span(&self, statement: &Parsed) -> bool
        ensures { result ≡ has_bad_span self.now (stated statement.now) }
    {
        match statement {
            Parsed::Input(span) => span.last < span.first,
            Parsed::Reserve(id, region) => is_bad_region(
                self.settings.granule.unwrap_or(4096),
                self.regions_of(*id),
                region.span,
            ),
            Parsed::Actor(line) => job_runs_over(&line.job),
            Parsed::Sets(..) | Parsed::Switches(..) | Parsed::Endpoint(_) | Parsed::Turns(_) => {
                false
            }
        }
    }

    /// Whether the statement is within its limits.
    fn is_within(&self, statement: &Parsed) -> bool
        ensures { result ≡ is_within self.now (stated statement.now) }
    {
        match statement {
            Parsed::Sets(setting, number) => setting_fits(*setting, *number),
            Parsed::Endpoint(_) => self.endpoints.len() < MOST_ENDPOINTS,
            Parsed::Reserve(id, _) => self.regions_of(*id).len() < MOST_ENDPOINTS,
            Parsed::Turns(turns) => turns_of_drivers(turns),
            Parsed::Actor(line) => self.line_fits(line),
            Parsed::Switches(..) | Parsed::Input(_) => true,
        }
    }

    /// Whether an actor line is within its limits, and all lines with it.
    fn line_fits(&self, line: &ActorLine) -> bool
        ensures { result ≡ line_fits self.now.lines (line_of_names line.now) }
    {
        if !line.caller.is_driver() {
            return false;
        }
        if !all_drivers(&line.awaits) {
            return false;
        }
        if !line.job.is_within() {
            return false;
        }
        if self.lines.transferred() + line.job.transferred() > MOST_BYTES_IN_ALL {
            return false;
        }
        if line.awaits.len() > MOST_AWAITED {
            return false;
        }
        self.lines.open_calls_with(line.caller, line.add) <= MOST_OPEN_CALLS
    }

    /// Whether the line of this name is above, and of another caller.
    fn awaits_well(&self, caller: Name, name: AwaitedName) -> bool
        ensures { result ≡ awaits_well self.now.lines (named caller) (awaited name) }
    {
        name.caller != caller && 1 <= name.line && name.line <= self.lines.count(name.caller)
    }

    /// Whether the statement is a line that awaits one that isn't above, or one of its own caller.
    fn awaits_badly(&self, statement: &Parsed) -> bool
        ensures { result ≡ awaits_badly self.now (stated statement.now) }
    {
        match statement {
            Parsed::Actor(line) => !self.all_well(line.caller, &line.awaits),
            Parsed::Sets(..)
            | Parsed::Switches(..)
            | Parsed::Endpoint(_)
            | Parsed::Input(_)
            | Parsed::Reserve(..)
            | Parsed::Turns(_) => false,
        }
    }

    /// Whether all awaited lines are above, and of other callers.
    fn all_well(&self, caller: Name, names: &[AwaitedName]) -> bool
        ensures { result ≡ list_all (λ name. awaits_well self.now.lines (named caller) (awaited name)) names.now }
    {
        names.iter().all(|name| self.awaits_well(caller, *name))
    }

    /// What was said and one more statement, which is taken. An error means out of memory.
    pub fn with(self, alloc: Global, statement: Parsed) -> Result<Draft, AllocError>
        requires names { HaveNames statement }
        requires within { is_within self (stated statement) ≡ true }
        requires room { length self.lines < 10000 }
        ensures { IfOk result (λ draft. draft ≡ says self (stated statement)) }
    {
        match statement {
            Parsed::Sets(setting, number) => Ok(Draft {
                settings: self.settings.with(setting, number),
                ..self
            }),
            Parsed::Switches(setting, on) => Ok(Draft {
                settings: self.settings.switched(setting, on),
                ..self
            }),
            Parsed::Input(span) => Ok(self.with_input(span)),
            Parsed::Endpoint(id) => self.with_endpoint(alloc, id),
            Parsed::Reserve(id, region) => self.with_region(alloc, id, region),
            Parsed::Turns(names) => self.with_turns(&names),
            Parsed::Actor(line) => self.with_line(alloc, line),
        }
    }

    /// What was said and an `input` line.
    fn with_input(self, span: Span) -> Draft
        ensures { result ≡ says self (Input span) }
    {
        let settings = Settings {
            input: Some(span),
            ..self.settings
        };
        Draft { settings, ..self }
    }

    /// What was said and an `endpoint` line.
    fn with_endpoint(self, alloc: Global, id: u32) -> Result<Draft, AllocError>
        ensures { IfOk result (λ draft. draft ≡ says self (Endpoint id)) }
    {
        let mut endpoints = self.endpoints;
        endpoints.push(EndpointSetup {
            id,
            regions: Items::new(alloc),
        })?;
        Ok(Draft {
            settings: self.settings,
            endpoints,
            turns: self.turns,
            lines: self.lines,
        })
    }

    /// What was said and a `reserve` line.
    fn with_region(self, alloc: Global, id: u32, region: Region) -> Result<Draft, AllocError>
        ensures { IfOk result (λ draft. draft ≡ says self (Reserve id region)) }
    {
        let endpoints = reserved(alloc, self.endpoints, id, region)?;
        Ok(Draft {
            settings: self.settings,
            endpoints,
            turns: self.turns,
            lines: self.lines,
        })
    }

    /// What was said and a `turns` line, whose names fit.
    fn with_turns(self, names: &[TurnName]) -> Result<Draft, AllocError>
        requires fit { list_all (λ t. turn_fits t) (all_turned names.now) ≡ true }
        requires drivers { list_all (λ t. turn_is_driver t) (all_turned names.now) ≡ true }
        ensures { IfOk result (λ draft. draft ≡ says self (Turns (all_turned names.now))) }
    {
        let mut turns = self.turns;
        add_turns(&mut turns, names)?;
        Ok(Draft {
            settings: self.settings,
            endpoints: self.endpoints,
            turns,
            lines: self.lines,
        })
    }

    /// What was said and an actor line, which is within its limits.
    fn with_line(self, alloc: Global, line: ActorLine) -> Result<Draft, AllocError>
        requires names { HasNames line }
        requires within { line_fits self.lines (line_of_names line) ≡ true }
        requires room { length self.lines < 10000 }
        ensures { IfOk result (λ draft. draft ≡ says self (Actor (line_of_names line))) }
    {
        let line = line_of(alloc, line)?;
        let lines = self.lines.with(alloc, line)?;
        Ok(Draft {
            settings: self.settings,
            endpoints: self.endpoints,
            turns: self.turns,
            lines,
        })
    }

    /// The script of what was said. An error means out of memory.
    pub fn into_script(self, alloc: Global) -> Result<Script, AllocError>
        ensures { IfOk result (λ script. script ≡ script_of self) }
    {
        let Draft {
            settings,
            endpoints,
            turns,
            lines,
        } = self;
        let setup = settings.setup(Items::from_vec(endpoints));
        let lines = Items::from_vec(lines.into_lines());
        Script::new(alloc, setup, Items::from_vec(turns), lines)
    }
}

/// Whether a region is empty, isn't whole granules, or meets another one.
fn is_bad_region(granule: u32, regions: &[Region], span: Span) -> bool
    ensures { result ≡ is_bad_region granule regions.now span }
{
    span.last < span.first || !is_aligned(granule, span) || any_meets(regions, span)
}

/// Whether one of the regions has an address of the span.
fn any_meets(regions: &[Region], span: Span) -> bool
    ensures { result ≡ list_any (λ r. meets r.span span) regions.now }
{
    regions.iter().any(|region| meets(region.span, span))
}

/// Whether the span is whole granules.
fn is_aligned(granule: u32, span: Span) -> bool
    ensures { result ≡ is_aligned granule span }
{
    if granule == 0 {
        return false;
    }
    let granule = u128::from(granule);
    u128::from(span.first) % granule == 0 && (u128::from(span.last) + 1) % granule == 0
}

/// Whether an address is in both, for spans that may be empty.
fn meets(one: Span, other: Span) -> bool
    ensures { result ≡ meets one other }
{
    one.first <= other.last && other.first <= one.last
}

/// Whether a transfer passes the last address.
fn job_runs_over(job: &JobNumbers) -> bool
    ensures { result ≡ job_runs_over (job_of_numbers job.now) }
{
    match job {
        JobNumbers::Read { iova, len } => runs_over(*iova, *len),
        JobNumbers::Write { iova, bytes } => runs_over(*iova, bytes.len() as u64),
        JobNumbers::Ask(_) | JobNumbers::Raw { .. } | JobNumbers::Bypass(_) => false,
    }
}

/// Whether a transfer of so many bytes passes the last address. A number of bytes that is beyond its limit
/// isn't tested.
fn runs_over(iova: u64, len: u64) -> bool
    ensures { result ≡ runs_over iova len }
{
    is_length(len) && len - 1 > u64::MAX - iova
}

/// Whether a transfer can have so many bytes.
fn is_length(len: u64) -> bool
    ensures { result ≡ is_length len }
{
    1 <= len && len <= MOST_BYTES
}

/// Whether all drivers among the turns have numbers from 0 to 7.
fn turns_of_drivers(turns: &[TurnName]) -> bool
    ensures { result ≡ list_all (λ name. turn_is_driver (turned name)) turns.now }
{
    turns.iter().all(|turn| turn.is_driver())
}

/// Whether all drivers that the names name have numbers from 0 to 7.
fn all_drivers(names: &[AwaitedName]) -> bool
    ensures { result ≡ list_all (λ a. is_driver a.caller) (all_awaited names.now) }
{
    each_driver(names)
}

/// Whether each driver that the names name has a number from 0 to 7.
fn each_driver(names: &[AwaitedName]) -> bool
    ensures { result ≡ list_all (λ name. is_driver (awaited name).caller) names.now }
{
    names.iter().all(|name| name.caller.is_driver())
}

impl JobNumbers {
    /// Whether the job is within its limits.
    fn is_within(&self) -> bool
        ensures { result ≡ is_job (job_of_numbers self.now) }
    {
        match self {
            JobNumbers::Raw { read, write } => {
                let read = read.len() as u64;
                read <= MOST_RAW && *write <= MOST_RAW && 0 < read + *write
            }
            JobNumbers::Read { len, .. } => is_length(*len),
            JobNumbers::Write { bytes, .. } => is_length(bytes.len() as u64),
            JobNumbers::Ask(_) | JobNumbers::Bypass(_) => true,
        }
    }

    /// How many bytes the job transfers.
    fn transferred(&self) -> u64
        ensures { result ≡ transferred (job_of_numbers self.now) }
    {
        match self {
            JobNumbers::Read { len, .. } => *len,
            JobNumbers::Write { bytes, .. } => bytes.len() as u64,
            JobNumbers::Ask(_) | JobNumbers::Raw { .. } | JobNumbers::Bypass(_) => 0,
        }
    }

    /// The job, which is within its limits.
    fn into_job(self) -> Job
        requires { is_job (job_of_numbers self) ≡ true }
        ensures { result ≡ job_of_numbers self }
    {
        match self {
            JobNumbers::Ask(request) => Job::Ask(request),
            JobNumbers::Raw { read, write } => Job::Raw {
                read,
                write: write as u32,
            },
            JobNumbers::Bypass(on) => Job::Bypass(on),
            JobNumbers::Read { iova, len } => Job::Read {
                iova,
                len: len as u32,
            },
            JobNumbers::Write { iova, bytes } => Job::Write { iova, bytes },
        }
    }
}

/// The endpoints, the one of this id with one more region. An error means out of memory.
fn reserved(
    alloc: Global,
    endpoints: Vec<EndpointSetup>,
    id: u32,
    region: Region,
) -> Result<Vec<EndpointSetup>, AllocError>
    ensures { IfOk result (λ more. more.items ≡ map (λ e. reserved_if id region e) endpoints.items) }
{
    let mut more = Vec::with_capacity(alloc, endpoints.len())?;
    for endpoint in endpoints {
        more.push(reserved_if(endpoint, id, region)?)?;
    }
    Ok(more)
}

/// The endpoint, with one more region if it has this id. An error means out of memory.
fn reserved_if(
    endpoint: EndpointSetup,
    id: u32,
    region: Region,
) -> Result<EndpointSetup, AllocError>
    ensures { IfOk result (λ e. e ≡ reserved_if id region endpoint) }
{
    if endpoint.id != id {
        return Ok(endpoint);
    }
    let mut regions = endpoint.regions.into_vec();
    regions.push(region)?;
    Ok(EndpointSetup {
        id,
        regions: Items::from_vec(regions),
    })
}

/// Adds the turns of these names behind the others. An error means out of memory.
fn add_turns(turns: &mut Vec<Who>, names: &[TurnName]) -> Result<(), AllocError>
    ensures { OnOk result (turns.new.items ≡ turns.old.items ++ map turn_kept names.now) }
{
    for name in names {
        turns.push(name.kept())?;
    }
    Ok(())
}

/// The lines of these names. An error means out of memory.
fn awaited_lines(alloc: Global, names: &[AwaitedName]) -> Result<Items<Await>, AllocError>
    ensures { IfOk result (λ awaits. awaits ≡ map await_kept names.now) }
{
    let mut awaits = Vec::with_capacity(alloc, names.len())?;
    for name in names {
        awaits.push(name.kept())?;
    }
    Ok(Items::from_vec(awaits))
}

/// An actor line that is taken. An error means out of memory.
fn line_of(alloc: Global, line: ActorLine) -> Result<Line, AllocError>
    requires names { HasNames line }
    requires driver { is_driver (named line.caller) ≡ true }
    requires drivers { list_all (λ a. is_driver a.caller) (all_awaited line.awaits.items) ≡ true }
    requires within { is_job (job_of_numbers line.job) ≡ true }
    ensures { IfOk result (λ l. l ≡ line_of_names line) }
{
    let awaits = awaited_lines(alloc, &line.awaits)?;
    Ok(Line {
        caller: line.caller.caller(),
        job: line.job.into_job(),
        add: line.add,
        awaits,
    })
}

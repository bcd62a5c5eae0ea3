//! Statements: forms with their numbers and bytes read.
ghost use Rattle.std.specs.Prelude.{◌≡◌, IfOk};
ghost use Rattle.std.specs.List.{list_all};
ghost use Rattle.vi_script.specs.Faults.{Reads};
ghost use Rattle.vi_lines.specs.Fields.{JobFits};
ghost use Rattle.vi_script.specs.Fitting.{StatementFits};
ghost use Rattle.vi_script.specs.Formed.{deed_of, acted, formed};
ghost use Rattle.vi_script.specs.Forms.{Attaches, Detaches, Maps, Unmaps, Probes, SendsRaw, Writes};
ghost use Rattle.vi_script.specs.Forms as forms;
ghost use Rattle.vi_script.specs.Names.{named, awaited, turned};
ghost use Rattle.vi_script.specs.Stated.{job_of_numbers, line_of_names, stated, HasNames, HaveNames};
ghost use Rattle.vi_script.specs.Statements.{number_at, id_at, bytes_at, raw_bytes_at, span_at, bypass_flag, turn_fits, await_fits, job_of, line_with, statement_of};

use crate::deed::{ActWords, DeedWords};
use crate::fault::{BadKind, Refusal};
use crate::form::{FormWords, Setting, Switch};
use crate::name::{AwaitedName, Name, TurnName};
use std::alloc::Global;
use vi_bytes::{Bytes, Region, Span};
use vi_history::Request;
use vi_words::{hex_bytes, is_word, number};

/// What an actor line asks for or transfers, its lengths not yet looked at.
#[derive(Drop)]
pub enum JobNumbers {
    Ask(Request),
    Raw { read: Bytes, write: u64 },
    Bypass(bool),
    Read { iova: u64, len: u64 },
    Write { iova: u64, bytes: Bytes },
}

/// An actor line as it was read. Its caller and the lines that it awaits may be none that there are.
#[derive(Drop)]
pub struct ActorLine {
    pub caller: Name,
    pub job: JobNumbers,
    pub add: bool,
    pub awaits: Vec<AwaitedName>,
}

/// A statement as it was read.
#[derive(Drop)]
pub enum Parsed {
    Sets(Setting, u64),
    Switches(Switch, bool),
    Endpoint(u32),
    Input(Span),
    Reserve(u32, Region),
    Turns(Vec<TurnName>),
    Actor(ActorLine),
}

/// The statement of a form.
#[tactic(auto, using(crate::proofs::NameLemmas::turns_that_fit))]
pub fn statement(alloc: Global, form: FormWords) -> Result<Parsed, Refusal>
    ensures statement { Reads stated result (statement_of (formed form.entry)) }
    ensures fit { IfOk result HaveNames }
    ensures fields { IfOk result (λ s. StatementFits (stated s)) }
{
    match form {
        FormWords::Sets(setting, word) => Ok(Parsed::Sets(setting, number_at(word)?)),
        FormWords::Switches(setting, on) => Ok(Parsed::Switches(setting, on)),
        FormWords::Endpoint(word) => Ok(Parsed::Endpoint(id_at(word)?)),
        FormWords::Input { first, last } => Ok(Parsed::Input(span_at(first, last)?)),
        FormWords::Reserve {
            endpoint,
            kind,
            first,
            last,
        } => {
            let endpoint = id_at(endpoint)?;
            let span = span_at(first, last)?;
            Ok(Parsed::Reserve(endpoint, Region { kind, span }))
        }
        FormWords::Turns(turns) if turns_fit(&turns) => Ok(Parsed::Turns(turns)),
        FormWords::Turns(_) => Err(Refusal::Bad(BadKind::Number)),
        FormWords::Acts(caller, act) => Ok(Parsed::Actor(line(alloc, caller, act)?)),
    }
}

/// A word in a number's place.
fn number_at(word: &[u8]) -> Result<u64, Refusal>
    ensures { Reads (λ n. n) result (number_at word.now) }
{
    number(word).ok_or(Refusal::Bad(BadKind::Number))
}

/// A word in the place of a domain or an endpoint.
fn id_at(word: &[u8]) -> Result<u32, Refusal>
    ensures { Reads (λ n. n) result (id_at word.now) }
{
    let number = number_at(word)?;
    u32::try_from(number).map_err(|_| Refusal::Bad(BadKind::Number))
}

/// Two words in the places of a range's ends.
fn span_at(first: &[u8], last: &[u8]) -> Result<Span, Refusal>
    ensures { Reads (λ span. span) result (span_at first.now last.now) }
{
    let first = number_at(first)?;
    let last = number_at(last)?;
    Ok(Span { first, last })
}

/// A word in the place of bytes.
fn bytes_at(alloc: Global, word: &[u8]) -> Result<Bytes, Refusal>
    ensures { Reads (λ bytes. bytes) result (bytes_at word.now) }
{
    match hex_bytes(alloc, word)? {
        Some(bytes) => Ok(bytes),
        None => Err(Refusal::Bad(BadKind::Hex)),
    }
}

/// A word in the place of a raw request's bytes, where `-` stands for none.
fn raw_bytes_at(alloc: Global, word: &[u8]) -> Result<Bytes, Refusal>
    ensures { Reads (λ bytes. bytes) result (raw_bytes_at word.now) }
{
    if is_word(word, b"-") {
        Ok(Bytes::from_vec(Vec::new(alloc)))
    } else {
        bytes_at(alloc, word)
    }
}

/// The flags of an ATTACH request.
fn bypass_flag(bypass: bool) -> u32
    ensures { result ≡ bypass_flag bypass }
{
    u32::from(bypass)
}

/// The job of a deed: its numbers are read first, and then its bytes.
fn job(alloc: Global, deed: DeedWords) -> Result<JobNumbers, Refusal>
    ensures job { Reads job_of_numbers result (job_of (deed_of deed.entry)) }
    ensures fields { IfOk result (λ j. JobFits (job_of_numbers j)) }
{
    match deed {
        DeedWords::Attach {
            domain,
            endpoint,
            bypass,
        } => attach(domain, endpoint, bypass),
        DeedWords::Detach { domain, endpoint } => detach(domain, endpoint),
        DeedWords::Map {
            domain,
            first,
            last,
            target,
            flags,
        } => map(domain, first, last, target, flags),
        DeedWords::Unmap {
            domain,
            first,
            last,
        } => unmap(domain, first, last),
        DeedWords::Probe { endpoint } => probe(endpoint),
        DeedWords::Bypass { on } => Ok(JobNumbers::Bypass(on)),
        DeedWords::Raw { hex, writable } => raw(alloc, hex, writable),
        DeedWords::Read { iova, len } => read(iova, len),
        DeedWords::Write { iova, hex } => write(alloc, iova, hex),
    }
}

/// An ATTACH of an endpoint to a domain.
fn attach(domain: &[u8], endpoint: &[u8], bypass: bool) -> Result<JobNumbers, Refusal>
    ensures job { Reads job_of_numbers result (job_of (Attaches domain.now endpoint.now bypass)) }
    ensures fields { IfOk result (λ j. JobFits (job_of_numbers j)) }
{
    let domain = id_at(domain)?;
    let endpoint = id_at(endpoint)?;
    Ok(JobNumbers::Ask(Request::Attach {
        domain,
        endpoint,
        flags: bypass_flag(bypass),
    }))
}

/// A DETACH of an endpoint from a domain.
fn detach(domain: &[u8], endpoint: &[u8]) -> Result<JobNumbers, Refusal>
    ensures job { Reads job_of_numbers result (job_of (Detaches domain.now endpoint.now)) }
    ensures fields { IfOk result (λ j. JobFits (job_of_numbers j)) }
{
    let domain = id_at(domain)?;
    let endpoint = id_at(endpoint)?;
    Ok(JobNumbers::Ask(Request::Detach { domain, endpoint }))
}

/// A MAP of a range in a domain.
fn map(
    domain: &[u8],
    first: &[u8],
    last: &[u8],
    target: &[u8],
    flags: u32,
) -> Result<JobNumbers, Refusal>
    ensures job { Reads job_of_numbers result (job_of (Maps domain.now first.now last.now target.now flags)) }
    ensures fields { IfOk result (λ j. JobFits (job_of_numbers j)) }
{
    let domain = id_at(domain)?;
    let first = number_at(first)?;
    let last = number_at(last)?;
    let target = number_at(target)?;
    Ok(JobNumbers::Ask(Request::Map {
        domain,
        first,
        last,
        target,
        flags,
    }))
}

/// An UNMAP of a range in a domain.
fn unmap(domain: &[u8], first: &[u8], last: &[u8]) -> Result<JobNumbers, Refusal>
    ensures job { Reads job_of_numbers result (job_of (Unmaps domain.now first.now last.now)) }
    ensures fields { IfOk result (λ j. JobFits (job_of_numbers j)) }
{
    let domain = id_at(domain)?;
    let first = number_at(first)?;
    let last = number_at(last)?;
    Ok(JobNumbers::Ask(Request::Unmap {
        domain,
        first,
        last,
    }))
}

/// A PROBE of an endpoint.
fn probe(endpoint: &[u8]) -> Result<JobNumbers, Refusal>
    ensures job { Reads job_of_numbers result (job_of (Probes endpoint.now)) }
    ensures fields { IfOk result (λ j. JobFits (job_of_numbers j)) }
{
    let endpoint = id_at(endpoint)?;
    Ok(JobNumbers::Ask(Request::Probe { endpoint }))
}

/// A transfer that reads so many bytes.
fn read(iova: &[u8], len: &[u8]) -> Result<JobNumbers, Refusal>
    ensures job { Reads job_of_numbers result (job_of (forms.Reads iova.now len.now)) }
    ensures fields { IfOk result (λ j. JobFits (job_of_numbers j)) }
{
    let iova = number_at(iova)?;
    let len = number_at(len)?;
    Ok(JobNumbers::Read { iova, len })
}

/// A transfer that writes these bytes.
fn write(alloc: Global, iova: &[u8], hex: &[u8]) -> Result<JobNumbers, Refusal>
    ensures job { Reads job_of_numbers result (job_of (Writes iova.now hex.now)) }
    ensures fields { IfOk result (λ j. JobFits (job_of_numbers j)) }
{
    let iova = number_at(iova)?;
    let bytes = bytes_at(alloc, hex)?;
    Ok(JobNumbers::Write { iova, bytes })
}

/// A request of these bytes with so many writable ones.
fn raw(alloc: Global, hex: &[u8], writable: &[u8]) -> Result<JobNumbers, Refusal>
    ensures job { Reads job_of_numbers result (job_of (SendsRaw hex.now writable.now)) }
    ensures fields { IfOk result (λ j. JobFits (job_of_numbers j)) }
{
    let write = number_at(writable)?;
    let read = raw_bytes_at(alloc, hex)?;
    Ok(JobNumbers::Raw { read, write })
}

/// The line of a caller that does and awaits this.
#[tactic(auto, using(crate::proofs::NameLemmas::awaits_that_fit))]
fn line(alloc: Global, caller: Name, act: ActWords) -> Result<ActorLine, Refusal>
    ensures line { Reads line_of_names result (line_with (named caller) (acted act.entry)) }
    ensures fit { IfOk result HasNames }
    ensures fields { IfOk result (λ l. JobFits (job_of_numbers l.job)) }
{
    let ActWords { deed, add, awaits } = act;
    if !caller.fits() || !all_fit(&awaits) {
        return Err(Refusal::Bad(BadKind::Number));
    }
    let job = job(alloc, deed)?;
    Ok(ActorLine {
        caller,
        job,
        add,
        awaits,
    })
}

/// Whether all awaited names fit.
fn all_fit(awaits: &[AwaitedName]) -> bool
    ensures { result ≡ list_all (λ name. await_fits (awaited name)) awaits.now }
{
    awaits.iter().all(|awaited| awaited.fits())
}

/// Whether all turns fit.
fn turns_fit(turns: &[TurnName]) -> bool
    ensures { result ≡ list_all (λ name. turn_fits (turned name)) turns.now }
{
    turns.iter().all(|turn| turn.fits())
}

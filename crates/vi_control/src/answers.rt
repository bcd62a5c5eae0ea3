//! The device answers what drivers ask for.
ghost use Rattle.std.specs.Prelude.{◌≡◌, ◌<◌, [], length, if◌then◌else◌};
ghost use Rattle.vi_config.specs.Space.{config_bytes};
ghost use Rattle.vi_history.specs.Device.{Dev};
ghost use Rattle.vi_history.specs.Replies.{request_answer, reading_answer, set_answer};
ghost use Rattle.vi_model.specs.Tasks.{task_answer, task_commit};
ghost use Rattle.vi_model.specs.Starts.{driver_entry};
ghost use Rattle.vi_calls.specs.Value.{port_at};
ghost use Rattle.vi_calls.specs.Replies.{reply_answer};
ghost use Rattle.vi_control.specs.Inner.{config_of};
ghost use Rattle.vi_control.specs.Value.{entry_with};
ghost use Rattle.vi_control.specs.Tokens.{HasTaskRoom, IsRequest, HasToken, settled};

use vi_bytes::laws::properties_read_back;
use vi_calls::{Calls, Reply};
use vi_config::laws::bypass_is_byte_36;
use vi_device::Device;
use vi_history::status::INVAL;
use vi_history::{Caller, Kind, Mark, Reading, Request};
use vi_model::Task;
use vi_removals::Ready;
use vi_shoot::Token;

/// What the device replies to a request whose bytes come to this (Virtio 1.2, 5.13.6).
#[tactic(auto, unfolding(vi_history::specs::Replies::no_properties))]
pub fn reply_to(device: &Device, reading: &Reading) -> Reply
    ensures { reply_answer result ≡ reading_answer device.now.dev reading.now }
{
    match reading {
        Reading::Silent => Reply::Nothing,
        Reading::Malformed { probe: false } => Reply::Status(INVAL),
        Reading::Malformed { probe: true } => Reply::Probed {
            status: INVAL,
            properties: [0; 512],
        },
        Reading::Asks(request) => reply_to_request(device, request),
    }
}

fn reply_to_request(device: &Device, request: &Request) -> Reply
    ensures { reply_answer result ≡ request_answer device.now.dev request.now }
{
    let status = device.status(request);
    match *request {
        Request::Probe { endpoint } => Reply::Probed {
            status,
            properties: device.properties(endpoint),
        },
        Request::Attach { .. }
        | Request::Detach { .. }
        | Request::Map { .. }
        | Request::Unmap { .. } => Reply::Status(status),
    }
}

fn reply_to_task(device: &Device, task: &Task) -> Reply
    requires { IsRequest task.now }
    ensures { reply_answer result ≡ task_answer device.now.dev task.now }
{
    match task {
        Task::Reads(reading) => reply_to(device, reading),
        Task::Sets(_) => unreachable!(),
    }
}

/// The task takes effect. A refused request changes nothing.
pub fn commit(device: &mut Device, task: &Task)
    requires { HasTaskRoom device.old task.now }
    ensures { device.new ≡ record device.old { dev = task_commit device.old.dev task.now } }
{
    match task {
        Task::Reads(Reading::Asks(request)) => {
            let _status = device.commit(request);
        }
        Task::Reads(Reading::Silent) | Task::Reads(Reading::Malformed { .. }) => {}
        Task::Sets(on) => device.set_bypass(*on),
    }
}

/// The configuration space of a device is that of the device after the task (Virtio 1.2, 5.13.4).
pub fn configure(config: &mut [u8; 40], task: &Task)
    ensures { (dev : Dev) → config.old ≡ config_bytes (config_of dev) → config.new ≡ config_bytes (config_of (task_commit dev task.now)) }
{
    match task {
        Task::Reads(_) => {}
        Task::Sets(on) => set_bypass(config, *on),
    }
}

// The bypass field is byte 36.
fn set_bypass(config: &mut [u8; 40], on: bool)
    ensures { (dev : Dev) → config.old ≡ config_bytes (config_of dev) → config.new ≡ config_bytes (record { granule = dev.granule; input = dev.input; bypass = on }) }
{
    bypass_is_byte_36();
    config[36] = u8::from(on);
}

/// A call is answered against the device's state of now and takes effect. What is kept of it: the mark of its entry,
/// and in `properties` the bytes of the entry, if `probed` says that it has any.
pub fn answer(
    device: &mut Device,
    calls: &mut Calls,
    properties: &mut [u8; 512],
    probed: &mut bool,
    call: &Ready,
) -> Mark
    requires device { HasTaskRoom device.old call.now.task }
    requires token { HasToken calls.old call.now }
    requires room { length (port_at calls.old call.now.driver).answered < 8 }
    ensures device { device.new ≡ record device.old { dev = task_commit device.old.dev call.now.task } }
    ensures calls { calls.new ≡ settled call.now (task_answer device.old.dev call.now.task) calls.old }
    ensures entry { entry_with (if probed.new then properties.new else []) result ≡ driver_entry call.now.driver call.now.line (task_answer device.old.dev call.now.task) }
{
    let mark = reply(device, calls, properties, probed, call);
    commit(device, &call.task);
    mark
}

// The call is answered, and has not taken effect.
fn reply(
    device: &Device,
    calls: &mut Calls,
    properties: &mut [u8; 512],
    probed: &mut bool,
    call: &Ready,
) -> Mark
    requires token { HasToken calls.old call.now }
    requires room { length (port_at calls.old call.now.driver).answered < 8 }
    ensures calls { calls.new ≡ settled call.now (task_answer device.now.dev call.now.task) calls.old }
    ensures entry { entry_with (if probed.new then properties.new else []) result ≡ driver_entry call.now.driver call.now.line (task_answer device.now.dev call.now.task) }
{
    match call.token {
        Token::Chain(head) => {
            properties_read_back();
            let reply = reply_to_task(device, &call.task);
            calls.answer(head, &reply);
            keep(properties, probed, &reply);
            mark(call.driver, call.line, &reply)
        }
        Token::Setting { driver, line } => {
            calls.answer_setting(driver, line);
            *probed = false;
            set_mark(driver, line)
        }
    }
}

// The bytes of the reply's entry.
fn keep(properties: &mut [u8; 512], probed: &mut bool, reply: &Reply)
    ensures { (if probed.new then properties.new else []) ≡ (reply_answer reply.now).bytes }
{
    match reply {
        Reply::Nothing | Reply::Status(_) => *probed = false,
        Reply::Probed {
            properties: bytes,
            ..
        } => {
            *properties = *bytes;
            *probed = true;
        }
    }
}

// The mark of the entry of a driver's line with this reply.
fn mark(driver: u8, line: u32, reply: &Reply) -> Mark
    ensures { result ≡ (driver_entry driver line (reply_answer reply.now)).mark }
{
    let (kind, code) = match reply {
        Reply::Nothing => (Kind::Nothing, 0),
        Reply::Status(status) => (Kind::Status, *status),
        Reply::Probed { status, .. } => (Kind::Probed, *status),
    };
    Mark {
        caller: Caller::Driver(driver),
        line,
        part: 0,
        kind,
        code,
    }
}

// The mark of the entry of a driver's line that set the bypass field.
fn set_mark(driver: u8, line: u32) -> Mark
    ensures { result ≡ (driver_entry driver line set_answer).mark }
{
    Mark {
        caller: Caller::Driver(driver),
        line,
        part: 0,
        kind: Kind::Set,
        code: 0,
    }
}

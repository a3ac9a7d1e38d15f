//! The turns of a call.

ghost use Rattle.std.specs.Prelude.{◌≡◌, ◌≤◌, ◌<◌, ◌^◌, true};
ghost use Rattle.cas_calls.specs.Script.{End};
ghost use Rattle.cas_calls.specs.Plays.{Plays};
ghost use Rattle.live_calls.specs.declared.happening.Happening.TheVariants as happenings;
ghost use Rattle.live_calls.specs.Places.{Reading, is_giving, turns_due};
ghost use Rattle.live_calls.specs.Turns.{begun, answered, answered_with, one_more, unary_turn, reading_turn, turn_at, no_method};
ghost use Rattle.live_calls.specs.Afterwards.{due_after};

use crate::happening::Happening;
use crate::method::{Method, is_unbuilt};
use crate::outcome::{Outcome, refuse};
use crate::place::{Kept, Messages, Place};
use crate::{batch, caps, find, query, read, stream_read};
use blob_store::{Door, Shelf};
use byte_stream::ReadCall;
use cas_calls::{many_messages, no_message};
use casd_base::{Code, Status};
use proto_wire::{Bytes, Text};
use std::alloc::Global;

fn no_method(path: &[u8]) -> Status
    ensures { result ≡ no_method path.now }
{
    let text = if is_unbuilt(path) {
        Text::short("not built")
    } else {
        Text::short("no such method")
    };
    Status {
        code: Code::Unimplemented,
        text,
    }
}

/// A request of this path begins. It takes no memory and makes no entry.
pub fn begin<K: Shelf>(path: &[u8]) -> Outcome<Place<K>>
    ensures { begun path.now ≡ End result }
{
    match Method::of_path(path) {
        Some(method) => Outcome::Rests(Place::unary(method, Messages::Nothing)),
        None => refuse(no_method(path)),
    }
}

/// One more message came.
fn one_more(message: Bytes, messages: Messages) -> Messages
    ensures { result ≡ one_more message messages }
{
    match messages {
        Messages::Nothing => Messages::One(message),
        Messages::One(_) | Messages::Many => Messages::Many,
    }
}

/// Answers the one message of a unary call.
fn answer_with<K: Shelf, D: Door<K>>(
    alloc: Global,
    door: &mut D,
    shelf: &mut K,
    method: Method,
    message: &[u8],
) -> Outcome<Place<K>>
    requires is_in { (D.view door.old).entered ≡ true }
    requires turns { 2 ^ 30 ≤ (D.view door.old).left }
    ensures { Plays (answered_with method message.now) (D.view door.old) (D.view door.new) (K.shelved shelf.old) (K.shelved shelf.new) (2 ^ 22) result }
{
    match method {
        Method::FindMissingBlobs => find::answer::<K, D>(alloc, door, message),
        Method::BatchReadBlobs => read::answer(alloc, door, shelf, message),
        Method::BatchUpdateBlobs => batch::answer(alloc, door, shelf, message),
        Method::Read => stream_read::open(alloc, door, shelf, message),
        Method::QueryWriteStatus => query::answer::<K, D>(alloc, door, message),
        Method::GetCapabilities => {
            let _turns = door.left();
            caps::answer::<K>(alloc, message)
        }
    }
}

/// Answers a unary call.
fn answer<K: Shelf, D: Door<K>>(
    alloc: Global,
    door: &mut D,
    shelf: &mut K,
    method: Method,
    messages: &Messages,
) -> Outcome<Place<K>>
    requires is_in { (D.view door.old).entered ≡ true }
    requires turns { 2 ^ 30 ≤ (D.view door.old).left }
    ensures { Plays (answered method messages.now) (D.view door.old) (D.view door.new) (K.shelved shelf.old) (K.shelved shelf.new) (2 ^ 22) result }
{
    let _turns = door.left();
    match messages {
        Messages::Nothing => refuse(no_message()),
        Messages::One(message) => answer_with(alloc, door, shelf, method, message.as_slice()),
        Messages::Many => refuse(many_messages()),
    }
}

/// Something happens to a unary call.
fn resume_unary<K: Shelf, D: Door<K>>(
    alloc: Global,
    door: &mut D,
    shelf: &mut K,
    method: Method,
    messages: Messages,
    happening: Happening,
) -> Outcome<Place<K>>
    requires is_in { (D.view door.old).entered ≡ true }
    requires turns { 2 ^ 30 ≤ (D.view door.old).left }
    ensures { Plays (unary_turn method messages happening) (D.view door.old) (D.view door.new) (K.shelved shelf.old) (K.shelved shelf.new) (2 ^ 22) result }
{
    let _turns = door.left();
    match happening {
        Happening::Message(message) => {
            Outcome::Rests(Place::unary(method, one_more(message, messages)))
        }
        Happening::HalfClosed => answer(alloc, door, shelf, method, &messages),
        Happening::Cancelled => Outcome::Vanishes,
        Happening::Broken(status) => refuse(status),
        Happening::Woken => Outcome::Rests(Place::unary(method, messages)),
    }
}

/// Something happens to a Read that gives its responses.
fn resume_reading<K: Shelf, D: Door<K>>(
    alloc: Global,
    door: &mut D,
    shelf: &mut K,
    call: ReadCall<K>,
    happening: Happening,
) -> Outcome<Place<K>>
    requires is_in { (D.view door.old).entered ≡ true }
    requires turns { 2 ^ 30 ≤ (D.view door.old).left }
    ensures plays { Plays (reading_turn call happening) (D.view door.old) (D.view door.new) (K.shelved shelf.old) (K.shelved shelf.new) (2 ^ 22) result }
    ensures less { happening ≡ happenings.Woken → due_after result < turns_due (Reading call) }
{
    let _turns = door.left();
    match happening {
        Happening::Woken => stream_read::go_on(alloc, door, shelf, call),
        Happening::Message(_) => Outcome::Rests(Place::reading(call)),
        Happening::HalfClosed => Outcome::Rests(Place::reading(call)),
        Happening::Cancelled => Outcome::Vanishes,
        Happening::Broken(status) => refuse(status),
    }
}

/// Something happens to a call that waits: it takes its turn. The door is entered and may take 2^30 turns, of which at most
/// 2^22 are used.
pub fn resume<K: Shelf, D: Door<K>>(
    alloc: Global,
    door: &mut D,
    shelf: &mut K,
    place: Place<K>,
    happening: Happening,
) -> Outcome<Place<K>>
    requires is_in { (D.view door.old).entered ≡ true }
    requires turns { 2 ^ 30 ≤ (D.view door.old).left }
    ensures plays { Plays (turn_at place happening) (D.view door.old) (D.view door.new) (K.shelved shelf.old) (K.shelved shelf.new) (2 ^ 22) result }
    // A call that gives responses of its own accord comes nearer to its end.
    ensures less { happening ≡ happenings.Woken → is_giving place ≡ true → due_after result < turns_due place }
{
    let Place { kept } = place;
    match kept {
        Kept::Unary { method, messages } => {
            resume_unary(alloc, door, shelf, method, messages, happening)
        }
        Kept::Reading(call) => resume_reading(alloc, door, shelf, call, happening),
        Kept::Away => {
            let _turns = door.left();
            Outcome::Vanishes
        }
    }
}

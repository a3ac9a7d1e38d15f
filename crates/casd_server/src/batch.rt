//! The call BatchUpdateBlobs (Remote Execution API v2).

ghost use Rattle.std.specs.Prelude.{◌≡◌, ◌<◌, ◌≤◌, ◌^◌, true, false, ℕ, Some, IfOk, length, Result, Ok};
ghost use Rattle.blob_store.specs.Benched.{store_of, seat_of, view_of};
ghost use Rattle.blob_store.specs.View.{IsSound};
ghost use Rattle.store_core.specs.Step.{step};
ghost use Rattle.store_core.specs.declared.event.Event.TheVariants as events;
ghost use Rattle.blob_store.specs.Bodies.{IsSealed};
ghost use Rattle.blob_store.specs.Calls.{put_reply};
ghost use Rattle.casd_server.specs.Sitting.{StaysSeated};
ghost use Rattle.std.specs.List.{AllByRecursion};
ghost use Rattle.cas_messages.specs.Fault.{Gives};
ghost use Rattle.casd_server.specs.Batch.{mismatch, put_status, put_item, put_items, is_built, update, update_view, update_in, batch_update, rpc_of};

use crate::answer::not_built;
use crate::sitting::{has_turn, look};
use blob_store::{Bench, Checked, Door, Filling, PutReply, Shelf};
use cas_messages::{
    BatchUpdateBlobsRequest, BatchUpdateBlobsRequestItem2, BatchUpdateBlobsResponse,
    BatchUpdateBlobsResponseItem1, Message, MessageError, RpcStatus,
};
use casd_base::{Code, Status};
use digest_types::Digest;
use proto_wire::{Bytes, Listed, OutOfMemory, Text};
use std::alloc::Global;

/// How many bytes of data a request has at most.
const MAX_BATCH: u64 = 3_670_016;

/// What a call answers: the bytes of its response, or why there is none.
pub(crate) type Called = Result<Bytes, Status>;

fn invalid(text: &str) -> Status
    requires { length text.now ≤ 32 }
    ensures { result ≡ record { code = Code.InvalidArgument; text = text.now } }
{
    Status {
        code: Code::InvalidArgument,
        text: Text::short(text),
    }
}

fn mismatch_of(alloc: Global, want: &Digest, got: &Digest) -> Result<Status, OutOfMemory>
    ensures { IfOk result (λ s. s ≡ mismatch want.now got.now) }
{
    let want = want.print(alloc)?;
    let got = got.print(alloc)?;
    let mut text = String::new(alloc);
    text.push_str("want ")?;
    text.push_str(want.as_str())?;
    text.push_str(", got ")?;
    text.push_str(got.as_str())?;
    Ok(Status {
        code: Code::InvalidArgument,
        text: Text::from_string(text),
    })
}

#[tactic(auto, unfolding(crate::specs::Batch::put_status))]
fn status_of(alloc: Global, answer: &PutReply) -> Result<Status, OutOfMemory>
    ensures { IfOk result (λ s. s ≡ put_status (put_reply answer.now)) }
{
    match answer {
        PutReply::Stored { .. } | PutReply::Present | PutReply::Repaired => Ok(Status {
            code: Code::Ok,
            text: Text::empty(),
        }),
        PutReply::NoSpace {
            guarded,
            size,
            high,
        } => {
            let text = format!(in alloc; "guarded {guarded} plus {size} above {high}")?;
            Ok(Status {
                code: Code::ResourceExhausted,
                text: Text::from_string(text),
            })
        }
    }
}

/// The bytes as a body on the shelf, whose calls don't fail.
fn checked<K: Shelf>(alloc: Global, shelf: &mut K, bytes: &[u8]) -> Result<Checked<K>, OutOfMemory>
    requires small { length bytes.now ≤ 2 ^ 60 }
    requires sure { (K.shelved shelf.old).may_fail ≡ false }
    ensures sealed { IfOk result (IsSealed bytes.now) }
    ensures sure { (K.shelved shelf.new).may_fail ≡ false }
{
    let Ok(mut filling) = Filling::new(alloc, shelf) else {
        return Err(OutOfMemory);
    };
    if filling.add(shelf, bytes).is_err() {
        filling.give_up(shelf);
        return Err(OutOfMemory);
    }
    match filling.finish(shelf) {
        Ok(blob) => Ok(blob),
        Err(_) => Err(OutOfMemory),
    }
}

/// One put of the chosen seat's owner.
#[tactic(auto, using(crate::proofs::PutLaws::put_steps, crate::proofs::PutLaws::put_stays, crate::proofs::PutLaws::put_counts, crate::proofs::PutLaws::waits_stays, crate::proofs::PutLaws::waits_counts))]
fn put_blob<K: Shelf>(
    bench: &mut Bench<K>,
    shelf: &mut K,
    blob: Checked<K>,
) -> Result<PutReply, OutOfMemory>
    requires is_in { (seat_of bench.old).entered ≡ true }
    requires turn { length bench.old.seen < 2 ^ 62 }
    requires sure { (K.shelved shelf.old).may_fail ≡ false }
    ensures ok { IfOk result (λ r. (owner : ℕ) → (seat_of bench.old).owner ≡ Some owner → (put_reply r, store_of bench.new) ≡ step (store_of bench.old) owner (events.Put blob.digest blob.edges)) }
    ensures seats { StaysSeated bench.old bench.new }
    ensures few { length bench.new.seen ≤ 2 ^ 62 }
    ensures sure { (K.shelved shelf.new).may_fail ≡ false }
{
    let answer = bench.put(shelf, blob)?;
    look(bench);
    Ok(answer)
}

/// Puts a blob whose bytes have the declared digest.
fn put_same<K: Shelf>(
    alloc: Global,
    bench: &mut Bench<K>,
    shelf: &mut K,
    blob: Checked<K>,
    item: &BatchUpdateBlobsRequestItem2,
) -> Result<Status, OutOfMemory>
    requires sealed { IsSealed item.now.bytes blob }
    requires same { blob.digest ≡ item.now.digest }
    requires is_in { (seat_of bench.old).entered ≡ true }
    requires few { length bench.old.seen ≤ 2 ^ 62 }
    requires sure { (K.shelved shelf.old).may_fail ≡ false }
    ensures ok { IfOk result (λ s. (owner : ℕ) → (seat_of bench.old).owner ≡ Some owner → (s, store_of bench.new) ≡ put_item (store_of bench.old) owner item.now) }
    ensures seats { StaysSeated bench.old bench.new }
    ensures few { length bench.new.seen ≤ 2 ^ 62 }
    ensures sure { (K.shelved shelf.new).may_fail ≡ false }
{
    if !has_turn(bench) {
        blob.give_up(shelf);
        return Err(OutOfMemory);
    }
    let answer = put_blob(bench, shelf, blob)?;
    status_of(alloc, &answer)
}

/// Puts the bytes of an item where they have the declared digest.
fn put_one<K: Shelf>(
    alloc: Global,
    bench: &mut Bench<K>,
    shelf: &mut K,
    item: &BatchUpdateBlobsRequestItem2,
) -> Result<Status, OutOfMemory>
    requires is_in { (seat_of bench.old).entered ≡ true }
    requires few { length bench.old.seen ≤ 2 ^ 62 }
    requires small { length item.now.bytes ≤ 2 ^ 60 }
    requires sure { (K.shelved shelf.old).may_fail ≡ false }
    ensures ok { IfOk result (λ s. (owner : ℕ) → (seat_of bench.old).owner ≡ Some owner → (s, store_of bench.new) ≡ put_item (store_of bench.old) owner item.now) }
    ensures seats { StaysSeated bench.old bench.new }
    ensures few { length bench.new.seen ≤ 2 ^ 62 }
    ensures sure { (K.shelved shelf.new).may_fail ≡ false }
{
    let blob = checked(alloc, shelf, item.bytes.as_slice())?;
    let got = blob.digest();
    if got != item.digest {
        blob.give_up(shelf);
        return mismatch_of(alloc, &item.digest, &got);
    }
    put_same(alloc, bench, shelf, blob, item)
}

// A status as it stands in a message.
fn rpc_status(status: Status) -> RpcStatus
    ensures { result ≡ rpc_of status }
{
    let Status { code, text } = status;
    RpcStatus {
        code: i32::from(code.number()),
        message: text,
    }
}

fn put_all<K: Shelf>(
    alloc: Global,
    bench: &mut Bench<K>,
    shelf: &mut K,
    items: &[BatchUpdateBlobsRequestItem2],
) -> Result<Vec<BatchUpdateBlobsResponseItem1>, OutOfMemory>
    requires small { AllByRecursion (λ item. length item.bytes ≤ 2 ^ 60) items.now }
    requires is_in { (seat_of bench.old).entered ≡ true }
    requires few { length bench.old.seen ≤ 2 ^ 62 }
    requires sure { (K.shelved shelf.old).may_fail ≡ false }
    ensures ok { IfOk result (λ v. (owner : ℕ) → (seat_of bench.old).owner ≡ Some owner → (v.items, store_of bench.new) ≡ put_items (store_of bench.old) owner items.now) }
    ensures seats { StaysSeated bench.old bench.new }
    ensures few { length bench.new.seen ≤ 2 ^ 62 }
    ensures sure { (K.shelved shelf.new).may_fail ≡ false }
{
    let mut answers = Vec::new(alloc);
    'items: for item in items {
        let status = put_one(alloc, bench, shelf, item)?;
        answers.push(BatchUpdateBlobsResponseItem1 {
            digest: item.digest,
            status: rpc_status(status),
        })?;
    }
    Ok(answers)
}

fn is_built_request(request: &BatchUpdateBlobsRequest) -> bool
    ensures { result ≡ is_built (update_view request.now) }
{
    let mut size = 0;
    for item in request.requests.as_slice() {
        if item.compressor.cast_unsigned() != 0 {
            return false;
        }
        let len = item.bytes.len() as u64;
        if len > MAX_BATCH - size {
            return false;
        }
        size += len;
    }
    request.digest_function.cast_unsigned() <= 1
}

#[tactic(auto, unfolding(crate::specs::Batch::update))]
fn update_with<K: Shelf>(
    alloc: Global,
    bench: &mut Bench<K>,
    shelf: &mut K,
    request: &BatchUpdateBlobsRequest,
) -> Result<Called, OutOfMemory>
    requires is_in { (seat_of bench.old).entered ≡ true }
    requires few { length bench.old.seen ≤ 2 ^ 62 }
    requires sure { (K.shelved shelf.old).may_fail ≡ false }
    ensures ok { IfOk result (λ a. (owner : ℕ) → (seat_of bench.old).owner ≡ Some owner → (a, store_of bench.new) ≡ update (store_of bench.old) owner (Ok (update_view request.now))) }
    ensures seats { StaysSeated bench.old bench.new }
    ensures few { length bench.new.seen ≤ 2 ^ 62 }
    ensures sure { (K.shelved shelf.new).may_fail ≡ false }
{
    if !is_built_request(request) {
        return Ok(Err(not_built()));
    }
    let responses = put_all(alloc, bench, shelf, request.requests.as_slice())?;
    let response = BatchUpdateBlobsResponse {
        responses: Listed::from_vec(responses),
    };
    Ok(Ok(response.write(alloc)?))
}

// The request that a message spells.
#[tactic(auto, using(crate::proofs::BatchLemmas::viewed))]
fn read(alloc: Global, bytes: &[u8]) -> Result<BatchUpdateBlobsRequest, MessageError>
    ensures { Gives update_view result (update_in bytes.now) }
{
    BatchUpdateBlobsRequest::read(alloc, bytes)
}

/// One call with its messages, of which it takes one: each blob of the request is put if its bytes have its digest.
/// After want of memory some of the blobs may have been put.
#[tactic(auto, unfolding(crate::specs::Batch::batch_update, crate::specs::Batch::update))]
pub(crate) fn call<K: Shelf>(
    alloc: Global,
    bench: &mut Bench<K>,
    shelf: &mut K,
    messages: &[Bytes],
) -> Result<Called, OutOfMemory>
    requires is_in { (seat_of bench.old).entered ≡ true }
    requires few { length bench.old.seen ≤ 2 ^ 62 }
    requires sure { (K.shelved shelf.old).may_fail ≡ false }
    ensures ok { IfOk result (λ a. (owner : ℕ) → (seat_of bench.old).owner ≡ Some owner → (a, store_of bench.new) ≡ batch_update (store_of bench.old) owner messages.now) }
    ensures seats { StaysSeated bench.old bench.new }
    ensures few { length bench.new.seen ≤ 2 ^ 62 }
    ensures sure { (K.shelved shelf.new).may_fail ≡ false }
{
    let message = match messages {
        [] => return Ok(Err(invalid("no message"))),
        [message] => message,
        _ => return Ok(Err(invalid("more than one message"))),
    };
    match read(alloc, message.as_slice()) {
        Ok(request) => update_with(alloc, bench, shelf, &request),
        Err(MessageError::Wire { .. } | MessageError::NotUtf8 { .. }) => {
            Ok(Err(invalid("bad message")))
        }
        Err(MessageError::BadDigest { .. }) => Ok(Err(invalid("bad digest"))),
        Err(MessageError::OutOfMemory) => Err(OutOfMemory),
    }
}

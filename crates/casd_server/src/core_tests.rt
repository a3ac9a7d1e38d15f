//! Random records over the seats, and over the plain core by the rules of records in words.

use crate::answer::{Answer, answer_line};
use crate::parse::parse;
use crate::seats::Seats;
use crate::word::Word;
use cas_messages::{
    BatchUpdateBlobsRequest, BatchUpdateBlobsRequestItem2, BatchUpdateBlobsResponse,
    BatchUpdateBlobsResponseItem1, Message, RpcStatus,
};
use digest_types::Digest;
use directory_canon::links_of;
use proto_wire::{Bytes, Listed, Text};
use std::alloc::Global;
use std::process::Abort;
use std::test::*;
use store_core::{Core, Event, Guard, Marks, Reply};

/// How many blobs there are. The first one has no space.
const BLOBS: u64 = 60;

const MARKS: Marks = Marks {
    low: 60,
    high: 100,
    guard: Guard::Leases,
};

/// How many records are asked.
const LINES: u64 = 20_000;

/// A generator of numbers: MMIX's linear congruential one, of which the upper bits are used.
#[derive(Clone, Copy, Debug)]
struct Random {
    seed: u64,
}

impl Random {
    /// A number below n, which is at most 2^16.
    fn below(&mut self, n: u64) -> u64 {
        self.seed = self
            .seed
            .wrapping_mul(6364136223846793005)
            .wrapping_add(1442695040888963407);
        (self.seed >> 33).checked_rem(n).unwrap_or(0)
    }
}

/// The bytes of a blob: 120 of the first, and 1 to 40 of each other.
fn blob(alloc: Global, number: u64) -> Result<Bytes, Fail> {
    let len = if number == 0 {
        120
    } else {
        number.checked_rem(40).unwrap_or(0).saturating_add(1)
    };
    let mut bytes = Vec::new(alloc);
    for _ in 0..len {
        bytes.push(u8::try_from(number).unwrap_or(0))?;
    }
    Ok(Bytes::from_vec(bytes))
}

/// The request to put a blob, of which another size may be declared.
fn request(alloc: Global, number: u64, wrong: bool) -> Result<BatchUpdateBlobsRequest, Fail> {
    let bytes = blob(alloc, number)?;
    if bytes.len() >= 1000 {
        return Err(Fail::new("a blob of 1000 bytes"));
    }
    let mut digest = Digest::of(bytes.as_slice());
    if wrong {
        digest.size = 1000;
    }
    let mut requests = Vec::new(alloc);
    requests.push(BatchUpdateBlobsRequestItem2 {
        digest,
        bytes,
        compressor: 0,
    })?;
    Ok(BatchUpdateBlobsRequest {
        instance_name: Text::empty(),
        requests: Listed::from_vec(requests),
        digest_function: 1,
    })
}

/// What a record asks for.
#[derive(Clone, Copy, Debug)]
enum Ask {
    Put { number: u64, wrong: bool },
    Pass,
    Usage,
    Close,
    GetTree,
}

/// A seat, and what it asks for.
fn next_ask(random: &mut Random) -> (u64, Ask) {
    let seat = random.below(8).saturating_add(1);
    match random.below(40) {
        0 => (0, Ask::Pass),
        1 | 2 => (0, Ask::Usage),
        3 | 4 => (seat, Ask::Close),
        5 => (seat, Ask::GetTree),
        _ => (
            seat,
            Ask::Put {
                number: random.below(BLOBS),
                wrong: random.below(8) == 0,
            },
        ),
    }
}

/// The line of a record without its newline.
fn line(alloc: Global, seat: u64, ask: Ask) -> Result<String, Fail> {
    Ok(match ask {
        Ask::Put { number, wrong } => {
            let message = request(alloc, number, wrong)?.write(alloc)?;
            let text = hex::encode(alloc, message.as_slice())?;
            format!(in alloc; "{seat} BatchUpdateBlobs {text}")?
        }
        Ask::Pass => format!(in alloc; "{seat} Pass -")?,
        Ask::Usage => format!(in alloc; "{seat} Usage -")?,
        Ask::Close => format!(in alloc; "{seat} Close -")?,
        Ask::GetTree => format!(in alloc; "{seat} GetTree .")?,
    })
}

/// The plain core, the owner of each seat, how many rows were removed, and how many blobs had no space.
#[derive(Drop)]
struct Plain {
    alloc: Global,
    core: Core,
    owners: [Option<u64>; 9],
    removed: u64,
    refused: u64,
}

impl Plain {
    fn step(&mut self, rt: &impl Abort, owner: u64, event: &Event) -> Result<Reply, Fail> {
        assert!(rt; self.core.next_owner() < u64::MAX && self.core.next_lease() < u64::MAX);
        Ok(self.core.step(owner, event)?)
    }

    fn set_owner(&mut self, seat: u64, owner: Option<u64>) {
        if let Some(place) = self.owners.get_mut(seat as usize) {
            *place = owner;
        }
    }

    /// The owner of a seat, which comes if there is none.
    fn owner(&mut self, rt: &impl Abort, seat: u64) -> Result<u64, Fail> {
        if let Some(owner) = self.owners.get(seat as usize).copied().flatten() {
            return Ok(owner);
        }
        let Reply::Opened { owner } = self.step(rt, 0, &Event::Open)? else {
            return Err(Fail::new("no owner was opened"));
        };
        self.set_owner(seat, Some(owner));
        Ok(owner)
    }

    /// The status of a put.
    fn put(
        &mut self,
        rt: &impl Abort,
        owner: u64,
        item: &BatchUpdateBlobsRequestItem2,
    ) -> Result<RpcStatus, Fail> {
        let alloc = self.alloc;
        assert!(rt; item.bytes.len() <= 1000);
        let got = Digest::of(item.bytes.as_slice());
        if got != item.digest {
            let want = item.digest.print(alloc)?;
            let got = got.print(alloc)?;
            let text = format!(in alloc; "want {}, got {}", want.as_str(), got.as_str())?;
            return Ok(RpcStatus {
                code: 3,
                message: Text::from_string(text),
            });
        }
        let event = Event::Put {
            digest: got,
            edges: links_of(alloc, item.bytes.as_slice())?,
        };
        match self.step(rt, owner, &event)? {
            Reply::Stored { removed, .. } => {
                self.removed = self.removed.saturating_add(removed);
                Ok(RpcStatus {
                    code: 0,
                    message: Text::empty(),
                })
            }
            Reply::Present => Ok(RpcStatus {
                code: 0,
                message: Text::empty(),
            }),
            Reply::NoSpace {
                guarded,
                size,
                high,
            } => {
                self.refused = self.refused.saturating_add(1);
                let text = format!(in alloc; "guarded {guarded} plus {size} above {high}")?;
                Ok(RpcStatus {
                    code: 8,
                    message: Text::from_string(text),
                })
            }
            _ => Err(Fail::new("another reply to a put")),
        }
    }

    /// What puts of one request answer.
    fn put_all(
        &mut self,
        rt: &impl Abort,
        owner: u64,
        request: &BatchUpdateBlobsRequest,
    ) -> Result<Answer, Fail> {
        let alloc = self.alloc;
        let mut responses = Vec::new(alloc);
        for item in request.requests.as_slice() {
            responses.push(BatchUpdateBlobsResponseItem1 {
                digest: item.digest,
                status: self.put(rt, owner, item)?,
            })?;
        }
        let response = BatchUpdateBlobsResponse {
            responses: Listed::from_vec(responses),
        };
        Ok(Answer::Call(Ok(response.write(alloc)?)))
    }

    /// What a seat is answered.
    fn answer(&mut self, rt: &impl Abort, seat: u64, ask: Ask) -> Result<Answer, Fail> {
        let owner = self.owner(rt, seat)?;
        let event = match ask {
            Ask::Put { number, wrong } => {
                let request = request(self.alloc, number, wrong)?;
                return self.put_all(rt, owner, &request);
            }
            Ask::GetTree => return Ok(Answer::Call(Err(crate::answer::not_built()))),
            Ask::Pass => Event::Pass,
            Ask::Usage => Event::Usage,
            Ask::Close => Event::Close,
        };
        match self.step(rt, owner, &event)? {
            Reply::Passed { removed, used } => Ok(Answer::Passed { removed, used }),
            Reply::Used { usage } => Ok(Answer::Used(usage)),
            Reply::Closed => {
                self.set_owner(seat, None);
                Ok(Answer::Closed)
            }
            _ => Err(Fail::new("another reply")),
        }
    }
}

// Whether this is the word of what was asked.
fn is_word(ask: Ask, word: Word) -> bool {
    match ask {
        Ask::Put { .. } => word == Word::BatchUpdateBlobs,
        Ask::Pass => word == Word::Pass,
        Ask::Usage => word == Word::Usage,
        Ask::Close => word == Word::Close,
        Ask::GetTree => word == Word::GetTree,
    }
}

/// One record is answered by both, with the same line.
fn answer_both(
    rt: &impl Abort,
    seats: &mut Seats,
    plain: &mut Plain,
    seat: u64,
    ask: Ask,
) -> Result<(), Fail> {
    let alloc = plain.alloc;
    let text = line(alloc, seat, ask)?;
    let Some(record) = parse(alloc, text.as_bytes())? else {
        return Err(Fail::new("a line that is no record"));
    };
    assert!(rt; record.seat < 100);
    assert!(rt; is_word(ask, record.word));
    let told = seats.answer(&record)?;
    let answer = plain.answer(rt, seat, ask)?;
    let wanted = answer_line(alloc, &record, &answer)?;
    assert_eq!(rt; told, wanted, "{text}");
    Ok(())
}

#[test]
fn twenty_thousand_lines_are_answered_as_by_the_plain_core(rt: HostRuntime) -> Result<(), Fail> {
    let alloc = rt.alloc();
    let mut random = Random { seed: 7 };
    let mut seats = Seats::new(alloc, MARKS)?;
    let mut plain = Plain {
        alloc,
        core: Core::new(alloc, MARKS),
        owners: [None; 9],
        removed: 0,
        refused: 0,
    };
    for _ in 0..LINES {
        let (seat, ask) = next_ask(&mut random);
        answer_both(&rt, &mut seats, &mut plain, seat, ask)?;
    }
    seats.close_all();
    // Owners came and went, rows were removed, and blobs had no space.
    assert!(rt; plain.core.next_owner() > 100);
    assert!(rt; plain.removed > 100);
    assert!(rt; plain.refused > 100);
    Ok(())
}

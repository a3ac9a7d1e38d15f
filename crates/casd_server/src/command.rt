//! The commands of the program, by their words.

ghost use Rattle.std.specs.Prelude.{◌≡◌, ◌⊎◌, ◌↔◌, ◌≤◌, map, IsTrue};
ghost use Rattle.casd_base.specs.Causes.{Rose};
ghost use Rattle.casd_server.specs.Replay.{Replays, AreRecordsWords, status_of};
ghost use Rattle.casd_server.specs.H2.{ServesH2, AreH2Words};

use crate::h2::replay_h2;
use crate::records::{End, replay_records};
use casd_base::{Sink, Source};
use std::alloc::Global;

fn are_words(words: &[&str], wanted: &[&str]) -> bool
    ensures { IsTrue result ↔ (map (λ w. w.now) words.now ≡ map (λ w. w.now) wanted.now) }
{
    words == wanted
}

fn are_records_words(words: &[&str]) -> bool
    ensures { IsTrue result ↔ AreRecordsWords (map (λ w. w.now) words.now) }
{
    are_words(words, &["replay", "records"]) || are_words(words, &["replay", "records", "--"])
}

fn are_h2_words(words: &[&str]) -> bool
    ensures { IsTrue result ↔ AreH2Words (map (λ w. w.now) words.now) }
{
    are_words(words, &["replay", "h2"]) || are_words(words, &["replay", "h2", "--"])
}

/// Does what the words ask for, which are those of the command line without the program's name. `replay records` runs the
/// records of the source and writes their answers to the sink. `replay h2` serves one connection of HTTP/2, whose client's
/// bytes come from the source and whose server's go to the sink. It answers the status of the process: 0 where all was
/// answered, 2 for other words, 3 where a line is malformed, the peer broke the protocol or the input ends within a frame,
/// 4 and 5 for a fault of the source and the sink, 6 where memory ran out, and 7 where 2^50 bytes were read, or where the
/// owner of a connection has fewer than 2^40 turns left.
pub fn replay<S: Source, W: Sink>(alloc: Global, words: &[&str], source: &mut S, sink: &mut W) -> u8
    // Of records the status is that of an end, and what was read and written is what that end says.
    ensures records { ¬ AreH2Words (map (λ w. w.now) words.now) → (end : End) × (result ≡ status_of end)
        × Replays (S.left source.old) (S.left source.new) (W.written sink.old) (W.written sink.new) end }
    // Of a connection it is that of a report, which says what was read, done and written.
    ensures h2 { AreH2Words (map (λ w. w.now) words.now)
        → ServesH2 result (S.left source.old) (S.left source.new) (W.written sink.old) (W.written sink.new) (S.read_faults source.old) (S.read_faults source.new) (W.write_faults sink.old) (W.write_faults sink.new) }
    ensures refused { (result ≡ 2) ↔ ¬ (AreRecordsWords (map (λ w. w.now) words.now) ⊎ AreH2Words (map (λ w. w.now) words.now)) }
    ensures untouched { result ≡ 2 → (S.left source.new ≡ S.left source.old) × (W.written sink.new ≡ W.written sink.old) }
    // A fault is answered only where it was counted, and no count falls.
    ensures read_fault { result ≡ 4 → Rose (S.read_faults source.old) (S.read_faults source.new) }
    ensures write_fault { result ≡ 5 → Rose (W.write_faults sink.old) (W.write_faults sink.new) }
    ensures reads_later { S.read_faults source.old ≤ S.read_faults source.new }
    ensures writes_later { W.write_faults sink.old ≤ W.write_faults sink.new }
{
    if are_h2_words(words) {
        return replay_h2(alloc, source, sink);
    }
    if are_records_words(words) {
        return replay_records(alloc, source, sink);
    }
    End::Refused.status()
}

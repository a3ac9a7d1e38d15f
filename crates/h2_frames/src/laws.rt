//! Laws of the definitions: what a frame reader reads, against the grammar of RFC 9113.

ghost use Rattle.std.specs.Prelude.{◌≡◌, ◌≢◌, ◌≤◌, ◌++◌, [], ◌∷◌, List, ℕ, Bool, length, take, Option, Some, None, Ok, Err};
ghost use Rattle.proto_wire.specs.Reading.{IsBytes};
ghost use Rattle.h2_frames.specs.declared.fault.FrameFault.{FrameFault as Fault};
ghost use Rattle.h2_frames.specs.declared.fault.FrameFault.TheVariants.{OutOfMemory as NoMemory};
ghost use Rattle.h2_frames.specs.declared.frame.Frame.{Frame as AFrame};
ghost use Rattle.h2_frames.specs.Reading.{frame_at, IsReadAs};
ghost use Rattle.h2_frames.specs.Spelling.{IsSpelling, spelled, Writable, IsTyped};
ghost use Rattle.h2_frames.specs.Stream.{Pending, fresh, Answers, fed, rest_place};
ghost use Rattle.h2_frames.specs.Runs.{Event, bytes_of, frames_of, Runs};
ghost use Rattle.h2_frames.specs.Grammar.{IsRest, IsStream, HasGiven};

/// A frame is read where a spelling of it begins, whatever follows, and only there.
pub fn spelled_is_read()
    ensures read { (at : ℕ) (first rest : List ℕ) (f : AFrame) → IsSpelling first f → frame_at at (first ++ rest) ≡ Ok (Some (f, length first)) }
    ensures only { (at : ℕ) (text : List ℕ) (f : AFrame) (n : ℕ) → IsBytes text → frame_at at text ≡ Ok (Some (f, n)) → IsSpelling (take n text) f }
    ensures within { (at : ℕ) (text : List ℕ) (f : AFrame) (n : ℕ) → frame_at at text ≡ Ok (Some (f, n)) → n ≤ length text }
{}

/// No frame is read exactly where the bytes are empty or a proper prefix of a frame, and a fault is read exactly where
/// a malformed frame begins.
pub fn rest_is_told()
    ensures part { (at : ℕ) (text : List ℕ) → IsRest at text None → frame_at at text ≡ Ok None }
    ensures part_only { (at : ℕ) (text : List ℕ) → IsBytes text → frame_at at text ≡ Ok None → IsRest at text None }
    ensures offence { (at : ℕ) (text : List ℕ) (e : Fault) → IsRest at text (Some e) → frame_at at text ≡ Err e }
    ensures offence_only { (at : ℕ) (text : List ℕ) (e : Fault) → IsBytes text → frame_at at text ≡ Err e → IsRest at text (Some e) }
{}

/// What is written is a spelling of the frame, and is read again, whatever follows.
pub fn written_is_read()
    ensures spells { (f : AFrame) → Writable f → IsTyped f → IsSpelling (spelled f) f }
    ensures read { (f : AFrame) → Writable f → IsTyped f → IsReadAs (spelled f) f }
{}

/// Whatever the pieces, a reader gives the frames of all bytes that were fed, one after the other. When it gives none, it
/// has given exactly the frames of the grammar's reading of all these bytes: a `None` tells that this reading ends in no
/// fault, and a refusal tells its fault, and in both cases `rest_at` tells where its rest begins. Want of memory is no
/// fault of the bytes.
pub fn frames_are_given()
    ensures starts { (due : Bool) → HasGiven due [] [] (fresh due) }
    ensures feeds { (due : Bool) (text bytes : List ℕ) (ps : List (ℕ × AFrame)) (r : Pending) → r.fault ≡ None → HasGiven due text ps r → HasGiven due (text ++ bytes) ps (fed bytes r) }
    ensures gives { (due : Bool) (text : List ℕ) (ps : List (ℕ × AFrame)) (p : ℕ × AFrame) (r s : Pending) → IsBytes text → HasGiven due text ps r → Answers r s (Ok (Some p)) → HasGiven due text (ps ++ p ∷ []) s }
    ensures waits { (due : Bool) (text : List ℕ) (ps : List (ℕ × AFrame)) (r s : Pending) → IsBytes text → HasGiven due text ps r → Answers r s (Ok None) → HasGiven due text ps s × IsStream due text ps None (rest_place s) }
    ensures refuses { (due : Bool) (text : List ℕ) (ps : List (ℕ × AFrame)) (e : Fault) (r s : Pending) → IsBytes text → HasGiven due text ps r → e ≢ NoMemory → Answers r s (Err e) → HasGiven due text ps s × IsStream due text ps (Some e) (rest_place s) }
{}

/// The same holds of a whole run from a new reader on: what it has given are frames of all bytes that were fed, and if
/// the next call gives none, they are all of them, with the fault, if there is one, and the place of the rest.
pub fn runs_give_frames()
    ensures gives { (due : Bool) (s : Pending) (es : List Event) → IsBytes (bytes_of es) → Runs (fresh due) es s → HasGiven due (bytes_of es) (frames_of es) s }
    ensures waits { (due : Bool) (s t : Pending) (es : List Event) → IsBytes (bytes_of es) → Runs (fresh due) es s → Answers s t (Ok None) → IsStream due (bytes_of es) (frames_of es) None (rest_place t) }
    ensures refuses { (due : Bool) (e : Fault) (s t : Pending) (es : List Event) → IsBytes (bytes_of es) → Runs (fresh due) es s → e ≢ NoMemory → Answers s t (Err e) → IsStream due (bytes_of es) (frames_of es) (Some e) (rest_place t) }
{}

/// Bytes have one reading: its frames, its fault and the place of its rest. The frames that a reader has given are the
/// first of it. A fault stays, whatever follows.
pub fn one_reading()
    ensures each { (due : Bool) (text : List ℕ) → IsBytes text → (ps : List (ℕ × AFrame)) × (end : Option Fault) × (place : Option ℕ) × IsStream due text ps end place }
    ensures one { (due : Bool) (text : List ℕ) (ps qs : List (ℕ × AFrame)) (d e : Option Fault) (m n : Option ℕ) → IsStream due text ps d m → IsStream due text qs e n → (ps ≡ qs) × (d ≡ e) × (m ≡ n) }
    ensures first { (due : Bool) (text : List ℕ) (ps qs : List (ℕ × AFrame)) (r : Pending) (e : Option Fault) (n : Option ℕ) → HasGiven due text ps r → IsStream due text qs e n → (more : List (ℕ × AFrame)) × (qs ≡ ps ++ more) }
    ensures stays { (due : Bool) (text more : List ℕ) (ps : List (ℕ × AFrame)) (e : Fault) (n : Option ℕ) → IsStream due text ps (Some e) n → IsStream due (text ++ more) ps (Some e) n }
{}

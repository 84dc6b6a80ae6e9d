//! Laws of framers: what they give of a stream, over any list of calls, and what is written as a frame.
ghost use Rattle.std.specs.Prelude.{◌≡◌, ℕ, ◌++◌, ◌∷◌, [], List, length, take, drop, ◌<◌, ◌≤◌, ◌⊎◌, codes, Some, Option, ℤ, ◌<ℤ◌, ◌≤ℤ◌};
ghost use Rattle.fix_fields.specs.Forms.{moment_of};
ghost use Rattle.fix_fields.specs.Spelling.{spelling};
ghost use Rattle.fix_write.specs.Fields.{field};
ghost use Rattle.fix_write.specs.Framing.{wrapped, frame_of};
ghost use Rattle.fix_write.specs.Moments.{moment_text};
ghost use Rattle.fix_frames.specs.Frames.{EndsWithSoh, IsFrame};
ghost use Rattle.fix_frames.specs.Reading.{none_yet, only_too_long, with_frames, reading_of};
ghost use Rattle.message_laws.specs.Calls.{Call, waited, exceeded, Leads, bytes_fed, frames_given};
ghost use Rattle.fix_frames.specs.Streams.{Stream, beginning, EndsWith, gives, next_from};

use fix_fields::{FIRST_MOMENT, LAST_MOMENT};
use venue_words::limits::MAX_FRAME_BYTES;

/// However a stream is cut into pieces, and whenever the next frame is asked for: a framer's answers are the frames
/// of the whole stream. `Leads beginning calls new` says that these calls, each with its answer, lead a new framer to
/// the stream `new`.
pub fn any_calls()
    // The frames of all bytes fed, whatever follows, are those that were given, and then those from the bytes kept on.
    ensures frames { (calls : List Call) (new : Stream) (more : List ℕ) → Leads beginning calls new →
        reading_of (bytes_fed calls ++ more) ≡ with_frames (frames_given calls) (reading_of (new.kept ++ more)) }

    // Where the last answer is `Wait`, those that were given are all frames of the stream so far.
    ensures wait { (calls : List Call) (new : Stream) → Leads beginning (calls ++ waited ∷ []) new →
        reading_of (bytes_fed calls) ≡ with_frames (frames_given calls) none_yet }

    // Where it is `TooLong`, the frame behind them is too long, whatever follows.
    ensures too_long { (calls : List Call) (new : Stream) (more : List ℕ) → Leads beginning (calls ++ exceeded ∷ []) new →
        reading_of (bytes_fed calls ++ more) ≡ with_frames (frames_given calls) only_too_long }

    // What is kept is the end of the stream, behind the bytes that were passed over or given.
    ensures kept { (calls : List Call) (new : Stream) → Leads beginning calls new → EndsWith (bytes_fed calls) new }
{}

/// What a framer gives is a frame, no frame is left out before it, and none that stands at the front is held back.
/// `next_from` is what comes next in a stream, and `IsFrame` says how a frame is spelled.
pub fn whole_frames()
    // What comes next is a frame of at most `MAX_FRAME_BYTES` bytes, and stands behind those that are passed over.
    ensures given { (bytes : List ℕ) (n : ℕ) (frame : List ℕ) → next_from bytes ≡ gives n frame →
        IsFrame frame × (length frame ≤ MAX_FRAME_BYTES) × (take (length frame) (drop n bytes) ≡ frame) }

    // No such frame begins among those that are passed over.
    ensures first { (bytes : List ℕ) (n : ℕ) (frame : List ℕ) → next_from bytes ≡ gives n frame →
        (k : ℕ) (other rest : List ℕ) → k < n → IsFrame other → length other ≤ MAX_FRAME_BYTES →
        drop k bytes ≡ other ++ rest → ⊥ }

    // Such a frame at the front of a stream comes next, whatever follows it.
    ensures front { (frame more : List ℕ) → IsFrame frame → length frame ≤ MAX_FRAME_BYTES →
        next_from (frame ++ more) ≡ gives 0 frame }
{}

/// What is written as a frame of at most `MAX_FRAME_BYTES` bytes is a frame.
pub fn written_frames()
    // A message, whose body is empty or ends with SOH.
    ensures message { (kind : ℕ) (sender target : List ℕ) (number : ℕ) (moment : ℤ) (first_sent : Option ℤ)
        (body : List ℕ) → (body ≡ []) ⊎ EndsWithSoh body →
        length (frame_of kind sender target number moment first_sent body) ≤ MAX_FRAME_BYTES →
        IsFrame (frame_of kind sender target number moment first_sent body) }

    // Fields that are given, the first of which is MsgType (35).
    ensures fields { (content start : List ℕ) → content ≡ codes "35=" ++ start → EndsWithSoh content →
        length (wrapped content) ≤ MAX_FRAME_BYTES → IsFrame (wrapped content) }
{}

/// A field is written as it is spelled where it is read.
pub fn written_fields()
    ensures { (tag : ℕ) (value : List ℕ) → field tag value ≡ spelling (record { tag = tag; bytes = value }) }
{}

/// A moment that is written is read as the same, or, outside the years 0000 to 9999, as the nearest one inside.
pub fn written_moments()
    ensures inside { (moment : ℤ) → FIRST_MOMENT ≤ℤ moment → moment ≤ℤ LAST_MOMENT →
        moment_of (moment_text moment) ≡ Some moment }
    ensures before { (moment : ℤ) → moment <ℤ FIRST_MOMENT → moment_of (moment_text moment) ≡ Some FIRST_MOMENT }
    ensures after { (moment : ℤ) → LAST_MOMENT <ℤ moment → moment_of (moment_text moment) ≡ Some LAST_MOMENT }
{}

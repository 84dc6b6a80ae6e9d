//! Laws of frames: what is sent comes out of a stream as it was sent.
ghost use Rattle.message_laws.specs.Contents.{ContentComesBack, FieldsComeBack};
ghost use Rattle.message_laws.specs.Garbage.{
  CutsDoNotMatter,
  FrameBehindGarbage,
  FramesComeThrough,
  TooLongBehindGarbage,
  TooLongIsDeclared,
};

/// The content of a frame is what its BodyLength (9) counts: of a frame that was wrapped round a content, that content.
// Rules out a content that begins with BodyLength, one that keeps the check sum or a part of it, and one that is cut at a
// byte of its own.
pub fn content_comes_back()
    ensures { ContentComesBack }
{}

/// A message that is sent is split into the fields of its head and the fields of its body, in their order.
// Rules out a field that is lost, added, moved or changed between the writer and the reader of a message.
pub fn fields_come_back()
    ensures { FieldsComeBack }
{}

/// Garbage before a frame delays it by nothing: as soon as the frame's last byte is there, it comes next. Garbage is any bytes
/// with no BeginString from which a frame comes: behind each one, in the stream, either no BodyLength stands, whatever follows,
/// or one that declares no more bytes than `MAX_FRAME_BYTES`, and these are there and are no frame.
// Rules out a reader that holds garbled bytes until more came than a frame needs, and one that takes a part of the next frame
// away with a garbled one.
pub fn frame_behind_garbage()
    ensures { FrameBehindGarbage }
{}

/// A stream of frames, with any garbage before each of them, has these frames, in their order and no others.
// Rules out a frame that is lost, given twice or cut out of garbage.
pub fn frames_come_through()
    ensures { FramesComeThrough }
{}

/// However a stream of frames is cut into pieces, and whenever the next frame is asked for: once a framer has nothing more to
/// give, it gave these frames.
// Rules out a frame that is lost where a piece ends, and an answer that depends on the pieces.
pub fn cuts_do_not_matter()
    ensures { CutsDoNotMatter }
{}

/// Where behind garbage a start declares more bytes than `MAX_FRAME_BYTES`, the stream is over its limit at once.
// Rules out a reader that waits for bytes of a frame which is too long, and one that passes such a frame over.
pub fn too_long_behind_garbage()
    ensures { TooLongBehindGarbage }
{}

/// A stream is over its limit only where some start in it declares more bytes than `MAX_FRAME_BYTES`, and no frame can begin
/// before that start, whatever follows.
// Rules out an end by bytes that are garbled alone, however many they are, and one by a frame of the greatest length.
pub fn too_long_is_declared()
    ensures { TooLongIsDeclared }
{}

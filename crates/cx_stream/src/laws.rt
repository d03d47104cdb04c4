//! Laws of streams, which crates above may rest on.

ghost use Rattle.std.specs.Prelude.{◌≡◌, ℕ, ◌+◌, ◌<◌, ◌^◌, List, ◌++◌, Ok, Some, None, length};
ghost use Rattle.cx_frame.specs.Frames.{frame_text};
ghost use Rattle.cx_frame.specs.declared.frame.Frame.{Frame};
ghost use Rattle.cx_secure.specs.Plains.{plains, secure_text};
ghost use Rattle.cx_stream.specs.PlainStreams.{IsPlain, IsPlainStream, plain_frame_at};
ghost use Rattle.cx_stream.specs.Held.{Held};
ghost use Rattle.cx_stream.specs.SecureStreams.{Ahead, IsKeyed, IsSecure, IsSecureStream, ahead, secure_frame_at};

/// A plain frame that was put is read again, whatever follows it. What is answered to some bytes, a frame or a fault, is answered whatever
/// follows them. Bytes are frames and a rest in one way at most.
pub fn plain_stream_laws()
    ensures again { (f : Frame) (more : List ℕ) → IsPlain f → plain_frame_at (frame_text f ++ more) ≡ Ok (Some (f, length (frame_text f))) }
    ensures settled { (bytes more : List ℕ) → (plain_frame_at bytes ≡ Ok None → ⊥) → plain_frame_at (bytes ++ more) ≡ plain_frame_at bytes }
    ensures one { (bytes : List ℕ) (fs gs : List Frame) (rest left : List ℕ) → IsPlainStream bytes fs rest → IsPlainStream bytes gs left → (fs ≡ gs) × (rest ≡ left) }
{}

/// The same of secure frames, under any key of 16 bytes and any four fixed bytes of nonces, as each stream of them has them.
pub fn secure_stream_laws()
    ensures keyed { (s : Held) → IsKeyed (ahead s) }
    ensures again { (a : Ahead) (f : Frame) (more : List ℕ) → IsKeyed a → IsSecure f → a.counter + length (plains f) < 2 ^ 64
        → a.bytes ≡ secure_text a.key a.fixed a.counter f ++ more → secure_frame_at a ≡ Ok (Some (f, length (secure_text a.key a.fixed a.counter f))) }
    ensures settled { (a : Ahead) (more : List ℕ) → (secure_frame_at a ≡ Ok None → ⊥) → secure_frame_at (record a { bytes = a.bytes ++ more }) ≡ secure_frame_at a }
    ensures one { (a : Ahead) (fs gs : List Frame) (rest left : List ℕ) → IsKeyed a → IsSecureStream a fs rest → IsSecureStream a gs left → (fs ≡ gs) × (rest ≡ left) }
{}

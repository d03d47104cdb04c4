//! Laws of banners, preambles and plain frames, which crates above may rest on.

ghost use Rattle.std.specs.Prelude.{◌≡◌, ℕ, List, ◌++◌, length};
ghost use Rattle.cx_frame.specs.Preambles.{IsAllowed, preamble_of, preamble_text};
ghost use Rattle.cx_frame.specs.Frames.{frame_text, rest_len, rest_text};
ghost use Rattle.cx_frame.specs.declared.frame.Frame.{Frame};
ghost use Rattle.cx_frame.specs.declared.preamble.Preamble.{Preamble};

/// A preamble has 32 bytes, and what stands behind it is as long as it says. Where two frames that preambles announce begin the
/// same bytes, they are one frame, and what follows them is the same.
pub fn frame_laws()
    ensures front { (p : Preamble) → length p.lengths ≡ 4 → length p.aligns ≡ 4 → length (preamble_text p) ≡ 32 }
    ensures rest { (f : Frame) → IsAllowed 65536 (preamble_of f) → length (rest_text f.segments) ≡ rest_len (preamble_of f) }
    ensures one { (f g : Frame) (more rest : List ℕ) → IsAllowed 65536 (preamble_of f) → IsAllowed 65536 (preamble_of g)
        → frame_text f ++ more ≡ frame_text g ++ rest → (f ≡ g) × (more ≡ rest) }
{}

//! Laws of secure frames, which crates above may rest on.

ghost use Rattle.std.specs.Prelude.{◌≡◌, ℕ, ◌<◌, ◌≤◌, List, ◌∷◌, ◌++◌};
ghost use Rattle.cx_gcm.specs.cx_aes.specs.Cipher.{IsBlock};
ghost use Rattle.cx_frame.specs.Preambles.{IsAllowed, preamble_of};
ghost use Rattle.cx_frame.specs.declared.frame.Frame.{Frame};
ghost use Rattle.cx_secure.specs.Commits.{IsRun, Uses};
ghost use Rattle.cx_secure.specs.Opening.{IsSplit};
ghost use Rattle.cx_secure.specs.Parts.{IsFixed};
ghost use Rattle.cx_secure.specs.Plains.{secure_text};
ghost use Rattle.cx_secure.specs.Sealings.{connection_key};
ghost use Rattle.cx_secure.specs.declared.sealing.SealedAhead.{SealedAhead};
ghost use Rattle.cx_secure.specs.declared.sealing.Sealing.{Sealing};

/// A secure frame is the 96 bytes of a head and, as many as that says, the bytes of its rest, each of which is read again as what it
/// is. Where two frames begin the same bytes under one counter, they are one frame, and what follows them is the same. Both are said of any
/// key of 16 bytes and any four fixed bytes of nonces, as each sealing has them.
pub fn secure_laws()
    ensures keyed { (s : Sealing) → IsBlock (connection_key s) × IsFixed s.out.fixed × IsFixed s.into.fixed }
    ensures split { (key fixed : List ℕ) (counter : ℕ) (f : Frame) → IsBlock key → IsFixed fixed → IsAllowed 1048576 (preamble_of f) → IsSplit key fixed counter f }
    ensures one { (key fixed : List ℕ) (counter : ℕ) (f g : Frame) (more rest : List ℕ) → IsBlock key → IsFixed fixed
        → IsAllowed 1048576 (preamble_of f) → IsAllowed 1048576 (preamble_of g)
        → secure_text key fixed counter f ++ more ≡ secure_text key fixed counter g ++ rest → (f ≡ g) × (more ≡ rest) }
{}

/// Of any run of commits each counter is used once: what one commit uses no other does, and it lies between the counters at which the run began
/// and ended.
pub fn commit_laws()
    ensures once { (counter end used : ℕ) (before between behind : List SealedAhead) (a b : SealedAhead)
        → IsRun counter (before ++ a ∷ (between ++ b ∷ behind)) end → Uses a used → Uses b used → ⊥ }
    ensures within { (counter end used : ℕ) (before behind : List SealedAhead) (a : SealedAhead)
        → IsRun counter (before ++ a ∷ behind) end → Uses a used → (counter ≤ used) × (used < end) }
{}

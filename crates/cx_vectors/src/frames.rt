//! Rows of the frame cipher, AES-128 in GCM.

ghost use Rattle.std.specs.Prelude.{◌≤◌, vec_len, IfOk};

use crate::words::{Hex, Untold, array_of};
use cx_aes::Schedule;
use cx_base::Blob;
use cx_gcm::{BadTag, GcmKey, open_in_place, seal_in_place};
use std::alloc::Global;

// A text of a row is no longer than this.
const MOST: usize = 65_536;

/// A key, a nonce, a plain text, its cipher text and its tag: what the plain text is sealed to under a key that is made once, and what
/// the cipher text opens to.
pub fn frame(alloc: Global, words: &[Blob]) -> Result<String, Untold> {
    let [key, nonce, plain, cipher, tag] = words else {
        return Err(Untold::NoRow);
    };
    let key = GcmKey::new(array_of(key)?);
    let nonce = *array_of::<12>(nonce)?;
    let mut sealed = text_of(alloc, plain)?;
    let made = key.seal_in_place(nonce, &mut sealed);
    let mut opened = text_of(alloc, cipher)?;
    let answer = key.open_in_place(nonce, &mut opened, array_of(tag)?);
    told(alloc, &sealed, &made, answer, &opened)
}

/// The same under a schedule, of which the key is made anew at each call.
pub fn frame_by_schedule(alloc: Global, words: &[Blob]) -> Result<String, Untold> {
    let [key, nonce, plain, cipher, tag] = words else {
        return Err(Untold::NoRow);
    };
    let key = Schedule::new(array_of(key)?);
    let nonce = *array_of::<12>(nonce)?;
    let mut sealed = text_of(alloc, plain)?;
    let made = seal_in_place(&key, nonce, &mut sealed);
    let mut opened = text_of(alloc, cipher)?;
    let answer = open_in_place(&key, nonce, &mut opened, array_of(tag)?);
    told(alloc, &sealed, &made, answer, &opened)
}

fn text_of(alloc: Global, word: &Blob) -> Result<Vec<u8>, Untold>
    ensures { IfOk result (λ text. vec_len text ≤ 65536) }
{
    let bytes = word.bytes();
    if bytes.len() > MOST {
        return Err(Untold::NoRow);
    }
    let text = Vec::from_slice(alloc, bytes)?;
    Ok(text)
}

fn told(
    alloc: Global,
    sealed: &[u8],
    tag: &[u8; 16],
    answer: Result<(), BadTag>,
    opened: &[u8],
) -> Result<String, Untold> {
    let word = if answer.is_ok() { "back" } else { "refused" };
    let told = format!(in alloc; "{} tag {} {} {}", Hex(sealed), Hex(tag), word, Hex(opened))?;
    Ok(told)
}

/// A key, a nonce and a plain text: what comes of each flipped bit of its tag, and of each byte of its cipher text with all bits flipped.
/// `-` stands for a refusal that leaves the bytes as they were, `x` for anything else.
pub fn flipped_frame(alloc: Global, words: &[Blob]) -> Result<String, Untold> {
    let [key, nonce, plain] = words else {
        return Err(Untold::NoRow);
    };
    let key = Schedule::new(array_of(key)?);
    let nonce = *array_of::<12>(nonce)?;
    let mut sealed = text_of(alloc, plain)?;
    let tag = seal_in_place(&key, nonce, &mut sealed);
    let mut answer = format!(in alloc; "tag ")?;
    for bit in 0..128u32 {
        let flipped = (u128::from_be_bytes(tag) ^ (1 << bit)).to_be_bytes();
        let sign = sign_of(alloc, &key, nonce, &sealed, &flipped)?;
        write!(answer, "{sign}")?;
    }
    write!(answer, " text ")?;
    for place in 0..sealed.len() {
        let mut other = Vec::from_slice(alloc, &sealed)?;
        if let Some(byte) = other.get_mut(place) {
            *byte ^= 0xff;
        }
        let sign = sign_of(alloc, &key, nonce, &other, &tag)?;
        write!(answer, "{sign}")?;
    }
    Ok(answer)
}

// What comes of these bytes under this tag.
fn sign_of(
    alloc: Global,
    key: &Schedule,
    nonce: [u8; 12],
    bytes: &[u8],
    tag: &[u8; 16],
) -> Result<char, Untold> {
    if bytes.len() > MOST {
        return Err(Untold::NoRow);
    }
    let mut tried = Vec::from_slice(alloc, bytes)?;
    let answer = open_in_place(key, nonce, &mut tried, tag);
    let is_kept = answer.is_err() && tried.as_slice() == bytes;
    Ok(if is_kept { '-' } else { 'x' })
}

//! The types that own bytes, ASCII text and items. Every clause sees each of them as the list of what it holds.

ghost use Rattle.std.specs.Prelude.{◌≡◌, [], ◌∷◌, ◌++◌, OnOk, OnErr, IfOk, IfErr, None, take, length};
ghost use Rattle.std.specs.List.{position};
ghost use Rattle.std.specs.Str.{IsAscii};
ghost use Rattle.cx_base.specs.Owners.{is_above_ascii, IsTextCause};

use crate::copies::Duplicate;
use crate::refusals::TextRefusal;
use std::alloc::{AllocError, Global};
use std::cmp::Ordering;
use std::fmt;
use std::marker::Model;
use std::sync::ArcStr;

/// Bytes.
#[derive(Debug, Drop)]
pub struct Blob {
    held: Vec<u8>,
}

impl Model for Blob {
    ghost use Rattle.std.specs.Prelude.{ℕ, List};

    ghost Value = { List ℕ };

    ghost view = { λ b. b.held.items };
}

impl Blob {
    /// No bytes.
    pub fn new(alloc: Global) -> Blob
        ensures { result ≡ [] }
    {
        Blob {
            held: Vec::new(alloc),
        }
    }

    /// No bytes, with room for so many.
    pub fn with_room(alloc: Global, room: usize) -> Result<Blob, AllocError>
        ensures { IfOk result (λ blob. blob ≡ []) }
    {
        let held = Vec::with_capacity(alloc, room)?;
        Ok(Blob { held })
    }

    /// A copy of these bytes.
    pub fn of(alloc: Global, bytes: &[u8]) -> Result<Blob, AllocError>
        ensures { IfOk result (λ blob. blob ≡ bytes.now) }
    {
        let held = Vec::from_slice(alloc, bytes)?;
        Ok(Blob { held })
    }

    /// The bytes.
    pub fn bytes(&self) -> &[u8]
        ensures { result.now ≡ self.now }
    {
        self.held.as_slice()
    }

    /// Puts these bytes behind those that are there.
    pub fn append(&mut self, _alloc: Global, bytes: &[u8]) -> Result<(), AllocError>
        ensures ok { OnOk result (self.new ≡ self.old ++ bytes.now) }
        ensures err { OnErr result (self.new ≡ self.old) }
    {
        self.make_room(bytes.len())?;
        self.held.extend_from_slice(bytes)
    }

    /// Puts these bytes behind those that are there, and others behind them, with room made once.
    pub fn append_both(
        &mut self,
        alloc: Global,
        first: &[u8],
        second: &[u8],
    ) -> Result<(), AllocError>
        ensures ok { OnOk result (self.new ≡ self.old ++ first.now ++ second.now) }
        ensures err { OnErr result (self.new ≡ self.old) }
    {
        let length = self.held.len();
        self.make_room(first.len().saturating_add(second.len()))?;
        self.append(alloc, first)?;
        if self.append(alloc, second).is_err() {
            self.held.truncate(length);
            return Err(AllocError);
        }
        Ok(())
    }

    // Room for so many more bytes, and for 256 at least where it is made, so that what is written in small parts is seldom moved.
    fn make_room(&mut self, more: usize) -> Result<(), AllocError>
        ensures { self.new ≡ self.old }
    {
        if self.held.capacity().saturating_sub(self.held.len()) < more {
            self.held.reserve(more.max(256))?;
        }
        Ok(())
    }
}

impl From<Vec<u8>> for Blob {
    ghost use Rattle.std.specs.Prelude.{◌≡◌};

    ghost from_gives = { λ bytes blob. blob ≡ bytes.items };

    /// The bytes of a `Vec`, which are not copied.
    fn from(bytes: Vec<u8>) -> Blob {
        Blob { held: bytes }
    }
}

impl PartialEq for Blob {
    ghost use Rattle.std.specs.Str.{bytes_eq};
    ghost use Rattle.std.specs.Cmp;
    ghost use Rattle.std.specs.Cmp.Lexicographic.{nat_list_eq_equiv};

    ghost eq = { bytes_eq };

    ghost laws = { Cmp.partial_equiv_from_equiv nat_list_eq_equiv };

    fn eq(&self, other: &Self) -> bool {
        self.bytes() == other.bytes()
    }
}

impl Eq for Blob {
    ghost use Rattle.std.specs.Cmp.Lexicographic.{nat_list_eq_equiv};

    ghost laws = { nat_list_eq_equiv };
}

impl PartialOrd for Blob {
    ghost use Rattle.std.specs.Prelude.{Some};
    ghost use Rattle.std.specs.Cmp.Lexicographic.{slice_cmp, texts_po};
    ghost use Rattle.std.specs.Ordering.{nat_cmp};

    ghost partial_cmp = { λ a b. Some (slice_cmp nat_cmp a b) };

    ghost laws = { texts_po };

    fn partial_cmp(&self, other: &Self) -> Option<Ordering> {
        Some(self.cmp(other))
    }
}

impl Ord for Blob {
    ghost use Rattle.std.specs.Prelude.{refl};
    ghost use Rattle.std.specs.Cmp.Lexicographic.{slice_cmp, nat_list_cmp_total, texts_ties};
    ghost use Rattle.std.specs.Ordering.{nat_cmp};

    ghost cmp = { slice_cmp nat_cmp };

    ghost total = { nat_list_cmp_total };

    ghost matches_partial_cmp = { λ a b. refl };

    ghost matches_eq = { texts_ties };

    fn cmp(&self, other: &Self) -> Ordering {
        self.bytes().cmp(other.bytes())
    }
}

impl Duplicate for Blob {
    fn copy(&self, alloc: Global) -> Result<Blob, AllocError> {
        Blob::of(alloc, self.bytes())
    }
}

/// ASCII text: no byte is above 0x7f. It never changes, and its copies share one block of memory.
#[derive(Debug, Drop)]
pub struct Text {
    held: ArcStr,
}

impl Model for Text {
    ghost use Rattle.std.specs.Prelude.{ℕ, List};
    ghost use Rattle.std.specs.Arc.{arc_str_bytes};
    ghost use Rattle.std.specs.Str.{IsAscii};

    ghost Value = { List ℕ };

    ghost view = { λ t. arc_str_bytes t.held };

    ghost invariant = { λ t. IsAscii (arc_str_bytes t.held) };
}

impl Text {
    /// The empty text.
    pub fn new(alloc: Global) -> Result<Text, AllocError>
        ensures { IfOk result (λ text. text ≡ []) }
    {
        let held = ArcStr::from_str(alloc, "")?;
        Ok(Text { held })
    }

    /// The text of these bytes.
    pub fn of(alloc: Global, bytes: &[u8]) -> Result<Text, TextRefusal>
        ensures ok { IfOk result (λ text. (text ≡ bytes.now) × (position is_above_ascii bytes.now ≡ None)) }
        ensures err { IfErr result (IsTextCause bytes.now) }
    {
        if let Some(place) = first_above_ascii(bytes) {
            return Err(TextRefusal::NotAscii(place));
        }
        let held = ArcStr::from_str(alloc, ascii(bytes))?;
        Ok(Text { held })
    }

    /// The text of bytes that are known to be ASCII.
    pub fn from_ascii(alloc: Global, bytes: &[u8]) -> Result<Text, AllocError>
        requires { position is_above_ascii bytes.now ≡ None }
        ensures { IfOk result (λ text. text ≡ bytes.now) }
    {
        let held = ArcStr::from_str(alloc, ascii(bytes))?;
        Ok(Text { held })
    }

    /// The bytes of the text.
    pub fn bytes(&self) -> &[u8]
        ensures value { result.now ≡ self.now }
        ensures ascii { IsAscii result.now }
    {
        let _ = &self.held;
        self.as_str().as_bytes()
    }

    /// The text.
    pub fn as_str(&self) -> &str
        ensures { result.now ≡ self.now }
    {
        self.held.as_str()
    }
}

fn first_above_ascii(bytes: &[u8]) -> Option<usize>
    ensures { result ≡ position is_above_ascii bytes.now }
{
    bytes.iter().position(|b| *b > 127)
}

fn ascii(bytes: &[u8]) -> &str
    requires { position is_above_ascii bytes.now ≡ None }
    ensures value { result.now ≡ bytes.now }
    ensures ascii { IsAscii result.now }
{
    match str::from_utf8(bytes) {
        Ok(text) => text,
        Err(_) => unreachable!(),
    }
}

impl fmt::Display for Text {
    ghost use Rattle.std.specs.Prelude.{Some};

    ghost output = { λ text. Some text };

    fn fmt<W: fmt::Write>(&self, f: &mut fmt::Formatter<W>) -> fmt::Result {
        write!(f, "{}", self.as_str())
    }
}

impl PartialEq for Text {
    ghost use Rattle.std.specs.Str.{bytes_eq};
    ghost use Rattle.std.specs.Cmp;
    ghost use Rattle.std.specs.Cmp.Lexicographic.{nat_list_eq_equiv};

    ghost eq = { bytes_eq };

    ghost laws = { Cmp.partial_equiv_from_equiv nat_list_eq_equiv };

    fn eq(&self, other: &Self) -> bool {
        self.bytes() == other.bytes()
    }
}

impl Eq for Text {
    ghost use Rattle.std.specs.Cmp.Lexicographic.{nat_list_eq_equiv};

    ghost laws = { nat_list_eq_equiv };
}

impl Duplicate for Text {
    fn copy(&self, _alloc: Global) -> Result<Text, AllocError> {
        let held = self.held.clone()?;
        Ok(Text { held })
    }
}

/// Items of one type, in their order.
#[derive(Debug, Drop)]
pub struct Items<T> {
    held: Vec<T>,
}

impl<T> Model for Items<T> {
    ghost use Rattle.std.specs.Prelude.{List};

    ghost Value = { List T };

    ghost view = { λ a. a.held.items };
}

impl<T> Items<T> {
    /// No items.
    pub fn new(alloc: Global) -> Items<T>
        ensures { result ≡ [] }
    {
        Items {
            held: Vec::new(alloc),
        }
    }

    /// The items.
    pub fn all(&self) -> &[T]
        ensures { result.now ≡ self.now }
    {
        self.held.as_slice()
    }

    /// The items, each of which can be moved out.
    pub fn into_vec(self) -> Vec<T>
        ensures { result.items ≡ self }
    {
        let Items { held } = self;
        held
    }
}

impl<T: Drop> Items<T> {
    /// Puts the item last. Where memory is wanting the item is given up.
    pub fn push(&mut self, _alloc: Global, item: T) -> Result<(), AllocError>
        ensures ok { OnOk result (self.new ≡ self.old ++ item ∷ []) }
        ensures err { OnErr result (self.new ≡ self.old) }
    {
        self.held.push(item)?;
        Ok(())
    }

    /// Moves the other items behind those that are there. Where memory is wanting they are given up.
    pub fn append(&mut self, _alloc: Global, other: Items<T>) -> Result<(), AllocError>
        ensures ok { OnOk result (self.new ≡ self.old ++ other) }
        ensures err { OnErr result (self.new ≡ self.old) }
    {
        let mut moved = other;
        self.held.append(&mut moved.held)
    }

    /// Keeps the first `count` items and gives up the others.
    pub fn truncate(&mut self, count: usize)
        ensures { self.new ≡ take count self.old }
    {
        self.held.truncate(count);
    }
}

impl<T: PartialEq> PartialEq for Items<T> {
    ghost use Rattle.std.specs.Cmp.Lexicographic.{pointwise, lists_per};

    ghost eq = { pointwise T.eq };

    ghost laws = { lists_per T.laws };

    fn eq(&self, other: &Self) -> bool {
        self.all() == other.all()
    }
}

impl<T: Eq> Eq for Items<T> {
    ghost use Rattle.std.specs.Cmp.Lexicographic.{lists_equiv};

    ghost laws = { lists_equiv T.Eq.laws };
}

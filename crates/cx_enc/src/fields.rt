//! Reading fields from the front of some bytes.

ghost use Rattle.std.specs.Prelude.{◌≡◌, length, IfOk};
ghost use Rattle.cx_enc.specs.Forms.{u8_form, u16_form, u32_form, u64_form, bytes_form, blob_form, short_at};
ghost use Rattle.cx_enc.specs.Reading.{spot, Reads, ReadsAs};
ghost use Rattle.cx_enc.specs.Values.{sized_form};

use crate::ReadFault;
use crate::cut::Cut;

impl<'a> Cut<'a> {
    /// The beginning of these bytes.
    pub fn new(all: &'a [u8]) -> Cut<'a>
        ensures { spot result ≡ record { place = 0; left = all.now } }
    {
        Cut {
            left: all,
            place: 0,
        }
    }

    /// How many bytes stand before the place.
    pub fn place(&self) -> usize
        ensures { result ≡ (spot self.now).place }
    {
        self.place
    }

    /// How many bytes stand from the place on.
    pub fn left(&self) -> usize
        ensures { result ≡ length (spot self.now).left }
    {
        self.left.len()
    }

    // The next bytes, so many.
    #[tactic(auto, unfolding(crate::specs::Forms::bytes_at))]
    fn take(&mut self, count: usize) -> Result<&'a [u8], ReadFault>
        ensures read { ReadsAs (λ bytes. bytes.now) (spot self.old) (spot self.new) result ((bytes_form count).at (spot self.old)) }
        ensures count { IfOk result (λ bytes. length bytes.now ≡ count) }
    {
        if self.left.len() < count {
            return Err(ReadFault::Short(self.place));
        }
        let (front, rest) = self.left.split_at(count);
        self.left = rest;
        self.place += count;
        Ok(front)
    }

    /// A number of one byte.
    #[tactic(auto, unfolding(crate::specs::Forms::number_at))]
    pub fn take_u8(&mut self) -> Result<u8, ReadFault>
        ensures { Reads (spot self.old) (spot self.new) result (u8_form.at (spot self.old)) }
    {
        let bytes = self.take(1)?;
        Ok(bytes[0])
    }

    /// A number of two bytes.
    #[tactic(auto, unfolding(crate::specs::Forms::number_at))]
    pub fn take_u16(&mut self) -> Result<u16, ReadFault>
        ensures { Reads (spot self.old) (spot self.new) result (u16_form.at (spot self.old)) }
    {
        let bytes = self.take(2)?;
        Ok(u16::from_le_bytes([bytes[0], bytes[1]]))
    }

    /// A number of four bytes.
    #[tactic(auto, unfolding(crate::specs::Forms::number_at))]
    pub fn take_u32(&mut self) -> Result<u32, ReadFault>
        ensures { Reads (spot self.old) (spot self.new) result (u32_form.at (spot self.old)) }
    {
        let bytes = self.take(4)?;
        Ok(u32::from_le_bytes([bytes[0], bytes[1], bytes[2], bytes[3]]))
    }

    /// A number of eight bytes.
    #[tactic(auto, unfolding(crate::specs::Forms::number_at))]
    pub fn take_u64(&mut self) -> Result<u64, ReadFault>
        ensures { Reads (spot self.old) (spot self.new) result (u64_form.at (spot self.old)) }
    {
        let bytes = self.take(8)?;
        Ok(u64::from_le_bytes([
            bytes[0], bytes[1], bytes[2], bytes[3], bytes[4], bytes[5], bytes[6], bytes[7],
        ]))
    }

    /// So many bytes.
    #[tactic(auto, unfolding(crate::specs::Forms::bytes_at))]
    pub fn take_array<const N: usize>(&mut self) -> Result<[u8; N], ReadFault>
        ensures { Reads (spot self.old) (spot self.new) result ((bytes_form N).at (spot self.old)) }
    {
        let Some((front, rest)) = self.left.split_first_chunk::<N>() else {
            return Err(ReadFault::Short(self.place));
        };
        self.left = rest;
        self.place += N;
        Ok(*front)
    }

    /// A length and so many bytes.
    #[tactic(auto, unfolding(crate::specs::Forms::blob_at))]
    pub fn take_blob(&mut self) -> Result<&'a [u8], ReadFault>
        ensures { ReadsAs (λ bytes. bytes.now) (spot self.old) (spot self.new) result (blob_form.at (spot self.old)) }
    {
        let mut cut = *self;
        let length = short_at(self.place, cut.take_u32())?;
        let bytes = short_at(self.place, cut.take(length as usize))?;
        *self = cut;
        Ok(bytes)
    }

    /// A blob of `N` bytes. One of another length is a bad field.
    #[tactic(auto, unfolding(crate::specs::Values::sized_form))]
    pub fn take_sized<const N: usize>(&mut self) -> Result<[u8; N], ReadFault>
        ensures { Reads (spot self.old) (spot self.new) result ((sized_form N).at (spot self.old)) }
    {
        let mut cut = *self;
        let blob = cut.take_blob()?;
        let Some((bytes, [])) = blob.split_first_chunk::<N>() else {
            return Err(ReadFault::BadField(self.place));
        };
        *self = cut;
        Ok(*bytes)
    }
}

// The answer of a part of the field that begins at this place: where the part can't be read, the field falls short.
pub(crate) fn short_at<T: Drop>(place: usize, answer: Result<T, ReadFault>) -> Result<T, ReadFault>
    ensures { result ≡ short_at place answer }
{
    match answer {
        Ok(part) => Ok(part),
        Err(_) => Err(ReadFault::Short(place)),
    }
}

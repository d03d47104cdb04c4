//! Laws of the primitive fields, which crates above may rest on.

ghost use Rattle.std.specs.Prelude.{ℕ, ◌↔◌};
ghost use Rattle.cx_enc.specs.Forms.{IsLawful, u8_form, u16_form, u32_form, u64_form, bytes_form, blob_form};
ghost use Rattle.cx_enc.specs.Moments.{IsReading};
ghost use Rattle.cx_enc.specs.Needs.{IsField, blob_needs, name_needs, ticket_needs};
ghost use Rattle.cx_enc.specs.Values.{time_form, reading_form, key_form, secret_form, sized_form, ticket_form, addr_form, kind_form, name_form, flag_form};

/// Each primitive field is lawful: what is read was spelled so, and what is spelled is read again, whatever follows it.
pub fn encoding_laws()
    ensures u8 { IsLawful u8_form }
    ensures u16 { IsLawful u16_form }
    ensures u32 { IsLawful u32_form }
    ensures u64 { IsLawful u64_form }
    ensures bytes { (n : ℕ) → IsLawful (bytes_form n) }
    ensures blob { IsLawful blob_form }
    ensures sized { (n : ℕ) → IsLawful (sized_form n) }
    ensures time { IsLawful time_form }
    ensures reading { IsLawful reading_form }
    ensures key { IsLawful key_form }
    ensures secret { IsLawful secret_form }
    ensures ticket { IsLawful ticket_form }
    ensures addr { IsLawful addr_form }
    ensures kind { IsLawful kind_form }
    ensures name { IsLawful name_form }
    ensures flag { IsLawful flag_form }
    ensures readings { (reading : ℕ) → reading_form.Fits reading ↔ IsReading reading }
{}

/// Each primitive field falls short, at its own place, exactly where it needs more bytes than are left; where they are there
/// and spell no value, it is a bad field, at its own place.
pub fn fault_laws()
    ensures u8 { IsField u8_form (λ _. 1) }
    ensures u16 { IsField u16_form (λ _. 2) }
    ensures u32 { IsField u32_form (λ _. 4) }
    ensures u64 { IsField u64_form (λ _. 8) }
    ensures bytes { (n : ℕ) → IsField (bytes_form n) (λ _. n) }
    ensures blob { IsField blob_form blob_needs }
    ensures sized { (n : ℕ) → IsField (sized_form n) blob_needs }
    ensures time { IsField time_form (λ _. 8) }
    ensures reading { IsField reading_form (λ _. 8) }
    ensures key { IsField key_form (λ _. 28) }
    ensures secret { IsField secret_form (λ _. 28) }
    ensures ticket { IsField ticket_form ticket_needs }
    ensures addr { IsField addr_form (λ _. 15) }
    ensures kind { IsField kind_form (λ _. 4) }
    ensures name { IsField name_form name_needs }
    ensures flag { IsField flag_form (λ _. 1) }
{}

//! The laws of the words, which crates above may rest on.

ghost use Rattle.std.specs.Prelude.{◌≡◌, ◌<◌, ◌^◌, decimal, IsTrue};
ghost use Rattle.cx_base.specs.Names.{access_word, is_daemon_type, is_id, name_text, type_word};
ghost use Rattle.cx_words.specs.Laws.{IsReadExactly};
ghost use Rattle.cx_base.specs.Texts.{is_caps, is_part};
ghost use Rattle.cx_words.specs.Words.{access_of, caps_of, hex_of, is_service, is_service_list, name_of, number_of, part_of, part_word, quoted, reading_of, service_of, services_of, services_word, ticket_service_of, IsHexWord, IsReadingWord};

/// Each kind of word is read as a value exactly where it spells that value. So a word has one value at most, and each reader
/// gives it wherever there is one, but for want of memory.
pub fn word_laws()
    ensures number { IsReadExactly number_of (λ word n. (n < 2 ^ 64) × (word ≡ decimal n)) }
    ensures reading { IsReadExactly reading_of IsReadingWord }
    ensures service { IsReadExactly service_of (λ word kind. IsTrue (is_service kind) × (word ≡ type_word kind)) }
    ensures ticket_service { IsReadExactly ticket_service_of (λ word kind. IsTrue (is_daemon_type kind) × (word ≡ type_word kind)) }
    ensures services { IsReadExactly services_of (λ word kinds. IsTrue (is_service_list kinds) × (word ≡ services_word kinds)) }
    ensures access { IsReadExactly access_of (λ word access. word ≡ access_word access) }
    ensures name { IsReadExactly name_of (λ word name. IsTrue (is_id name.kind name.id) × (word ≡ name_text name)) }
    ensures caps { IsReadExactly caps_of (λ word text. IsTrue (is_caps text) × (word ≡ quoted text)) }
    ensures part { IsReadExactly part_of (λ word text. IsTrue (is_part text) × (word ≡ part_word text)) }
    ensures hex { IsReadExactly hex_of IsHexWord }
{}

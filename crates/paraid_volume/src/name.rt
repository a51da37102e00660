//! Names of volumes.
ghost use Rattle.std.specs.Prelude.{◌≡◌, ℕ, ◌<◌, length, slice_index, slice_index_or, IfSome, IfNone};
ghost use Rattle.paraid_volume.specs.Names.{IsName, IsField, is_letter as is_letter_byte};

/// The name of a volume: 1 to 16 letters and digits, kept with zeros after them.
#[derive(Drop)]
pub struct Name {
    pub(crate) text: [u8; 16],
    ghost whole: { length text ≡ 16 },
    ghost field: { IsField (slice_index text) },
    ghost some: { 0 < slice_index text 0 },
}

/// Whether a byte may stand in a name.
pub(crate) fn is_letter(byte: u8) -> bool
    ensures { result ≡ is_letter_byte byte }
{
    byte >= b'a' && byte <= b'z' || byte >= b'0' && byte <= b'9'
}

impl Name {
    /// The name that these bytes spell, if they spell one.
    pub fn new(bytes: &[u8]) -> Option<Name>
        ensures some { IfSome result (λ name. IsName bytes.now
            × ((k : ℕ) → k < 16 → slice_index name.text k ≡ slice_index_or bytes.now k 0)) }
        ensures none { IfNone result (IsName bytes.now → ⊥) }
    {
        if bytes.len() == 0 || bytes.len() > 16 {
            return None;
        }
        let mut text = [0; 16];
        for at in 0..bytes.len() {
            if !is_letter(bytes[at]) {
                return None;
            }
            text[at] = bytes[at];
        }
        Some(Name { text })
    }

    /// The letters and digits of the name.
    pub fn as_slice(&self) -> &[u8]
        ensures name { IsName result.now }
        ensures letters { (k : ℕ) → k < 16
            → slice_index_or result.now k 0 ≡ slice_index self.now.text k }
    {
        for at in 0..16 {
            if self.text[at] == 0 {
                return &self.text[..at];
            }
        }
        &self.text
    }

    /// The name that stands in a field of a table.
    pub(crate) fn from_field(text: [u8; 16]) -> Name
        requires whole { length text ≡ 16 }
        requires field { IsField (slice_index text) }
        requires some { 0 < slice_index text 0 }
        ensures { result.text ≡ text }
    {
        Name { text }
    }
}

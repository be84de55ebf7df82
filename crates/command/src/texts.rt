// A text and its reader.
ghost use Rattle.std.specs.Prelude.{◌≡◌, ◌≤◌, length, IfSome, Decides};
ghost use Rattle.command.specs.Texts.{padded as padded_of, alnum as alnum_of, letters_of, word_of, text_of, same_text, ExactText};

// A text has at most this many letters and digits.
const LONGEST: usize = 7;

// Letters and digits, where case counts. The bytes past the length are 0, so equal texts are equal in every field.
// The bytes have their length beside them, since each of 32 scales holds its password by value, in fixed memory.
#[derive(Clone, Copy, Debug, PartialEq, Eq)]
pub struct Text {
    pub bytes: [u8; 7],
    pub length: usize,
}

// Whether `bytes` are nothing but letters and digits.
fn alnum(bytes: &[u8]) -> bool
    ensures { result ≡ alnum_of bytes.now }
{
    bytes.iter().all(|b| b.is_ascii_alphanumeric())
}

// The letters, then zeros.
fn padded(letters: &[u8]) -> [u8; 7]
    requires { length letters.now ≤ 7 }
    ensures { result ≡ padded_of letters.now }
{
    let mut bytes = [0; 7];
    bytes[..letters.len()].copy_from_slice(letters);
    bytes
}

impl Text {
    // The text of one to seven letters or digits.
    pub fn new(letters: &[u8]) -> Option<Text>
        ensures value { result ≡ word_of letters.now }
        ensures kept { IfSome result (λ t. letters_of t ≡ letters.now) }
    {
        if letters.is_empty() || letters.len() > LONGEST || !alnum(letters) {
            return None;
        }
        Some(Text {
            bytes: padded(letters),
            length: letters.len(),
        })
    }

    // Whether two texts are the same, letter by letter, case and all.
    pub fn same(self, other: Text) -> bool
        ensures value { result ≡ same_text self other }
        ensures whole { Decides result (self ≡ other) }
    {
        self == other
    }
}

// The text that `bytes` write in double quotes.
#[tactic(auto, using(crate::proofs::Quoted::exact_text), unfolding(crate::specs::Texts::text_of))]
pub fn quoted_text(bytes: &[u8]) -> Option<Text>
    ensures value { result ≡ text_of bytes.now }
    ensures exact { ExactText bytes.now }
{
    match bytes {
        [b'"', letters @ .., b'"'] => Text::new(letters),
        _ => None,
    }
}

ghost use Rattle.std.specs.Prelude.{◌≡◌, ◌∷◌, [], bytes_eq, codes, option_map, map};
ghost use Rattle.std.specs.List.{list_any};
ghost use Rattle.std.specs.Str.{str_to_ascii_lowercase};
ghost use Rattle.br_model.specs.BootstrapText.{keyword_of, needs_volume, is_unsupported};
ghost use Rattle.br_bsr.specs.Keyword.{keyword_view, criterion_named, passed_over, unsupported, is_among};

use crate::criterion::Criterion;

/// A keyword by its kind: one that names a volume, gives ranges, is ignored, or is not supported.
#[derive(Clone, Copy)]
pub enum Keyword {
    Volume,
    Asks(Criterion),
    PassedOver,
    Unsupported,
}

/// Returns whether a word is this name, in letters of either case.
pub(crate) fn is_word(word: &[u8], name: &[u8]) -> bool
    requires { str_to_ascii_lowercase name.now ≡ name.now }
    ensures { result ≡ bytes_eq (str_to_ascii_lowercase word.now) name.now }
{
    // The clause of std, as one about lower case.
    word.eq_ignore_ascii_case(name)
}

/// Returns the criterion with this name, if there is one.
fn criterion_from(word: &[u8]) -> Option<Criterion>
    ensures { result ≡ criterion_named word.now }
{
    if is_word(word, b"volsessionid") {
        Some(Criterion::SessionId)
    } else if is_word(word, b"volsessiontime") {
        Some(Criterion::SessionTime)
    } else if is_word(word, b"volfile") {
        Some(Criterion::VolFile)
    } else if is_word(word, b"volblock") {
        Some(Criterion::VolBlock)
    } else if is_word(word, b"voladdr") {
        Some(Criterion::VolAddr)
    } else if is_word(word, b"fileindex") {
        Some(Criterion::FileIndex)
    } else if is_word(word, b"stream") {
        Some(Criterion::Stream)
    } else {
        None
    }
}

/// Returns whether the word is a keyword that is ignored.
fn is_passed_over(word: &[u8]) -> bool
    ensures { result ≡ is_among passed_over word.now }
{
    is_word(word, b"storage")
        || is_word(word, b"mediatype")
        || is_word(word, b"device")
        || is_word(word, b"slot")
        || is_word(word, b"count")
}

/// Returns whether the word is a keyword that is not supported.
fn is_unsupported_word(word: &[u8]) -> bool
    ensures { result ≡ is_among unsupported word.now }
{
    is_word(word, b"client")
        || is_word(word, b"job")
        || is_word(word, b"jobid")
        || is_word(word, b"jobtype")
        || is_word(word, b"joblevel")
        || is_word(word, b"fileregex")
}

impl Keyword {
    /// Returns the keyword with this name, in letters of either case.
    pub fn from_word(word: &[u8]) -> Option<Keyword>
        ensures { option_map keyword_view result ≡ keyword_of word.now }
    {
        if is_word(word, b"volume") {
            Some(Keyword::Volume)
        } else if let Some(criterion) = criterion_from(word) {
            Some(Keyword::Asks(criterion))
        } else if is_passed_over(word) {
            Some(Keyword::PassedOver)
        } else if is_unsupported_word(word) {
            Some(Keyword::Unsupported)
        } else {
            None
        }
    }

    /// Returns whether the keyword must follow a volume.
    pub fn needs_volume(self) -> bool
        ensures { result ≡ needs_volume (keyword_view self) }
    {
        matches!(self, Keyword::Asks(_))
    }

    /// Returns whether the keyword is not supported.
    pub fn is_unsupported(self) -> bool
        ensures { result ≡ is_unsupported (keyword_view self) }
    {
        matches!(self, Keyword::Unsupported)
    }
}

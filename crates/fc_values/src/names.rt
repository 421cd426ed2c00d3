//! The words of the language, and names.
ghost use Rattle.std.specs.Prelude.{◌≡◌};
ghost use Rattle.std.specs.List.{list_all};
ghost use Rattle.fc_values.specs.Names.{is_digit as digit_test, is_letter as letter_test, is_name as name_test, is_name_byte as name_byte_test, spelling as spelling_of, word_of};

/// A reserved word, which is never a name. It is spelled like its variant, but with a lower-case first letter.
#[derive(Clone, Copy, Debug, PartialEq, Eq)]
pub enum Word {
    Ceiling,
    Input,
    Metric,
    Def,
    Main,
    Let,
    In,
    If,
    Nbr,
    Rep,
    Sense,
    Uid,
    NbrLink,
    Not,
    And,
    Or,
    True,
    False,
    Int,
    Bool,
    Field,
    Min,
    Max,
    Mux,
    Fst,
    Snd,
    MinHoodLoc,
    MaxHoodLoc,
    SumHood,
    AnyHood,
    AllHood,
    Share,
    Rise,
    Language,
}

const WORDS: [Word; 34] = [
    Word::Ceiling,
    Word::Input,
    Word::Metric,
    Word::Def,
    Word::Main,
    Word::Let,
    Word::In,
    Word::If,
    Word::Nbr,
    Word::Rep,
    Word::Sense,
    Word::Uid,
    Word::NbrLink,
    Word::Not,
    Word::And,
    Word::Or,
    Word::True,
    Word::False,
    Word::Int,
    Word::Bool,
    Word::Field,
    Word::Min,
    Word::Max,
    Word::Mux,
    Word::Fst,
    Word::Snd,
    Word::MinHoodLoc,
    Word::MaxHoodLoc,
    Word::SumHood,
    Word::AnyHood,
    Word::AllHood,
    Word::Share,
    Word::Rise,
    Word::Language,
];

fn spelling(word: Word) -> &'static [u8]
    ensures { result.now ≡ spelling_of word }
{
    match word {
        Word::Ceiling => b"ceiling",
        Word::Input => b"input",
        Word::Metric => b"metric",
        Word::Def => b"def",
        Word::Main => b"main",
        Word::Let => b"let",
        Word::In => b"in",
        Word::If => b"if",
        Word::Nbr => b"nbr",
        Word::Rep => b"rep",
        Word::Sense => b"sense",
        Word::Uid => b"uid",
        Word::NbrLink => b"nbrLink",
        Word::Not => b"not",
        Word::And => b"and",
        Word::Or => b"or",
        Word::True => b"true",
        Word::False => b"false",
        Word::Int => b"int",
        Word::Bool => b"bool",
        Word::Field => b"field",
        Word::Min => b"min",
        Word::Max => b"max",
        Word::Mux => b"mux",
        Word::Fst => b"fst",
        Word::Snd => b"snd",
        Word::MinHoodLoc => b"minHoodLoc",
        Word::MaxHoodLoc => b"maxHoodLoc",
        Word::SumHood => b"sumHood",
        Word::AnyHood => b"anyHood",
        Word::AllHood => b"allHood",
        Word::Share => b"share",
        Word::Rise => b"rise",
        Word::Language => b"language",
    }
}

/// The word of this spelling, if there is one.
#[tactic(auto, unfolding(crate::specs::Names::word_of))]
pub fn find_word(name: &[u8]) -> Option<Word>
    ensures { result ≡ word_of name.now }
{
    WORDS.iter().copied().find(|word| spelling(*word) == name)
}

/// Whether a byte is one of `0` to `9`.
pub fn is_digit(byte: u8) -> bool
    ensures { result ≡ digit_test byte }
{
    b'0' <= byte && byte <= b'9'
}

/// Whether a byte is one of `a` to `z` and `A` to `Z`.
pub fn is_letter(byte: u8) -> bool
    ensures { result ≡ letter_test byte }
{
    (b'a' <= byte && byte <= b'z') || (b'A' <= byte && byte <= b'Z')
}

/// Whether a byte may follow the first letter of a name.
pub fn is_name_byte(byte: u8) -> bool
    ensures { result ≡ name_byte_test byte }
{
    is_letter(byte) || is_digit(byte) || byte == b'_'
}

// Whether all of some bytes may follow the first letter of a name.
fn are_name_bytes(bytes: &[u8]) -> bool
    ensures { result ≡ list_all name_byte_test bytes.now }
{
    bytes.iter().all(|byte| is_name_byte(*byte))
}

/// Whether bytes are a name: a letter, then letters, digits and `_`, and no word.
pub fn is_name(text: &[u8]) -> bool
    ensures { result ≡ name_test text.now }
{
    let [first, rest @ ..] = text else {
        return false;
    };
    is_letter(*first) && are_name_bytes(rest) && find_word(text).is_none()
}

//! Keywords.
ghost use Rattle.std.specs.Prelude.{◌≡◌, ◌≢◌, map, MatchOption};
ghost use Rattle.c_syntax.specs.declared.token.Keyword.{Keyword};
ghost use Rattle.c_syntax.specs.FixedTexts.{keyword_text};
ghost use Rattle.c_fixed_texts.specs.Keywords.{keyword_among, spelled};

use c_syntax::Keyword;

/// Each keyword behind its spelling.
const KEYWORDS: [(&str, Keyword); 32] = [
    ("auto", Keyword::Auto),
    ("break", Keyword::Break),
    ("case", Keyword::Case),
    ("char", Keyword::Char),
    ("const", Keyword::Const),
    ("continue", Keyword::Continue),
    ("default", Keyword::Default),
    ("do", Keyword::Do),
    ("double", Keyword::Double),
    ("else", Keyword::Else),
    ("enum", Keyword::Enum),
    ("extern", Keyword::Extern),
    ("float", Keyword::Float),
    ("for", Keyword::For),
    ("goto", Keyword::Goto),
    ("if", Keyword::If),
    ("int", Keyword::Int),
    ("long", Keyword::Long),
    ("register", Keyword::Register),
    ("return", Keyword::Return),
    ("short", Keyword::Short),
    ("signed", Keyword::Signed),
    ("sizeof", Keyword::Sizeof),
    ("static", Keyword::Static),
    ("struct", Keyword::Struct),
    ("switch", Keyword::Switch),
    ("typedef", Keyword::Typedef),
    ("union", Keyword::Union),
    ("unsigned", Keyword::Unsigned),
    ("void", Keyword::Void),
    ("volatile", Keyword::Volatile),
    ("while", Keyword::While),
];

// The keyword of the first row that has the spelling.
fn among(text: &[u8], rows: &[(&str, Keyword)]) -> Option<Keyword>
    ensures { result ≡ keyword_among text.now (map spelled rows.now) }
{
    for row in rows {
        if text == row.0.as_bytes() {
            return Some(row.1);
        }
    }
    None
}

/// The keyword that the text is.
pub fn keyword(text: &[u8]) -> Option<Keyword>
    ensures { MatchOption result ((k : Keyword) → text.now ≢ keyword_text k) (λ k. text.now ≡ keyword_text k) }
{
    among(text, &KEYWORDS)
}

ghost use Rattle.std.specs.Prelude.{◌≡◌, ◌||◌, ◌&&◌, nat_lt, length, slice_index};
ghost use Rattle.std.specs.List.{list_all, list_any};
ghost use Rattle.std.specs.Str.{bytes_eq};
ghost use Rattle.unit_fold.specs.Names.{is_nondigit as nondigit, is_digit as digit, is_identifier as identifier, is_reserved as reserved, is_name as name_of, is_path_byte as path_byte, is_path_text as path_text, is_one_of as is_among, keywords, map_words, predefined_names};

/// The most bytes of an identifier.
const LONGEST_NAME: usize = 4096;

pub fn is_digit(c: u8) -> bool
    ensures { result ≡ digit c }
{
    48 <= c && c <= 57
}

/// A letter or `_`.
pub fn is_nondigit(c: u8) -> bool
    ensures { result ≡ nondigit c }
{
    97 <= c && c <= 122 || 65 <= c && c <= 90 || c == 95
}

pub fn is_word_byte(c: u8) -> bool
    ensures { result ≡ (nondigit c || digit c) }
{
    is_nondigit(c) || is_digit(c)
}

fn is_path_byte(c: u8) -> bool
    ensures { result ≡ path_byte c }
{
    is_nondigit(c) || is_digit(c) || c == 45 || c == 46 || c == 47
}

fn begins_word(name: &[u8]) -> bool
    ensures { result ≡ (nat_lt 0 (length name.now) && nondigit (slice_index name.now 0)) }
{
    !name.is_empty() && is_nondigit(name[0])
}

fn has_word_bytes_alone(name: &[u8]) -> bool
    ensures { result ≡ list_all (λ c. nondigit c || digit c) name.now }
{
    name.iter().all(|c| is_word_byte(*c))
}

fn is_identifier(name: &[u8]) -> bool
    ensures { result ≡ identifier name.now }
{
    begins_word(name) && has_word_bytes_alone(name)
}

fn is_one_of(words: &[&str], name: &[u8]) -> bool
    ensures { result ≡ list_any (λ word. bytes_eq word.now name.now) words.now }
{
    words.iter().any(|word| word.as_bytes() == name)
}

#[tactic(auto, unfolding(crate::specs::Names::keywords))]
fn is_keyword(name: &[u8]) -> bool
    ensures { result ≡ is_among keywords name.now }
{
    let words = [
        "auto",
        "break",
        "case",
        "char",
        "const",
        "continue",
        "default",
        "do",
        "double",
        "else",
        "enum",
        "extern",
        "float",
        "for",
        "goto",
        "if",
        "inline",
        "int",
        "long",
        "register",
        "restrict",
        "return",
        "short",
        "signed",
        "sizeof",
        "static",
        "struct",
        "switch",
        "typedef",
        "union",
        "unsigned",
        "void",
        "volatile",
        "while",
        "_Alignas",
        "_Alignof",
        "_Atomic",
        "_Bool",
        "_Complex",
        "_Generic",
        "_Imaginary",
        "_Noreturn",
        "_Static_assert",
        "_Thread_local",
    ];
    is_one_of(&words, name)
}

#[tactic(auto, unfolding(crate::specs::Names::map_words))]
fn is_map_word(name: &[u8]) -> bool
    ensures { result ≡ is_among map_words name.now }
{
    let words = [
        "config_macros",
        "conflict",
        "exclude",
        "explicit",
        "export",
        "export_as",
        "extern",
        "framework",
        "header",
        "link",
        "module",
        "private",
        "requires",
        "textual",
        "umbrella",
        "use",
    ];
    is_one_of(&words, name)
}

#[tactic(auto, unfolding(crate::specs::Names::predefined_names))]
fn is_predefined(name: &[u8]) -> bool
    ensures { result ≡ is_among predefined_names name.now }
{
    let words = [
        "__DATE__",
        "__FILE__",
        "__LINE__",
        "__STDC__",
        "__STDC_HOSTED__",
        "__STDC_VERSION__",
        "__TIME__",
    ];
    is_one_of(&words, name)
}

/// An identifier that may be declared.
pub fn is_name(name: &[u8]) -> bool
    ensures { result ≡ name_of name.now }
{
    let is_reserved = is_keyword(name) || is_map_word(name) || is_predefined(name);
    is_identifier(name) && name.len() <= LONGEST_NAME && !is_reserved
}

pub fn is_path_text(text: &[u8]) -> bool
    ensures { result ≡ path_text text.now }
{
    text.iter().all(|c| is_path_byte(*c))
}

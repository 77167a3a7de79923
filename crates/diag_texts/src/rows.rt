ghost use Rattle.std.specs.Prelude.{◌≡◌, map};
ghost use Rattle.diag_texts.specs.Rows.{number_of, row_of, rows, text_in, text_of};

use crate::severity::Severity::{self, Error, Warning};

/// The byte of a text that is a place for an argument.
pub(crate) const PLACE: u8 = b'%';

/// A diagnostic's severity, the number that is shown of it, and its text.
pub(crate) struct Row(Severity, u16, &'static str);

static ROWS: [Row; 101] = [
    Row(Error, 1, "file '%' is absent"),
    Row(Error, 2, "file '%' has % bytes, more than 16777216"),
    Row(Error, 3, "file '%' is not UTF-8 at byte %"),
    Row(Error, 4, "not a line of this file's form"),
    Row(Error, 5, "not built yet"),
    Row(Error, 6, "more than 1024 units"),
    Row(Error, 10, "comment is not closed"),
    Row(Error, 11, "zero byte"),
    Row(Error, 12, "identifier is longer than 4096 bytes"),
    Row(Error, 20, "not a module map declaration"),
    Row(Error, 21, "nested deeper than 256"),
    Row(Error, 22, "module '%' is declared twice"),
    Row(Error, 23, "no module '%'"),
    Row(Error, 24, "'module *' without an umbrella"),
    Row(Error, 25, "folder '%' has two umbrellas"),
    Row(Error, 26, "header '%' already belongs to '%'"),
    Row(Error, 27, "more than 4096 submodules"),
    Row(Error, 28, "config_macros outside a top-level module"),
    Row(Error, 29, "path '%' is not usable"),
    Row(Error, 30, "unknown directive '%'"),
    Row(Error, 31, "malformed directive '%'"),
    Row(Error, 32, "'%' without #if"),
    Row(Error, 33, "#if is not closed"),
    Row(Error, 34, "#error %"),
    Row(Error, 35, "bad condition"),
    Row(Error, 36, "header '%' is not found"),
    Row(Error, 37, "headers nested deeper than 200"),
    Row(Error, 50, "no module '%'"),
    Row(Error, 51, "module '%' is not available"),
    Row(Error, 52, "module '%' is cyclic"),
    Row(Error, 53, "header '%' is private to '%'"),
    Row(Error, 54, "module '%' does not use '%'"),
    Row(Error, 55, "import inside a declaration"),
    Row(Warning, 58, "module '%' conflicts with '%': %"),
    Row(
        Warning,
        59,
        "configured macro '%' is changed before the import of '%'",
    ),
    Row(Error, 60, "'%' is ambiguous: % and %"),
    Row(Error, 61, "macro '%' is redefined"),
    Row(Error, 62, "macro '%' has the wrong number of arguments"),
    Row(Error, 63, "macro '%' has no closing parenthesis"),
    Row(Error, 64, "'%' and '%' do not paste to one token"),
    Row(Error, 65, "directive inside macro arguments"),
    Row(Error, 66, "'%' cannot be a macro name"),
    Row(Error, 67, "more than 1024 macro parameters"),
    Row(Error, 68, "more than 2000000 tokens"),
    Row(Error, 69, "macro arguments expanded deeper than 256"),
    Row(Error, 100, "not a declaration"),
    Row(Error, 101, "nested deeper than 256"),
    Row(Error, 102, "bad integer constant '%'"),
    Row(Error, 103, "bad character constant '%'"),
    Row(Error, 104, "bad escape in '%'"),
    Row(Error, 110, "'%' is not declared"),
    Row(Error, 112, "conflicting declarations of '%': % and %"),
    Row(Error, 113, "'%' is defined twice"),
    Row(Error, 114, "'%' is declared twice in this scope"),
    Row(Error, 115, "'%' is another kind of tag"),
    Row(Error, 116, "'%' has internal and external linkage"),
    Row(Error, 117, "incomplete type"),
    Row(Error, 120, "operands of [] do not fit"),
    Row(Error, 121, "called value is no function"),
    Row(Error, 122, "wrong number of arguments"),
    Row(Error, 123, "argument % does not fit its parameter"),
    Row(Error, 124, "no structure or union here"),
    Row(Error, 125, "no member '%'"),
    Row(Error, 126, "operand of ++ or -- does not fit"),
    Row(Error, 127, "address cannot be taken"),
    Row(Error, 128, "operand of * is no pointer"),
    Row(Error, 129, "operand of unary '%' does not fit"),
    Row(Error, 130, "sizeof does not apply"),
    Row(Error, 131, "cast does not apply"),
    Row(Error, 132, "operands of '%' do not fit"),
    Row(Error, 139, "branches of ?: do not fit"),
    Row(Error, 140, "left side cannot be changed"),
    Row(Error, 141, "types do not fit in assignment"),
    Row(Error, 143, "integer constant expected"),
    Row(Error, 144, "assertion failed: %"),
    Row(Error, 145, "constant is out of range"),
    Row(Error, 150, "more than one storage class"),
    Row(Error, 151, "type specifiers do not fit together"),
    Row(Error, 152, "array length is not positive"),
    Row(Error, 153, "array of incomplete or function type"),
    Row(Error, 154, "function returns a function or an array"),
    Row(Error, 155, "enumerator does not fit int"),
    Row(Error, 156, "bit-field does not fit"),
    Row(Error, 158, "too many initialisers"),
    Row(Error, 159, "designator does not fit"),
    Row(Error, 160, "initialiser is not constant"),
    Row(Error, 161, "object cannot be initialised"),
    Row(Error, 162, "'%' outside its statement"),
    Row(Error, 163, "duplicate case"),
    Row(Error, 164, "return does not fit the function"),
    Row(Error, 165, "no label '%'"),
    Row(Error, 166, "label '%' twice"),
    Row(Error, 167, "controlling expression does not fit"),
    Row(Error, 168, "restrict does not apply"),
    Row(Error, 169, "function specifier on no function"),
    Row(Error, 170, "function definition does not fit"),
    Row(Error, 171, "auto or register at file scope"),
    Row(Error, 172, "void parameter among others"),
    Row(Error, 173, "floating operand"),
    Row(Error, 174, "type has more than 1024 parts"),
    Row(Error, 175, "object is too large"),
];

impl Row {
    /// The number of the row's diagnostics.
    fn number(&self) -> u32
        ensures { result ≡ number_of (row_of self.now) }
    {
        let Row(severity, shown, _) = self;
        u32::from(*shown) + severity.offset()
    }
}

/// The text of a number, which is empty where the number has no row.
pub(crate) fn text_of(number: u32) -> &'static str
    ensures { result.now ≡ text_of number }
{
    text_in(table(), number)
}

#[tactic(auto, unfolding(crate::specs::Rows::rows))]
fn table() -> &'static [Row]
    ensures { map row_of result.now ≡ rows }
{
    &ROWS
}

fn text_in(rows: &[Row], number: u32) -> &'static str
    ensures { result.now ≡ text_in (map row_of rows.now) number }
{
    for row in rows {
        if row.number() == number {
            let Row(_, _, text) = row;
            return text;
        }
    }
    ""
}

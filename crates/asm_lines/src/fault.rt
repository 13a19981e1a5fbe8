//! Why a text is no program.

ghost use Rattle.std.specs.Prelude.{◌≡◌, ◌≤◌, length};

use std::fmt;

/// The fault of a line.
#[derive(Clone, Copy, Debug, PartialEq, Eq)]
pub enum AsmKind {
    /// The line has none of the forms of lines, or is a label, data or code outside a segment;
    /// or the whole text makes no image.
    BadShape,
    /// The first word is no mnemonic or directive, or an operand is no register.
    UnknownName,
    /// An operand is no number.
    BadNumber,
    /// A number or an offset doesn't have a place where it stands, or a segment is longer than its
    /// size.
    OutOfRange,
    /// A label, or the entry, is defined once more.
    TwiceDefined,
    /// A label is defined nowhere.
    Undefined,
}

impl AsmKind {
    ghost use Rattle.asm_lines.specs.KindName.{kind_name};

    /// The variant's name.
    pub fn name(self) -> &'static str
        ensures name { result.now ≡ kind_name self }
        ensures short { length result.now ≤ 12 }
    {
        match self {
            AsmKind::BadShape => "BadShape",
            AsmKind::UnknownName => "UnknownName",
            AsmKind::BadNumber => "BadNumber",
            AsmKind::OutOfRange => "OutOfRange",
            AsmKind::TwiceDefined => "TwiceDefined",
            AsmKind::Undefined => "Undefined",
        }
    }
}

impl fmt::Display for AsmKind {
    ghost use Rattle.std.specs.Prelude.{Some};
    ghost use Rattle.asm_lines.specs.KindName.{kind_name};

    ghost output = { λ kind. Some (kind_name kind) };

    /// The variant's name.
    fn fmt<W: fmt::Write>(&self, f: &mut fmt::Formatter<W>) -> fmt::Result {
        f.pad(self.name())
    }
}

//! Why a line of a script is refused.
ghost use Rattle.std.specs.Prelude.{◌≡◌, Some};
ghost use Rattle.gfx_script.specs.Kinds.{kind_name};

use std::fmt;

/// Why a line of a script is refused, in the order of checking.
#[derive(Clone, Copy, Debug, PartialEq, Eq)]
pub enum ScriptKind {
    BadByte,
    LineTooLong,
    TooMany,
    BadLine,
    Structure,
    NameUnknown,
    NameTaken,
}

impl ScriptKind {
    /// The name that programs print.
    pub fn name(self) -> &'static str
        ensures { result.now ≡ kind_name self }
    {
        match self {
            ScriptKind::BadByte => "BadByte",
            ScriptKind::LineTooLong => "LineTooLong",
            ScriptKind::TooMany => "TooMany",
            ScriptKind::BadLine => "BadLine",
            ScriptKind::Structure => "Structure",
            ScriptKind::NameUnknown => "NameUnknown",
            ScriptKind::NameTaken => "NameTaken",
        }
    }
}

impl fmt::Display for ScriptKind {
    ghost output = { λ kind. Some (kind_name kind) };

    fn fmt<W: fmt::Write>(&self, f: &mut fmt::Formatter<W>) -> fmt::Result {
        f.write_str(self.name())
    }
}

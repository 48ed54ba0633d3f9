// Written generic arguments.
ghost use Rattle.std.specs.Prelude.{Some};
ghost use Rattle.path.specs.Words.{form_words};

use std::fmt;

// How an argument is written. Type, path and placeholder are the type forms; a path or a placeholder may also
// stand for a constant.
#[derive(Clone, Copy, PartialEq, Eq, Debug)]
pub enum Form {
    Lifetime,
    Type,
    Path,
    Placeholder,
    Constant,
}

impl fmt::Display for Form {
    ghost output = { λ form. Some (form_words form) };

    fn fmt<W: fmt::Write>(&self, f: &mut fmt::Formatter<W>) -> fmt::Result {
        f.write_str(match self {
            Form::Lifetime => "a lifetime",
            Form::Type => "a type",
            Form::Path => "a path",
            Form::Placeholder => "a placeholder",
            Form::Constant => "a constant",
        })
    }
}

// A written argument. The handle is a number that stands for what the argument was lowered to.
#[derive(Clone, Copy, PartialEq, Eq, Debug)]
pub struct GenericArg {
    pub form: Form,
    pub handle: u32,
}

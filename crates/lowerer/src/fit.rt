// Which written argument fits which row.
ghost use Rattle.std.specs.Prelude.{◌≡◌};
ghost use Rattle.lowerer.specs.Fits.{fit_of, is_type_form};

use definitions::kinds::RowKind;
use path::args::Form;

// How an argument fits a row: as it is written, or as a constant though it is written like a type.
#[derive(Clone, Copy, PartialEq, Eq, Debug)]
pub enum Fit {
    Agrees,
    TypeLikeConst,
}

// Whether the argument is written like a type.
pub fn is_type_form(form: Form) -> bool
    ensures { result ≡ is_type_form form }
{
    matches!(form, Form::Type | Form::Path | Form::Placeholder)
}

impl Fit {
    // The one place that says which argument fits which row, and how.
    pub fn of(form: Form, row: RowKind) -> Option<Fit>
        ensures { result ≡ fit_of form row }
    {
        match row {
            RowKind::Lifetime => (form == Form::Lifetime).then_some(Fit::Agrees),
            RowKind::TraitSelf | RowKind::Type => is_type_form(form).then_some(Fit::Agrees),
            RowKind::Const => match form {
                Form::Constant => Some(Fit::Agrees),
                Form::Path | Form::Placeholder => Some(Fit::TypeLikeConst),
                Form::Lifetime | Form::Type => None,
            },
            RowKind::ImplTrait => None,
        }
    }
}

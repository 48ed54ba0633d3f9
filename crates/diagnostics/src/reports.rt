// What can be wrong with the generic arguments of a path.
ghost use Rattle.std.specs.Prelude.{Some};
ghost use Rattle.diagnostics.specs.Words.{prohibited_words};

use definitions::kinds::GenericParamId;
use std::fmt;

// Why a segment may have no generic arguments.
#[derive(Clone, Copy, PartialEq, Eq, Debug)]
pub enum GenericArgsProhibitedReason {
    Module,
    TyParam,
    SelfTy,
    PrimitiveTy,
}

impl fmt::Display for GenericArgsProhibitedReason {
    ghost output = { λ reason. Some (prohibited_words reason) };

    fn fmt<W: fmt::Write>(&self, f: &mut fmt::Formatter<W>) -> fmt::Result {
        f.write_str(match self {
            GenericArgsProhibitedReason::Module => "a module",
            GenericArgsProhibitedReason::TyParam => "a type parameter",
            GenericArgsProhibitedReason::SelfTy => "the type itself",
            GenericArgsProhibitedReason::PrimitiveTy => "a built-in type",
        })
    }
}

// Where generic arguments stand: on a segment of the path, as in `Foo<A>`, or on an associated type that is
// bound inside the list of a segment, as in `Foo<Assoc<A> = C>`.
#[derive(Clone, Copy, PartialEq, Eq, Debug)]
pub enum PathGenericsSource {
    Segment(u32),
    AssocType { segment: u32, assoc_type: u32 },
}

// Which arguments are too few or too many.
#[derive(Clone, Copy, PartialEq, Eq, Debug)]
pub enum IncorrectGenericsLenKind {
    Lifetimes,
    TypesAndConsts,
}

// A report. `def` is the number of the definition that the arguments are for.
#[derive(Clone, Copy, PartialEq, Eq, Debug)]
pub enum PathLoweringDiagnostic {
    // A segment has arguments and may have none.
    GenericArgsProhibited {
        segment: u32,
        reason: GenericArgsProhibitedReason,
    },
    // There are too few or too many lifetimes, or types and constants.
    IncorrectGenericsLen {
        generics_source: PathGenericsSource,
        provided_count: u32,
        expected_count: u32,
        kind: IncorrectGenericsLenKind,
        def: u32,
    },
    // An argument stands where the parameter is of another kind. `arg_idx` counts a Self argument too.
    IncorrectGenericsOrder {
        generics_source: PathGenericsSource,
        param_id: GenericParamId,
        arg_idx: u32,
        has_self_arg: bool,
    },
    // Lifetimes are left out; `hard_error` says that they may not be.
    ElidedLifetimesInPath {
        generics_source: PathGenericsSource,
        def: u32,
        expected_count: u32,
        hard_error: bool,
    },
    // Lifetimes are left out, and elision found none to put in their place.
    ElisionFailure {
        generics_source: PathGenericsSource,
        def: u32,
        expected_count: u32,
    },
    // Lifetimes are left out where they must be written.
    MissingLifetime {
        generics_source: PathGenericsSource,
        def: u32,
        expected_count: u32,
    },
}

// The names that a day knows, and what a path names by them.
ghost use Rattle.std.specs.Prelude.{◌≡◌};
ghost use Rattle.naming.specs.Resolves.{builtin, first_known, kind_of, meant_by, numbered};

use path::segments::{Resolution, TypeNs};
use spans::Span;

// A declared template, by its name and its number in the catalogue.
#[derive(Drop)]
pub struct Template {
    pub name: Vec<u8>,
    pub number: u32,
}

// What a name stands for.
#[derive(Clone, Copy)]
pub enum Meant {
    Template(u32),
    Builtin,
    OwnType,
}

// The kind of path that ends there.
impl From<Meant> for TypeNs {
    ghost from_gives = { λ m r. r ≡ kind_of m };

    fn from(meant: Meant) -> TypeNs {
        match meant {
            Meant::Template(_) => TypeNs::Adt,
            Meant::Builtin => TypeNs::BuiltinType,
            Meant::OwnType => TypeNs::SelfType,
        }
    }
}

// What a path names, if its names stand for something, and at which segment.
#[derive(Clone, Copy)]
pub struct Resolved {
    pub meant: Option<Meant>,
    pub resolution: Resolution,
}

// The number of the first template of that name.
pub fn template_of(templates: &[Template], name: &[u8]) -> Option<u32>
    ensures { result ≡ numbered templates.now name.now }
{
    templates
        .iter()
        .find(|template| template.name.as_slice() == name)
        .map(|template| template.number)
}

// The names of the built-in types.
const BUILTIN: [&[u8]; 17] = [
    b"u8", b"u16", b"u32", b"u64", b"u128", b"usize", b"i8", b"i16", b"i32", b"i64", b"i128",
    b"isize", b"bool", b"char", b"str", b"f32", b"f64",
];

// Whether the name is that of a built-in type.
#[tactic(auto, unfolding(crate::specs::Resolves::builtin))]
fn is_builtin(name: &[u8]) -> bool
    ensures { result ≡ builtin name.now }
{
    BUILTIN.contains(&name)
}

// What the name stands for: a template, else a built-in type or `Self`.
fn meaning(templates: &[Template], name: &[u8]) -> Option<Meant>
    ensures { result ≡ meant_by templates.now name.now }
{
    if let Some(number) = template_of(templates, name) {
        Some(Meant::Template(number))
    } else if is_builtin(name) {
        Some(Meant::Builtin)
    } else if name == b"Self".as_slice() {
        Some(Meant::OwnType)
    } else {
        None
    }
}

// What the path names: the first name from the left that stands for something is the resolved segment. If none
// does, the path names a module.
pub fn resolve(templates: &[Template], line: &[u8], names: &[Span]) -> Resolved
    ensures { result ≡ first_known templates.now line.now names.now 0 }
{
    names
        .iter()
        .enumerate()
        .find_map(|(i, name)| {
            let meant = meaning(templates, name.of(line))?;
            let next = i + 1;
            let remaining = (next < names.len()).then_some(next);
            Some(Resolved {
                meant: Some(meant),
                resolution: Resolution {
                    kind: meant.into(),
                    remaining,
                },
            })
        })
        .unwrap_or(Resolved {
            meant: None,
            resolution: Resolution {
                kind: TypeNs::Module,
                remaining: None,
            },
        })
}

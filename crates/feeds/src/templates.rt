// The rows of a template line.
use crate::parts::{Named, Part};
use definitions::kinds::RowKind;
use listing::blanks::is_white;
use listing::faults::{ReadError, Reason};
use listing::lists::arguments;
use listing::names::name_len;
use naming::known::{Template, template_of};
use spans::Span;
use std::alloc::Global;

// A default as it is written.
#[derive(Clone, Copy)]
pub enum Word<'a> {
    Number(u32),
    Static,
    Lifetime(Part<'a>),
    Name(Part<'a>),
}

// A row as it is written. The name of a lifetime has its apostrophe.
#[derive(Clone, Copy)]
pub struct RowText<'a> {
    pub kind: RowKind,
    pub name: &'a [u8],
    pub default: Option<Word<'a>>,
}

// A template as it is written.
#[derive(Drop)]
pub struct TemplateText<'a> {
    pub name: &'a [u8],
    pub rows: Vec<RowText<'a>>,
}

// The value of a number in decimal digits, if `text` begins with one and the number fits.
fn read_number(text: &[u8]) -> Option<u32> {
    if text.first()?.is_ascii_digit() {
        std::str::from_utf8(text).ok()?.parse().ok()
    } else {
        None
    }
}

// Whether all of `text` is a name.
fn is_name(text: &[u8]) -> bool {
    !text.is_empty() && name_len(text) == text.len()
}

// Whether `text` is a lifetime: an apostrophe and a name.
fn is_lifetime(text: &[u8]) -> bool {
    text.strip_prefix(b"'").is_some_and(is_name)
}

fn read_default(part: Part) -> Result<Word, ReadError> {
    let text = part.text();
    if is_name(text) {
        Ok(Word::Name(part))
    } else if text == b"'static".as_slice() {
        Ok(Word::Static)
    } else if is_lifetime(text) {
        Ok(Word::Lifetime(part))
    } else if let Some(value) = read_number(text) {
        Ok(Word::Number(value))
    } else {
        Err(part.unreadable(Reason::Default))
    }
}

// The name of a `const` row.
fn const_name(part: Part) -> Option<Part> {
    let rest = part.text().strip_prefix(b"const")?;
    is_white(*rest.first()?).then(|| part.behind(5).trimmed())
}

// The kind and the name of a row without its default.
fn read_head(part: Part) -> Result<(RowKind, &[u8]), ReadError> {
    if is_lifetime(part.text()) {
        return Ok((RowKind::Lifetime, part.text()));
    }
    let (kind, name) = match const_name(part) {
        Some(name) => (RowKind::Const, name),
        None => (RowKind::Type, part),
    };
    if is_name(name.text()) {
        Ok((kind, name.text()))
    } else {
        Err(name.unreadable(Reason::Row))
    }
}

// A row is its head, or its head, a `=` and its default.
fn read_row(part: Part) -> Result<RowText, ReadError> {
    let equals = part.text().iter().position(|b| *b == b'=');
    let head = part.inside(Span {
        from: 0,
        len: equals.unwrap_or(part.place.len),
    });
    let (kind, name) = read_head(head.trimmed())?;
    let default = match equals {
        Some(at) => Some(read_default(part.behind(at.saturating_add(1)).trimmed())?),
        None => None,
    };
    Ok(RowText {
        kind,
        name,
        default,
    })
}

// The place of the row of that name.
pub(crate) fn row_of(rows: &[RowText], name: &[u8]) -> Option<usize> {
    rows.iter().position(|row| row.name == name)
}

// A lifetime as default is that of a row.
fn lifetimes_known(rows: &[RowText]) -> Result<(), ReadError> {
    for row in rows {
        if let Some(Word::Lifetime(part)) = row.default {
            if row_of(rows, part.text()).is_none() {
                return Err(part.unreadable(Reason::Default));
            }
        }
    }
    Ok(())
}

fn read_rows(heap: Global, list: Part) -> Result<Vec<RowText>, ReadError> {
    let spans = arguments(heap, list.text()).map_err(|e| list.moved(e))?;
    let mut rows = Vec::new(heap);
    for span in spans {
        rows.push(read_row(list.inside(span))?)?;
    }
    lifetimes_known(&rows)?;
    Ok(rows)
}

// Reads the template, whose name is not yet taken.
pub(crate) fn read_template<'a>(
    heap: Global,
    part: Part<'a>,
    templates: &[Template],
) -> Result<TemplateText<'a>, ReadError> {
    let Named { name, list } = part.named()?;
    if template_of(templates, name.text()).is_some() {
        return Err(name.unreadable(Reason::Twice));
    }
    let rows = match list {
        Some(list) => read_rows(heap, list)?,
        None => Vec::new(heap),
    };
    Ok(TemplateText {
        name: name.text(),
        rows,
    })
}

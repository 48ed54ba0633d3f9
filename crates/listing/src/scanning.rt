// How brackets and quotes nest, byte by byte.
ghost use Rattle.std.specs.Prelude.{◌≡◌, ◌+◌, ◌^◌, ◌<◌};
ghost use Rattle.listing.specs.Nesting.{next_mode, bracket, role, after, closed, start, letter, name_byte, escaped};

// What the bytes before say of the next one.
#[derive(Clone, Copy)]
pub enum Mode {
    // Nothing.
    Plain,
    // A name ends before it, if it is no byte of a name itself.
    Word,
    // A `-` stands before it.
    Dash,
    // It stands between double quotes.
    Text,
    // The same, behind a backslash.
    TextSlash,
    // An apostrophe stands before it.
    Tick,
    // An apostrophe and a byte of a name stand before it: a lifetime, or a quoted character that it may end.
    Ticked,
    // An apostrophe and another byte stand before it: a quoted character, which it must end or go on with.
    Sealed,
    // An apostrophe and a backslash stand before it.
    TickSlash,
    // The same, further on in the escape.
    Escape,
}

// What a byte does to the nesting.
#[derive(Clone, Copy)]
pub enum Role {
    Opens,
    Closes,
    Inner,
}

// How many brackets are open, and what the last bytes say.
#[derive(Clone, Copy)]
pub struct Scan {
    pub depth: usize,
    pub mode: Mode,
}

// Whether a name may begin with `byte`: a letter or `_`.
pub(crate) fn is_letter(byte: u8) -> bool
    ensures { result ≡ letter byte }
{
    byte.is_ascii_alphabetic() || byte == b'_'
}

// Whether `byte` may stand in a name: a letter, a digit or `_`.
pub(crate) fn is_name_byte(byte: u8) -> bool
    ensures { result ≡ name_byte byte }
{
    is_letter(byte) || byte.is_ascii_digit()
}

// The mode behind a byte that stands outside quotes.
fn fresh_mode(byte: u8) -> Mode
    ensures { result ≡ next_mode Mode.Plain byte }
{
    match byte {
        b'"' => Mode::Text,
        b'\'' => Mode::Tick,
        b'-' => Mode::Dash,
        _ if is_name_byte(byte) => Mode::Word,
        _ => Mode::Plain,
    }
}

// The mode behind the first byte of what an apostrophe begins.
fn ticked_mode(byte: u8) -> Mode
    ensures { result ≡ next_mode Mode.Tick byte }
{
    match byte {
        b'\\' => Mode::TickSlash,
        _ if is_name_byte(byte) => Mode::Ticked,
        _ => Mode::Sealed,
    }
}

// The mode behind `byte`.
fn mode_after(mode: Mode, byte: u8) -> Mode
    ensures { result ≡ next_mode mode byte }
{
    match (mode, byte) {
        (Mode::Plain | Mode::Word | Mode::Dash, _) => fresh_mode(byte),
        (Mode::Text, b'"') | (Mode::Ticked | Mode::Sealed | Mode::Escape, b'\'') => Mode::Plain,
        (Mode::Ticked, _) => fresh_mode(byte),
        (Mode::Text, b'\\') => Mode::TextSlash,
        (Mode::Text | Mode::TextSlash, _) => Mode::Text,
        (Mode::Tick, _) => ticked_mode(byte),
        (Mode::Sealed, _) => Mode::Sealed,
        (Mode::TickSlash | Mode::Escape, _) => Mode::Escape,
    }
}

// What a byte outside quotes does to the nesting.
fn bracket_role(byte: u8) -> Role
    ensures { result ≡ bracket byte }
{
    match byte {
        b'<' | b'(' | b'[' | b'{' => Role::Opens,
        b'>' | b')' | b']' | b'}' => Role::Closes,
        _ => Role::Inner,
    }
}

// Whether `byte` may stand behind the first byte of an escape.
fn is_escaped(byte: u8) -> bool
    ensures { result ≡ escaped byte }
{
    is_name_byte(byte) || matches!(byte, b'{' | b'}')
}

// What `byte` does to the nesting, if it can stand there.
fn role_of(mode: Mode, byte: u8) -> Option<Role>
    ensures { result ≡ role mode byte }
{
    match (mode, byte) {
        (Mode::Text | Mode::TextSlash | Mode::Tick | Mode::TickSlash, _)
        | (Mode::Dash, b'>')
        | (Mode::Ticked | Mode::Sealed | Mode::Escape, b'\'')
        | (Mode::Sealed, 128..) => Some(Role::Inner),
        (Mode::Escape, _) if is_escaped(byte) => Some(Role::Inner),
        (Mode::Word, b'\'') | (Mode::Sealed | Mode::Escape, _) => None,
        (Mode::Plain | Mode::Word | Mode::Dash | Mode::Ticked, _) => Some(bracket_role(byte)),
    }
}

impl Scan {
    // Where a text begins.
    pub(crate) fn start() -> Scan
        ensures { result ≡ start }
    {
        Scan {
            depth: 0,
            mode: Mode::Plain,
        }
    }

    // Where the scan stands behind `byte`, unless `byte` closes what is not open or cannot stand there.
    #[tactic(auto, unfolding(crate::specs::Nesting::after))]
    pub(crate) fn after(self, byte: u8) -> Option<Scan>
        requires { self.depth + 1 < 2 ^ 64 }
        ensures { result ≡ after self byte }
    {
        let mode = mode_after(self.mode, byte);
        let depth = match role_of(self.mode, byte)? {
            Role::Opens => self.depth + 1,
            Role::Closes => self.depth.checked_sub(1)?,
            Role::Inner => self.depth,
        };
        Some(Scan { depth, mode })
    }

    // Whether no bracket is open, and no quote.
    #[tactic(auto, unfolding(crate::specs::Nesting::closed))]
    pub(crate) fn closed(self) -> bool
        ensures { result ≡ closed self }
    {
        self.depth == 0
            && matches!(
                self.mode,
                Mode::Plain | Mode::Word | Mode::Dash | Mode::Ticked
            )
    }
}

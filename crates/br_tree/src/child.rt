ghost use Rattle.std.specs.Prelude.{◌≡◌};
ghost use Rattle.br_tree.specs.Seen.{sign_byte};

/// Says whether a name of a directory is marked, or something below it.
#[derive(Clone, Copy)]
pub enum Sign {
    /// Its own path is marked.
    Marked,
    /// Its own path is not marked, but one below it is.
    Within,
    /// Neither it nor a path below it is marked.
    Plain,
}

impl Sign {
    /// Returns the byte that shows it: `*`, `+` or a space.
    pub fn byte(self) -> u8
        ensures { result ≡ sign_byte self }
    {
        match self {
            Sign::Marked => b'*',
            Sign::Within => b'+',
            Sign::Plain => b' ',
        }
    }
}

/// A name of a directory, with the `/` at its end if it is a directory itself.
#[derive(Clone, Copy)]
pub struct Child<'h> {
    /// The name, a part of a path of the view.
    pub name: &'h [u8],
    /// Whether it is marked, or something below it.
    pub sign: Sign,
}

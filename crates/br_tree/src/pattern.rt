ghost use Rattle.std.specs.Prelude.{◌≡◌, ◌==◌, ◌||◌};
ghost use Rattle.std.specs.List.{list_any};
ghost use Rattle.br_model.specs.Console as model;
ghost use Rattle.br_tree.specs.Fronts.{IsFront};

use br_types::is_directory_path;

/// Returns a name without the `/` at its end.
pub fn bare_name(name: &[u8]) -> &[u8]
    ensures { result.now ≡ model.bare name.now }
{
    if is_directory_path(name) {
        &name[..name.len() - 1]
    } else {
        name
    }
}

/// The result of matching a pattern with a name up to the first `*`.
enum FrontMatch<'t> {
    /// There is no `*`, and it matches the whole name.
    Whole,
    /// It does not match.
    Never,
    /// It matches, and these are the pattern after the `*` and the name from there on.
    Star(&'t [u8], &'t [u8]),
}

/// Returns whether a byte of a pattern, other than `*`, matches a byte.
fn takes(mark: u8, byte: u8) -> bool
    ensures { result ≡ (mark == 63 || mark == byte) }
{
    mark == b'?' || mark == byte
}

/// Matches a pattern up to its first `*`.
fn match_front<'t>(pattern: &'t [u8], name: &'t [u8]) -> FrontMatch<'t>
    ensures { IsFront result pattern.now name.now }
{
    let mut left = pattern;
    let mut behind = name;
    while let Some((mark, rest)) = left.split_first() {
        if *mark == b'*' {
            return FrontMatch::Star(rest, behind);
        }
        match behind.split_first() {
            Some((byte, more)) => {
                if !takes(*mark, *byte) {
                    return FrontMatch::Never;
                }
                left = rest;
                behind = more;
            }
            None => return FrontMatch::Never,
        }
    }
    if behind.is_empty() {
        FrontMatch::Whole
    } else {
        FrontMatch::Never
    }
}

/// Returns whether a pattern matches the name from some place on. The part before a `*` is
/// matched at the first possible place: a later place leaves less of the name, a part of what the
/// first leaves.
fn matches_somewhere(pattern: &[u8], name: &[u8]) -> bool
    ensures { result ≡ list_any (model.matches pattern.now) (model.tails name.now) }
{
    let mut left = pattern;
    let mut behind = name;
    loop {
        match match_front(left, behind) {
            FrontMatch::Whole => return true,
            FrontMatch::Star(rest, more) => {
                left = rest;
                behind = more;
            }
            FrontMatch::Never => match behind.split_first() {
                Some((_, more)) => behind = more,
                None => return false,
            },
        }
    }
}

/// Returns whether a pattern matches a whole name: `*` matches any bytes, `?` one byte, any other byte itself. It
/// takes at most as many steps as the product of the lengths.
pub fn matches(pattern: &[u8], name: &[u8]) -> bool
    ensures { result ≡ model.matches pattern.now name.now }
{
    match match_front(pattern, name) {
        FrontMatch::Whole => true,
        FrontMatch::Never => false,
        FrontMatch::Star(rest, more) => matches_somewhere(rest, more),
    }
}

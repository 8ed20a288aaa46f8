//! Under which names a file is looked for.

ghost use Rattle.std.specs.Prelude.{◌≡◌, ◌++◌, IfOk};
ghost use Rattle.std.specs.Option.{option_copied};
ghost use Rattle.uc_problem.specs.Candidates.{folder_of, candidates, begins_with_slash};

use std::alloc::{AllocError, Global};
use uc_term::{Seq, Text};

// A name up to and with its last slash, or nothing where it has none.
pub(crate) fn folder_of(name: &[u8]) -> &[u8]
    ensures { result.now ≡ folder_of name.now }
{
    let mut end = name.len();
    while end > 0 {
        if name[end - 1] == b'/' {
            break;
        }
        end -= 1;
    }
    &name[..end]
}

// The names under which an included file is looked for, in order.
pub(crate) fn candidates(
    alloc: Global,
    folder: &[u8],
    root: Option<&[u8]>,
    name: &[u8],
) -> Result<Seq<Text>, AllocError>
    ensures { IfOk result (λ names. names ≡ candidates folder.now (option_copied root.entry) name.now) }
{
    let mut names = Seq::new(alloc);
    if begins_with_slash(name) {
        names.push(Text::from_bytes(alloc, name)?)?;
        return Ok(names);
    }
    names.push(joined(alloc, folder, b"", name)?)?;
    if let Some(root) = root {
        names.push(joined(alloc, root, b"/", name)?)?;
    }
    Ok(names)
}

fn begins_with_slash(name: &[u8]) -> bool
    ensures { result ≡ begins_with_slash name.now }
{
    match name {
        [first, ..] => *first == b'/',
        [] => false,
    }
}

// Three parts one behind the other.
fn joined(alloc: Global, front: &[u8], middle: &[u8], back: &[u8]) -> Result<Text, AllocError>
    ensures { IfOk result (λ text. text ≡ front.now ++ middle.now ++ back.now) }
{
    let mut text = Text::from_bytes(alloc, front)?;
    text.extend(middle)?;
    text.extend(back)?;
    Ok(text)
}

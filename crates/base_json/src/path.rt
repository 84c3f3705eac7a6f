//! The place of a value in a file.

ghost use Rattle.std.specs.Prelude.{◌≡◌, ◌++◌, OnOk, IfOk, string_bytes};

use itoa::Buffer;
use pop_io::{NoMemory, Text};
use std::alloc::{AllocError, Global};

/// The members and items that lead from the root to a value. It lives on the stack: only a fault turns it into a text.
#[derive(Clone, Copy)]
pub enum Path<'a> {
    /// The root.
    Root,
    /// A member of the object at a path.
    Member(&'a Path<'a>, &'a str),
    /// An item of the list at a path, counted from 0.
    Item(&'a Path<'a>, usize),
}

impl Path<'_> {
    ghost use Rattle.base_json.specs.Paths.{path_text};

    /// A `/` and a name or a number for each step.
    pub fn text(&self, alloc: Global) -> Result<Text, NoMemory>
        ensures { IfOk result (λ t. t ≡ path_text self.now) }
    {
        let mut text = String::new(alloc);
        self.push_to(&mut text)?;
        Ok(Text::from_string(text))
    }

    fn push_to(&self, text: &mut String) -> Result<(), AllocError>
        ensures { OnOk result (string_bytes text.new ≡ string_bytes text.old ++ path_text self.now) }
    {
        match self {
            Path::Root => Ok(()),
            Path::Member(above, name) => {
                above.push_to(text)?;
                text.push_str("/")?;
                text.push_str(name)
            }
            Path::Item(above, number) => {
                above.push_to(text)?;
                text.push_str("/")?;
                text.push_str(Buffer::new().format(*number))
            }
        }
    }
}

//! Lists of names in a file.

ghost use Rattle.std.specs.Prelude.{◌≡◌, ◌≤◌, length, IfOk};
ghost use Rattle.serde_json.specs.View.{view};
ghost use Rattle.base_json.specs.Faults.{GivesRead};
ghost use Rattle.base_json.specs.Paths.{path_text};
ghost use Rattle.base_json.specs.Shapes.{member_by};
ghost use Rattle.net_json.specs.NameForms.{form_of};
ghost use Rattle.net_json.specs.Examined.{names_at};

use base_json::{FormatFault, Path, ReadItem, Why, broken, each_in, text_of};
use pop_io::{List, Text, is_among, is_state_name, is_variable_name};
use serde_json::Value;
use std::alloc::Global;

/// What the names of a list name.
#[derive(Clone, Copy)]
pub(crate) enum NameForm {
    Variable,
    State,
}

impl NameForm {
    ghost use Rattle.net_json.specs.NameForms.{form_of};

    fn fits(self, name: &str) -> bool
        ensures { result ≡ form_of self name.now }
    {
        match self {
            NameForm::Variable => is_variable_name(name),
            NameForm::State => is_state_name(name),
        }
    }
}

/// Names of the form, no two of them equal.
impl ReadItem for NameForm {
    ghost use Rattle.std.specs.Prelude.{⊤};
    ghost use Rattle.net_json.specs.NameForms.{form_of};
    ghost use Rattle.net_json.specs.Examined.{name_at};

    type Item = Text;

    ghost can_read = { λ _. ⊤ };

    ghost item_at = { λ form. name_at (form_of form) };

    #[tactic(auto, unfolding(crate::specs::Examined::name_at))]
    fn read(
        &self,
        alloc: Global,
        path: &Path<'_>,
        found: &[Text],
        value: &Value,
    ) -> Result<Text, FormatFault> {
        let name = text_of(alloc, path, value)?;
        if !self.fits(name) || is_among(found, name.as_bytes()) {
            return Err(broken(alloc, path, Why::Name));
        }
        Ok(Text::from_string(String::from_str(alloc, name)?))
    }
}

/// A member by its name: 1 to `most` names of a form, no two of them equal.
pub(crate) fn names_of(
    alloc: Global,
    path: &Path<'_>,
    member: &str,
    form: NameForm,
    most: usize,
    value: &Value,
) -> Result<List<Text>, FormatFault>
    ensures names { GivesRead (λ ts. ts) result
        (member_by (path_text path.now) member.now (names_at (form_of form) most) (view value.now)) }
    ensures count { IfOk result (λ ts. (1 ≤ length ts) × (length ts ≤ most)) }
{
    each_in(alloc, path, member, 1, most, &form, value)
}
